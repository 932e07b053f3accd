//! What lasts over a save.
ghost use Rattle.std.specs.Prelude.{◌≡◌, ℕ, map, IfOk, IfSome, IsSome};
ghost use Rattle.std.specs.Option.{option_copied, option_map};
ghost use Rattle.op_kind.specs.Resources.{resources};
ghost use Rattle.tree_memory.specs.Spared.{left};
ghost use Rattle.ws_durable.specs.Saved.{saved, saved_built, saved_kept};
ghost use Rattle.ws_lasting.specs.Saved.{lasting_built, lasting_kept, lasting_of, lasting_record, lasting_state};
ghost use Rattle.ws_content.specs.States.{Remembered};
ghost use Rattle.ws_content.specs.Inside.Held.{Holds, in_memory, restated, retreed};

use crate::NoMemory;
use op_kind::Side;
use std::alloc::Global;
use tree_memory::{Remembers, Sparing};
use ws_durable::{Builds, Built, Durable, Keeps, Kept, Names};
use ws_elem::ElemMap;
use ws_lasting::{lasting, lasting_now, lasting_record, lasting_state};
use ws_marks::{Marks, Record, State};

/// What lasts of all this over a save, as a value of its own that shares the texts. Costs a put for each element of the tree,
/// and of the others what `at` costs for each tree that is remembered there, and a look at each of its elements.
pub fn durable_content<T: Remembers + Drop>(
    alloc: Global,
    tree: &Sparing<T>,
    side: &Side,
    marks: &Marks<T::Memory>,
) -> Result<Durable, NoMemory>
    ensures { IfOk result (λ d. (start : ℕ) (v : Remembered) → Holds T.number start (left T.remembered tree.now) marks.now v
        → saved d ≡ lasting_of (resources (T.tree tree.now.tree) side.now) v.built v.kept) }
{
    Ok(Durable {
        next_node: side.next_node,
        next_stamp: side.next_stamp,
        next_marker: side.next_marker,
        partners: Names::of(side.partners.copy()?.into_vec()),
        tree: lasting_now(alloc, tree.tree())?,
        shelf: lasting(alloc, side.shelf.copy()?)?,
        built: durable_records(alloc, tree, marks)?,
        kept: durable_states(alloc, tree, marks)?,
    })
}

/// What lasts of all records, in the order of their places.
fn durable_records<T: Remembers + Drop>(
    alloc: Global,
    tree: &Sparing<T>,
    marks: &Marks<T::Memory>,
) -> Result<Builds, NoMemory>
    ensures { IfOk result (λ built. (start : ℕ) (v : Remembered) → Holds T.number start (left T.remembered tree.now) marks.now v
        → map saved_built built ≡ lasting_built v.built) }
{
    let mut built = Vec::new(alloc);
    for record in marks.records() {
        built.push(durable_record(alloc, tree, record)?)?;
    }
    Ok(Builds::of(built))
}

/// What lasts of the record, with the tree that is remembered for it.
fn durable_record<T: Remembers + Drop>(
    alloc: Global,
    tree: &Sparing<T>,
    of: &Record<T::Memory>,
) -> Result<Built, NoMemory>
    ensures { IfOk result (λ built. IsSome (left T.remembered tree.now (T.number of.now.tree))
        → saved_built built ≡ lasting_record (retreed (λ x. in_memory (left T.remembered tree.now (T.number x))) of.now)) }
{
    let map = tree.at(alloc, &of.tree)?;
    lasting_record(alloc, of, map)
}

/// What lasts of all kept states, in the order of the participants' names.
fn durable_states<T: Remembers + Drop>(
    alloc: Global,
    tree: &Sparing<T>,
    marks: &Marks<T::Memory>,
) -> Result<Keeps, NoMemory>
    ensures { IfOk result (λ kept. (start : ℕ) (v : Remembered) → Holds T.number start (left T.remembered tree.now) marks.now v
        → map saved_kept kept ≡ lasting_kept v.kept) }
{
    let mut kept = Vec::new(alloc);
    for state in marks.states() {
        kept.push(durable_state(alloc, tree, state)?)?;
    }
    Ok(Keeps::of(kept))
}

/// What lasts of the state, with the tree that is remembered for it, if there is one.
fn durable_state<T: Remembers + Drop>(
    alloc: Global,
    tree: &Sparing<T>,
    state: &State<T::Memory>,
) -> Result<Kept, NoMemory>
    ensures { IfOk result (λ kept. IfSome state.now.tree (λ x. IsSome (left T.remembered tree.now (T.number x)))
        → saved_kept kept ≡ lasting_state (restated (λ x. in_memory (left T.remembered tree.now (T.number x))) state.now)) }
{
    let map = tree_at(alloc, tree, state.tree.as_ref())?;
    lasting_state(alloc, state, map)
}

/// The tree that is remembered, if one is asked for.
fn tree_at<T: Remembers + Drop>(
    alloc: Global,
    tree: &Sparing<T>,
    memory: Option<&T::Memory>,
) -> Result<Option<ElemMap>, NoMemory>
    ensures { IfOk result (λ map. IfSome (option_copied memory.entry) (λ x. IsSome (left T.remembered tree.now (T.number x)))
        → option_map (λ m. m.map) map ≡ option_map (λ x. in_memory (left T.remembered tree.now (T.number x))) (option_copied memory.entry)) }
{
    match memory {
        None => Ok(None),
        Some(memory) => Ok(Some(tree.at(alloc, memory)?)),
    }
}
