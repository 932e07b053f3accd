//! What participants kept, as a session that begins has it.
ghost use Rattle.std.specs.Prelude.{◌≡◌, ℕ, IfOk, IfSome, IsSome};
ghost use Rattle.std.specs.Option.{option_copied, option_map};
ghost use Rattle.delta_kind.specs.Deltas.{delta};
ghost use Rattle.tree_memory.specs.Spared.{left};
ghost use Rattle.ws_content.specs.States.{Remembered};
ghost use Rattle.ws_content.specs.Saves.{kept_since, state_since};
ghost use Rattle.ws_content.specs.Inside.Held.{Holds, in_memory, restated};

use crate::NoMemory;
use delta_kind::Delta;
use save_round::KeptState;
use std::alloc::Global;
use tree_memory::{Remembers, Sparing};
use ws_marks::{Marks, State};

/// What participants keep, in the order of their names, each with what changed since its tree where it has one. Costs what
/// was recorded since then for each that has one, and a look at each other.
pub fn kept_states<T: Remembers + Drop>(
    alloc: Global,
    tree: &Sparing<T>,
    marks: &Marks<T::Memory>,
) -> Result<Vec<KeptState>, NoMemory>
    ensures { IfOk result (λ kept. (start : ℕ) (v : Remembered) → Holds T.number start (left T.remembered tree.now) marks.now v
        → kept.items ≡ kept_since v (T.tree tree.now.tree)) }
{
    let mut kept = Vec::new(alloc);
    for state in marks.states() {
        kept.push(state_since(alloc, tree, state)?)?;
    }
    Ok(kept)
}

/// What the participant keeps, with what changed since its tree where it has one.
fn state_since<T: Remembers + Drop>(
    alloc: Global,
    tree: &Sparing<T>,
    state: &State<T::Memory>,
) -> Result<KeptState, NoMemory>
    ensures { IfOk result (λ kept. IfSome state.now.tree (λ x. IsSome (left T.remembered tree.now (T.number x)))
        → kept ≡ state_since (T.tree tree.now.tree) (restated (λ x. in_memory (left T.remembered tree.now (T.number x))) state.now)) }
{
    Ok(KeptState {
        name: state.participant.copy()?,
        bytes: state.bytes.clone()?,
        delta: delta_since(alloc, tree, state.tree.as_ref())?,
    })
}

/// What changed since the tree that is remembered, if one is asked for.
fn delta_since<T: Remembers + Drop>(
    alloc: Global,
    tree: &Sparing<T>,
    memory: Option<&T::Memory>,
) -> Result<Option<Delta>, NoMemory>
    ensures { IfOk result (λ d. IfSome (option_copied memory.entry) (λ x. IsSome (left T.remembered tree.now (T.number x)))
        → d ≡ option_map (λ x. delta (in_memory (left T.remembered tree.now (T.number x))) (T.tree tree.now.tree)) (option_copied memory.entry)) }
{
    match memory {
        None => Ok(None),
        Some(memory) => Ok(Some(tree.since(alloc, memory)?)),
    }
}
