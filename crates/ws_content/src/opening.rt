//! What is remembered of a workspace that is opened: the trees that are kept, each led from the one before it.
ghost use Rattle.std.specs.Prelude.{◌≡◌, ℕ, map, None as nothing, IfOk, IsSome, OnOk};
ghost use Rattle.std.specs.FinMap.{insert};
ghost use Rattle.tree_memory.specs.Spared.{left};
ghost use Rattle.ws_marks.specs.Places.{place_of};
ghost use Rattle.ws_content.specs.States.{Remembered, at_names, at_places, shown_built, shown_kept, tree_alone, with_built};
ghost use Rattle.ws_content.specs.Inside.Held.{Holds};
ghost use Rattle.ws_content.specs.Inside.Opened.{kept_onto, onto};

use crate::NoMemory;
use crate::keeping::{close, keep};
use crate::remembering::{give_up_built, settle};
use std::alloc::Global;
use tree_lead::lead;
use tree_memory::{Remembers, Sparing};
use ws_elem::ElemMap;
use ws_marks::{Marks, Record, State};

/// A tree, with what is remembered of it: as the workspace was opened, as it was told, as commands were built, and as
/// participants keep it.
#[derive(Drop)]
pub struct Opened<T: Remembers + Drop> {
    pub tree: Sparing<T>,
    pub start: T::Memory,
    pub marks: Marks<T::Memory>,
}

/// The tree, which is remembered as it is. Nothing was built, and nothing is kept.
pub fn as_it_is<T: Remembers + Drop>(alloc: Global, tree: T) -> Result<Opened<T>, NoMemory>
    ensures holds { IfOk result (λ o. Holds T.number (T.number o.start) (left T.remembered o.tree) o.marks (tree_alone (T.tree tree))) }
    ensures tree { IfOk result (λ o. T.tree o.tree.tree ≡ T.tree tree) }
{
    let mut tree = Sparing::of(alloc, tree);
    let start = tree.remember(alloc)?;
    let told = tree.remember(alloc)?;
    Ok(Opened {
        tree,
        start,
        marks: Marks::of(alloc, told),
    })
}

/// The tree, led to that of each record, to that of each kept state that has one, from the last to the first, and then to
/// the wanted one. What was built last is as the records say, what is kept as the states say, and the wanted tree is the one
/// with which the workspace is opened, and told.
pub fn led_through<T: Remembers + Drop>(
    alloc: Global,
    tree: T,
    at: &ElemMap,
    built: &[Record<ElemMap>],
    kept: &[State<ElemMap>],
    wanted: &ElemMap,
) -> Result<Opened<T>, NoMemory>
    requires { T.tree tree ≡ at.now.map }
    ensures holds { IfOk result (λ o. Holds T.number (T.number o.start) (left T.remembered o.tree) o.marks (record {
      start = wanted.now.map;
      told = wanted.now.map;
      built = at_places (map shown_built built.now);
      kept = at_names (map shown_kept kept.now);
      before = nothing;
    })) }
    ensures tree { IfOk result (λ o. T.tree o.tree.tree ≡ wanted.now.map) }
{
    let opened = as_it_is(alloc, tree)?;
    let Opened {
        mut tree,
        start,
        mut marks,
    } = opened;
    let after_built = add_all(alloc, &mut tree, &mut marks, at, built)?;
    let last = keep_all(alloc, &mut tree, &mut marks, after_built, kept)?;
    lead(&mut tree, last, wanted)?;
    let led = begun(alloc, Opened { tree, start, marks })?;
    Ok(led)
}

/// Leads the tree to that of each record, from the last to the first, which is then what was built last for its command.
/// Gives the elements that the tree has.
fn add_all<'a, T: Remembers + Drop>(
    alloc: Global,
    tree: &mut Sparing<T>,
    marks: &mut Marks<T::Memory>,
    at: &'a ElemMap,
    built: &'a [Record<ElemMap>],
) -> Result<&'a ElemMap, NoMemory>
    requires at { T.tree tree.old.tree ≡ at.now.map }
    requires known { (start : ℕ) × (v : Remembered) × Holds T.number start (left T.remembered tree.old) marks.old v }
    ensures holds { OnOk result ((start : ℕ) (v : Remembered) → Holds T.number start (left T.remembered tree.old) marks.old v
        → Holds T.number start (left T.remembered tree.new) marks.new (with_built v (onto v.built built.now))) }
    ensures tree { IfOk result (λ last. T.tree tree.new.tree ≡ last.now.map) }
{
    let mut at = at;
    let mut rest = built;
    while let Some((last, others)) = rest.split_last() {
        add(alloc, tree, marks, at, last)?;
        at = &last.tree;
        rest = others;
    }
    Ok(at)
}

/// Leads the tree to that of the record, which is then what was built last for its command.
fn add<T: Remembers + Drop>(
    alloc: Global,
    tree: &mut Sparing<T>,
    marks: &mut Marks<T::Memory>,
    at: &ElemMap,
    built: &Record<ElemMap>,
) -> Result<(), NoMemory>
    requires at { T.tree tree.old.tree ≡ at.now.map }
    requires known { (start : ℕ) × (v : Remembered) × Holds T.number start (left T.remembered tree.old) marks.old v }
    ensures holds { OnOk result ((start : ℕ) (v : Remembered) → Holds T.number start (left T.remembered tree.old) marks.old v
        → Holds T.number start (left T.remembered tree.new) marks.new
        (with_built v (insert v.built (place_of built.now) (shown_built built.now)))) }
    ensures tree { OnOk result (T.tree tree.new.tree ≡ built.now.tree.map) }
{
    lead(tree, at, &built.tree)?;
    let project = built.project.copy()?;
    let command = built.command.copy()?;
    let references = built.references.copy()?;
    let memory = tree.remember(alloc)?;
    let before = marks.set_built(Record {
        project,
        index: built.index,
        command,
        references,
        tree: memory,
    })?;
    give_up_built(alloc, tree, before);
    Ok(())
}

/// Leads the tree to that of each state that has one, from the last to the first, and that is then kept. Gives the elements
/// that the tree has.
fn keep_all<'a, T: Remembers + Drop>(
    alloc: Global,
    tree: &mut Sparing<T>,
    marks: &mut Marks<T::Memory>,
    at: &'a ElemMap,
    kept: &'a [State<ElemMap>],
) -> Result<&'a ElemMap, NoMemory>
    requires at { T.tree tree.old.tree ≡ at.now.map }
    requires known { (start : ℕ) × (v : Remembered) × Holds T.number start (left T.remembered tree.old) marks.old v }
    ensures holds { OnOk result ((start : ℕ) (v : Remembered) → Holds T.number start (left T.remembered tree.old) marks.old v
        → Holds T.number start (left T.remembered tree.new) marks.new (record v { kept = kept_onto v.kept kept.now; before = nothing })) }
    ensures tree { IfOk result (λ last. T.tree tree.new.tree ≡ last.now.map) }
{
    marks.begin_save();
    let last = keep_in_turn(alloc, tree, marks, at, kept)?;
    close(alloc, tree, marks);
    Ok(last)
}

/// Keeps the states in the save under way, from the last to the first, each with the tree led to its own.
fn keep_in_turn<'a, T: Remembers + Drop>(
    alloc: Global,
    tree: &mut Sparing<T>,
    marks: &mut Marks<T::Memory>,
    at: &'a ElemMap,
    kept: &'a [State<ElemMap>],
) -> Result<&'a ElemMap, NoMemory>
    requires at { T.tree tree.old.tree ≡ at.now.map }
    requires known { (start : ℕ) × (v : Remembered) × Holds T.number start (left T.remembered tree.old) marks.old v }
    requires saving { IsSome marks.old.replaced }
    ensures holds { OnOk result ((start : ℕ) (v : Remembered) → Holds T.number start (left T.remembered tree.old) marks.old v
        → Holds T.number start (left T.remembered tree.new) marks.new (record v { kept = kept_onto v.kept kept.now })) }
    ensures tree { IfOk result (λ last. T.tree tree.new.tree ≡ last.now.map) }
{
    let mut at = at;
    let mut rest = kept;
    while let Some((last, others)) = rest.split_last() {
        at = keep_state(alloc, tree, marks, at, last)?;
        rest = others;
    }
    Ok(at)
}

/// Keeps the state in the save under way, with the tree led to its own where it has one. Gives the elements that the tree
/// has.
fn keep_state<'a, T: Remembers + Drop>(
    alloc: Global,
    tree: &mut Sparing<T>,
    marks: &mut Marks<T::Memory>,
    at: &'a ElemMap,
    kept: &'a State<ElemMap>,
) -> Result<&'a ElemMap, NoMemory>
    requires at { T.tree tree.old.tree ≡ at.now.map }
    requires known { (start : ℕ) × (v : Remembered) × Holds T.number start (left T.remembered tree.old) marks.old v }
    requires saving { IsSome marks.old.replaced }
    ensures holds { OnOk result ((start : ℕ) (v : Remembered) → Holds T.number start (left T.remembered tree.old) marks.old v
        → Holds T.number start (left T.remembered tree.new) marks.new (record v { kept = insert v.kept kept.now.participant (shown_kept kept.now) })) }
    ensures saving { OnOk result (IsSome marks.new.replaced) }
    ensures tree { IfOk result (λ last. T.tree tree.new.tree ≡ last.now.map) }
{
    match &kept.tree {
        None => {
            keep(alloc, tree, marks, &kept.participant, &kept.bytes, false)?;
            Ok(at)
        }
        Some(wanted) => {
            lead(tree, at, wanted)?;
            keep(alloc, tree, marks, &kept.participant, &kept.bytes, true)?;
            Ok(wanted)
        }
    }
}

/// The tree as it is is the one with which the workspace is opened, and told.
fn begun<T: Remembers + Drop>(alloc: Global, opened: Opened<T>) -> Result<Opened<T>, NoMemory>
    requires { (v : Remembered) × Holds T.number (T.number opened.start) (left T.remembered opened.tree) opened.marks v }
    ensures holds { IfOk result (λ o. (v : Remembered)
        → Holds T.number (T.number opened.start) (left T.remembered opened.tree) opened.marks v
        → Holds T.number (T.number o.start) (left T.remembered o.tree) o.marks
        (record v { start = T.tree opened.tree.tree; told = T.tree opened.tree.tree })) }
    ensures tree { IfOk result (λ o. T.tree o.tree.tree ≡ T.tree opened.tree.tree) }
{
    let Opened {
        mut tree,
        start: before,
        mut marks,
    } = opened;
    let start = tree.remember(alloc)?;
    tree.give_up(alloc, before);
    let told = tree.remember(alloc)?;
    settle(alloc, &mut tree, &mut marks, Some(told));
    Ok(Opened { tree, start, marks })
}
