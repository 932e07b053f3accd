//! What participants keep: set in a save, put back, and let go.
ghost use Rattle.std.specs.Prelude.{◌≡◌, ◌≢◌, ◌<◌, ◌≤◌, [], ◌∷◌, ℕ, true, false, Option, Some, None as nothing, IfOk, IfSome, IsSome, OnOk, OnErr, length};
ghost use Rattle.tree_memory.specs.Spared.{left};
ghost use Rattle.ws_elem.specs.Trees.{Tree};
ghost use Rattle.ws_marks.specs.Marked.{since_begin};
ghost use Rattle.ws_marks.specs.Places.{States};
ghost use Rattle.ws_content.specs.States.{Remembered};
ghost use Rattle.ws_content.specs.Saves.{save_ended, states_kept};
ghost use Rattle.ws_content.specs.Inside.Held.{Holds, StaysBehind, Takes};
ghost use Rattle.ws_content.specs.Inside.Slots.{number_of};

use crate::NoMemory;
use crate::remembering::give_up_if;
use bytes::Bytes;
use res_path::Name;
use save_kind::PartState;
use std::alloc::{AllocError, Global};
use tree_memory::{Remembers, Sparing};
use ws_marks::{Marks, State};

/// The tree as it is, remembered from now on, where that is wanted.
fn remember_if<T: Remembers + Drop>(
    alloc: Global,
    tree: &mut Sparing<T>,
    wanted: bool,
) -> Result<Option<T::Memory>, NoMemory>
    ensures taken { IfOk result (λ o. Takes T.number (left T.remembered tree.old) (left T.remembered tree.new) (T.tree tree.old.tree) wanted o) }
    ensures err { OnErr result (left T.remembered tree.new ≡ left T.remembered tree.old) }
    ensures tree { T.tree tree.new.tree ≡ T.tree tree.old.tree }
    ensures room { T.room tree.new.tree ≡ T.room tree.old.tree }
{
    if !wanted {
        return Ok(None);
    }
    let memory = tree.remember(alloc)?;
    Ok(Some(memory))
}

/// These bytes of the participant, with the tree as it is where that is wanted, which is remembered from now on.
fn state_now<T: Remembers + Drop>(
    alloc: Global,
    tree: &mut Sparing<T>,
    name: &Name,
    bytes: &Bytes,
    with_tree: bool,
) -> Result<State<T::Memory>, NoMemory>
    ensures participant { IfOk result (λ s. s.participant ≡ name.now) }
    ensures bytes { IfOk result (λ s. s.bytes ≡ bytes.now) }
    ensures taken { IfOk result (λ s. Takes T.number (left T.remembered tree.old) (left T.remembered tree.new) (T.tree tree.old.tree) with_tree s.tree) }
    ensures err { OnErr result (left T.remembered tree.new ≡ left T.remembered tree.old) }
    ensures tree { T.tree tree.new.tree ≡ T.tree tree.old.tree }
    ensures room { T.room tree.new.tree ≡ T.room tree.old.tree }
{
    let participant = name.copy()?;
    let bytes = bytes.clone()?;
    let tree = remember_if(alloc, tree, with_tree)?;
    Ok(State {
        participant,
        bytes,
        tree,
    })
}

/// Gives up the tree of a state, if there is one that has one.
fn give_up_kept<T: Remembers + Drop>(
    alloc: Global,
    tree: &mut Sparing<T>,
    gone: Option<State<T::Memory>>,
)
    requires { IfSome (number_of T.number gone) (λ k. IsSome (left T.remembered tree.old k)) }
    ensures others { (k : ℕ) → number_of T.number gone ≢ Some k → left T.remembered tree.new k ≡ left T.remembered tree.old k }
    ensures tree { T.tree tree.new.tree ≡ T.tree tree.old.tree }
    ensures room { T.room tree.new.tree ≡ T.room tree.old.tree }
{
    if let Some(gone) = gone {
        give_up_if(alloc, tree, gone.tree);
    }
}

/// The participant keeps these bytes from now on, with the tree as it is where that is wanted. Where memory wants, what is
/// remembered stays.
pub fn keep<T: Remembers + Drop>(
    alloc: Global,
    tree: &mut Sparing<T>,
    marks: &mut Marks<T::Memory>,
    name: &Name,
    bytes: &Bytes,
    with_tree: bool,
) -> Result<(), NoMemory>
    requires known { (start : ℕ) × (v : Remembered) × Holds T.number start (left T.remembered tree.old) marks.old v }
    requires saving { IsSome marks.old.replaced }
    ensures holds { OnOk result ((start : ℕ) (v : Remembered) → Holds T.number start (left T.remembered tree.old) marks.old v
        → Holds T.number start (left T.remembered tree.new) marks.new
        (states_kept (T.tree tree.old.tree) v ((name.now, record { bytes = bytes.now; needs_delta = with_tree }) ∷ []))) }
    ensures same { OnErr result ((start : ℕ) (v : Remembered) → Holds T.number start (left T.remembered tree.old) marks.old v
        → Holds T.number start (left T.remembered tree.new) marks.new v) }
    ensures behind { (start count : ℕ) (v : Remembered) → Holds T.number start (left T.remembered tree.old) marks.old v
        → count ≤ length (since_begin marks.old.replaced)
        → StaysBehind T.number start count (left T.remembered tree.old) marks.old (left T.remembered tree.new) marks.new }
    ensures more { length (since_begin marks.old.replaced) ≤ length (since_begin marks.new.replaced) }
    ensures saving { IsSome marks.new.replaced }
    ensures tree { T.tree tree.new.tree ≡ T.tree tree.old.tree }
{
    let state = state_now(alloc, tree, name, bytes, with_tree)?;
    match marks.set_kept(state) {
        Ok(()) => Ok(()),
        Err(failed) => {
            give_up_kept(alloc, tree, Some(failed.value));
            Err(AllocError)
        }
    }
}

/// What was set last in the save, beyond so many, is undone. Whether there was something.
fn undo_one<T: Remembers + Drop>(
    alloc: Global,
    tree: &mut Sparing<T>,
    marks: &mut Marks<T::Memory>,
    count: usize,
) -> bool
    requires { (start : ℕ) × (v : Remembered) × Holds T.number start (left T.remembered tree.old) marks.old v }
    ensures holds { (start : ℕ) (v : Remembered) → Holds T.number start (left T.remembered tree.old) marks.old v
        → (kept : States Tree) × Holds T.number start (left T.remembered tree.new) marks.new (record v { kept = kept }) }
    ensures behind { (start : ℕ) (v : Remembered) → Holds T.number start (left T.remembered tree.old) marks.old v
        → StaysBehind T.number start count (left T.remembered tree.old) marks.old (left T.remembered tree.new) marks.new }
    ensures none { result ≡ false → length (since_begin marks.new.replaced) ≤ count }
    ensures fewer { result ≡ true → length (since_begin marks.new.replaced) < length (since_begin marks.old.replaced) }
    ensures tree { T.tree tree.new.tree ≡ T.tree tree.old.tree }
{
    match marks.undo_last(count) {
        None => false,
        Some(gone) => {
            give_up_kept(alloc, tree, Some(gone));
            true
        }
    }
}

/// What was set in the save beyond so many is undone. It takes no memory.
fn undo_beyond<T: Remembers + Drop>(
    alloc: Global,
    tree: &mut Sparing<T>,
    marks: &mut Marks<T::Memory>,
    count: usize,
)
    requires { (start : ℕ) × (v : Remembered) × Holds T.number start (left T.remembered tree.old) marks.old v }
    ensures holds { (start : ℕ) (v : Remembered) → Holds T.number start (left T.remembered tree.old) marks.old v
        → (kept : States Tree) × Holds T.number start (left T.remembered tree.new) marks.new (record v { kept = kept }) }
    ensures behind { (start : ℕ) (v : Remembered) → Holds T.number start (left T.remembered tree.old) marks.old v
        → StaysBehind T.number start count (left T.remembered tree.old) marks.old (left T.remembered tree.new) marks.new }
    ensures none { length (since_begin marks.new.replaced) ≤ count }
    ensures tree { T.tree tree.new.tree ≡ T.tree tree.old.tree }
{
    while undo_one(alloc, tree, marks, count) {}
}

/// What was replaced last in the save is let go. Whether there was something.
fn let_go_one<T: Remembers + Drop>(
    alloc: Global,
    tree: &mut Sparing<T>,
    marks: &mut Marks<T::Memory>,
) -> bool
    requires { (start : ℕ) × (v : Remembered) × Holds T.number start (left T.remembered tree.old) marks.old v }
    ensures holds { (start : ℕ) (v : Remembered) → Holds T.number start (left T.remembered tree.old) marks.old v
        → (before : Option (States Tree)) × Holds T.number start (left T.remembered tree.new) marks.new (record v { before = before }) }
    ensures none { result ≡ false → since_begin marks.new.replaced ≡ [] }
    ensures fewer { result ≡ true → length (since_begin marks.new.replaced) < length (since_begin marks.old.replaced) }
    ensures tree { T.tree tree.new.tree ≡ T.tree tree.old.tree }
{
    match marks.take_replaced() {
        None => false,
        Some(last) => {
            give_up_kept(alloc, tree, last.before);
            true
        }
    }
}

/// The save is over, and what is kept stays. It takes no memory.
pub fn close<T: Remembers + Drop>(
    alloc: Global,
    tree: &mut Sparing<T>,
    marks: &mut Marks<T::Memory>,
)
    requires { (start : ℕ) × (v : Remembered) × Holds T.number start (left T.remembered tree.old) marks.old v }
    ensures holds { (start : ℕ) (v : Remembered) → Holds T.number start (left T.remembered tree.old) marks.old v
        → Holds T.number start (left T.remembered tree.new) marks.new (record v { before = nothing }) }
    ensures tree { T.tree tree.new.tree ≡ T.tree tree.old.tree }
{
    while let_go_one(alloc, tree, marks) {}
    marks.end_save();
}

/// The save under way is over. Where it is saved, what was kept in it stays; else what was kept before is kept again. Where
/// none is under way nothing changes. It takes no memory.
pub fn end_save<T: Remembers + Drop>(
    alloc: Global,
    tree: &mut Sparing<T>,
    marks: &mut Marks<T::Memory>,
    saved: bool,
)
    requires { (start : ℕ) × (v : Remembered) × Holds T.number start (left T.remembered tree.old) marks.old v }
    ensures holds { (start : ℕ) (v : Remembered) → Holds T.number start (left T.remembered tree.old) marks.old v
        → Holds T.number start (left T.remembered tree.new) marks.new (save_ended saved v) }
    ensures tree { T.tree tree.new.tree ≡ T.tree tree.old.tree }
{
    if saved {
        close(alloc, tree, marks);
        return;
    }
    undo_beyond(alloc, tree, marks, 0);
    close(alloc, tree, marks);
}

/// These states are kept from now on, each with the tree as it is where it asks for that. Where memory wants, some are.
fn keep_each<T: Remembers + Drop>(
    alloc: Global,
    tree: &mut Sparing<T>,
    marks: &mut Marks<T::Memory>,
    states: &[(Name, PartState)],
) -> Result<(), NoMemory>
    requires known { (start : ℕ) × (v : Remembered) × Holds T.number start (left T.remembered tree.old) marks.old v }
    requires saving { IsSome marks.old.replaced }
    ensures holds { OnOk result ((start : ℕ) (v : Remembered) → Holds T.number start (left T.remembered tree.old) marks.old v
        → Holds T.number start (left T.remembered tree.new) marks.new (states_kept (T.tree tree.old.tree) v states.now)) }
    ensures known { (start : ℕ) (v : Remembered) → Holds T.number start (left T.remembered tree.old) marks.old v
        → (kept : States Tree) × Holds T.number start (left T.remembered tree.new) marks.new (record v { kept = kept }) }
    ensures behind { (start count : ℕ) (v : Remembered) → Holds T.number start (left T.remembered tree.old) marks.old v
        → count ≤ length (since_begin marks.old.replaced)
        → StaysBehind T.number start count (left T.remembered tree.old) marks.old (left T.remembered tree.new) marks.new }
    ensures tree { T.tree tree.new.tree ≡ T.tree tree.old.tree }
{
    let mut rest = states;
    while let Some((first, others)) = rest.split_first() {
        let (name, state) = first;
        keep(alloc, tree, marks, name, &state.bytes, state.needs_delta)?;
        rest = others;
    }
    Ok(())
}

/// These states are kept from now on in the save under way. Where memory wants nothing has changed.
fn keep_in_save<T: Remembers + Drop>(
    alloc: Global,
    tree: &mut Sparing<T>,
    marks: &mut Marks<T::Memory>,
    states: &[(Name, PartState)],
) -> Result<(), NoMemory>
    requires known { (start : ℕ) × (v : Remembered) × Holds T.number start (left T.remembered tree.old) marks.old v }
    requires saving { IsSome marks.old.replaced }
    ensures holds { OnOk result ((start : ℕ) (v : Remembered) → Holds T.number start (left T.remembered tree.old) marks.old v
        → Holds T.number start (left T.remembered tree.new) marks.new (states_kept (T.tree tree.old.tree) v states.now)) }
    ensures same { OnErr result ((start : ℕ) (v : Remembered) → Holds T.number start (left T.remembered tree.old) marks.old v
        → Holds T.number start (left T.remembered tree.new) marks.new v) }
    ensures tree { T.tree tree.new.tree ≡ T.tree tree.old.tree }
{
    let count = marks.count_replaced();
    match keep_each(alloc, tree, marks, states) {
        Ok(()) => Ok(()),
        Err(wanted) => {
            undo_beyond(alloc, tree, marks, count);
            Err(wanted)
        }
    }
}

/// These states are kept from now on, each in the place of what its participant kept, and each with the tree as it is where
/// it asks for that. Where memory wants nothing has changed.
pub fn keep_states<T: Remembers + Drop>(
    alloc: Global,
    tree: &mut Sparing<T>,
    marks: &mut Marks<T::Memory>,
    states: &[(Name, PartState)],
) -> Result<(), NoMemory>
    requires { (start : ℕ) × (v : Remembered) × Holds T.number start (left T.remembered tree.old) marks.old v }
    ensures holds { OnOk result ((start : ℕ) (v : Remembered) → Holds T.number start (left T.remembered tree.old) marks.old v
        → Holds T.number start (left T.remembered tree.new) marks.new (states_kept (T.tree tree.old.tree) v states.now)) }
    ensures same { OnErr result ((start : ℕ) (v : Remembered) → Holds T.number start (left T.remembered tree.old) marks.old v
        → Holds T.number start (left T.remembered tree.new) marks.new v) }
    ensures tree { T.tree tree.new.tree ≡ T.tree tree.old.tree }
{
    if marks.is_saving() {
        return keep_in_save(alloc, tree, marks, states);
    }
    marks.begin_save();
    let kept = keep_in_save(alloc, tree, marks, states);
    close(alloc, tree, marks);
    kept
}
