//! Operations, and what is told of them.
ghost use Rattle.std.specs.Prelude.{◌≡◌, ℕ, Some, None as nothing, IfOk, IfErr, OnOk, OnErr};
ghost use Rattle.std.specs.Option.{option_map};
ghost use Rattle.op_plan.specs.Backs.{taken_back};
ghost use Rattle.op_plan.specs.Edits.{HasRooms};
ghost use Rattle.op_kind.specs.Effects.{effect};
ghost use Rattle.op_kind.specs.Judging.{IfRefused};
ghost use Rattle.op_kind.specs.Refusals.{refusal};
ghost use Rattle.op_kind.specs.Resources.{resources};
ghost use Rattle.tree_memory.specs.Spared.{left};
ghost use Rattle.core_event.specs.Replies.{answered};
ghost use Rattle.core_event.specs.Twice.{twice};
ghost use Rattle.ws_content.specs.States.{Remembered, with_built};
ghost use Rattle.ws_content.specs.Deeds.{forgets, forgotten, kept_if, reply_of};
ghost use Rattle.ws_content.specs.Inside.Held.{Holds};

use crate::NoMemory;
use crate::forgetting::{From, forgets};
use crate::remembering::{Prepared, forget_built, prepare, settle};
use core_event::{Answer, Reply, Twice};
use op_kind::{Op, OpAnswer, OpError, Side};
use std::alloc::Global;
use tree_memory::{Remembers, Sparing};
use ws_elem::TreeRep;
use ws_marks::Marks;
use ws_ops::{Applied, apply, take_back};

/// Does the operation, and tells what changed since the tree was told, where something is to be told. What was built last
/// of commands that the operation ends is forgotten. Where it is refused, and where memory wants, nothing has changed.
pub fn operate<T: Remembers + Drop>(
    alloc: Global,
    tree: &mut Sparing<T>,
    side: &mut Side,
    marks: &mut Marks<T::Memory>,
    op: &Op,
    tells: bool,
    wants_copy: bool,
) -> Result<Twice<Reply>, OpError>
    requires { (start : ℕ) × (v : Remembered) × Holds T.number start (left T.remembered tree.old) marks.old v }
    ensures allowed { OnOk result (refusal (resources (T.tree tree.old.tree) side.old) op.now ≡ nothing) }
    ensures resources { OnOk result (resources (T.tree tree.new.tree) side.new ≡ (effect (resources (T.tree tree.old.tree) side.old) op.now).0) }
    ensures holds { OnOk result ((start : ℕ) (v : Remembered) → Holds T.number start (left T.remembered tree.old) marks.old v
        → Holds T.number start (left T.remembered tree.new) marks.new (kept_if tells (T.tree tree.new.tree) (with_built v (forgotten (forgets op.now) v.built)))) }
    ensures reply { IfOk result (λ r. (start : ℕ) (v : Remembered) → Holds T.number start (left T.remembered tree.old) marks.old v
        → r ≡ twice wants_copy (reply_of tells v.told (T.tree tree.new.tree) (answered (effect (resources (T.tree tree.old.tree) side.old) op.now).1))) }
    ensures refused { IfErr result (IfRefused (λ r. refusal (resources (T.tree tree.old.tree) side.old) op.now ≡ Some r)) }
    ensures same { OnErr result (resources (T.tree tree.new.tree) side.new ≡ resources (T.tree tree.old.tree) side.old) }
    ensures kept { OnErr result ((start : ℕ) (v : Remembered) → Holds T.number start (left T.remembered tree.old) marks.old v
        → Holds T.number start (left T.remembered tree.new) marks.new v) }
{
    let gone = forgets(alloc, op)?;
    match apply(alloc, tree, side, op) {
        Ok(done) => {
            let replied = finish(alloc, tree, side, marks, done, tells, wants_copy)?;
            forget(alloc, tree, marks, &gone);
            Ok(replied)
        }
        Err(error) => {
            drop_room(tree, side);
            Err(error)
        }
    }
}

/// Answers what was done, and tells it where something is to be told. Where memory wants, that is taken back.
fn finish<T: Remembers + Drop>(
    alloc: Global,
    tree: &mut Sparing<T>,
    side: &mut Side,
    marks: &mut Marks<T::Memory>,
    done: Applied,
    tells: bool,
    wants_copy: bool,
) -> Result<Twice<Reply>, NoMemory>
    requires known { (start : ℕ) × (v : Remembered) × Holds T.number start (left T.remembered tree.old) marks.old v }
    requires tree { HasRooms (T.room tree.old.tree) done.back.tree }
    requires shelf { HasRooms side.old.shelf.room done.back.shelf }
    ensures resources { OnOk result (resources (T.tree tree.new.tree) side.new ≡ resources (T.tree tree.old.tree) side.old) }
    ensures holds { OnOk result ((start : ℕ) (v : Remembered) → Holds T.number start (left T.remembered tree.old) marks.old v
        → Holds T.number start (left T.remembered tree.new) marks.new (kept_if tells (T.tree tree.old.tree) v)) }
    ensures reply { IfOk result (λ r. (start : ℕ) (v : Remembered) → Holds T.number start (left T.remembered tree.old) marks.old v
        → r ≡ twice wants_copy (reply_of tells v.told (T.tree tree.old.tree) (answered done.answer))) }
    ensures err { OnErr result (resources (T.tree tree.new.tree) side.new ≡ taken_back (resources (T.tree tree.old.tree) side.old) done.back) }
    ensures kept { OnErr result ((start : ℕ) (v : Remembered) → Holds T.number start (left T.remembered tree.old) marks.old v
        → Holds T.number start (left T.remembered tree.new) marks.new v) }
{
    let Applied { answer, back } = done;
    match answer_told(alloc, tree, marks, answer, tells, wants_copy) {
        Ok(replied) => {
            drop(back);
            drop_room(tree, side);
            Ok(replied)
        }
        Err(wanted) => {
            take_back(tree, side, back);
            drop_room(tree, side);
            Err(wanted)
        }
    }
}

/// The reply to an operation that was done, which is told where something is to be told.
fn answer_told<T: Remembers + Drop>(
    alloc: Global,
    tree: &mut Sparing<T>,
    marks: &mut Marks<T::Memory>,
    answer: OpAnswer,
    tells: bool,
    wants_copy: bool,
) -> Result<Twice<Reply>, NoMemory>
    requires { (start : ℕ) × (v : Remembered) × Holds T.number start (left T.remembered tree.old) marks.old v }
    ensures holds { OnOk result ((start : ℕ) (v : Remembered) → Holds T.number start (left T.remembered tree.old) marks.old v
        → Holds T.number start (left T.remembered tree.new) marks.new (kept_if tells (T.tree tree.old.tree) v)) }
    ensures reply { IfOk result (λ r. (start : ℕ) (v : Remembered) → Holds T.number start (left T.remembered tree.old) marks.old v
        → r ≡ twice wants_copy (reply_of tells v.told (T.tree tree.old.tree) (answered answer))) }
    ensures kept { OnErr result ((start : ℕ) (v : Remembered) → Holds T.number start (left T.remembered tree.old) marks.old v
        → Holds T.number start (left T.remembered tree.new) marks.new v) }
    ensures tree { T.tree tree.new.tree ≡ T.tree tree.old.tree }
    ensures room { T.room tree.new.tree ≡ T.room tree.old.tree }
{
    let answer = Answer::of(alloc, answer)?;
    tell(alloc, tree, marks, answer, tells, wants_copy)
}

/// The reply with the answer, which is told where something is to be told: it is the tree as it is that is told then. Where
/// memory wants, nothing has changed. Costs what was recorded since the tree was told, where something is told.
pub fn tell<T: Remembers + Drop>(
    alloc: Global,
    tree: &mut Sparing<T>,
    marks: &mut Marks<T::Memory>,
    answer: Answer,
    tells: bool,
    wants_copy: bool,
) -> Result<Twice<Reply>, NoMemory>
    requires { (start : ℕ) × (v : Remembered) × Holds T.number start (left T.remembered tree.old) marks.old v }
    ensures holds { OnOk result ((start : ℕ) (v : Remembered) → Holds T.number start (left T.remembered tree.old) marks.old v
        → Holds T.number start (left T.remembered tree.new) marks.new (kept_if tells (T.tree tree.old.tree) v)) }
    ensures reply { IfOk result (λ r. (start : ℕ) (v : Remembered) → Holds T.number start (left T.remembered tree.old) marks.old v
        → r ≡ twice wants_copy (reply_of tells v.told (T.tree tree.old.tree) answer)) }
    ensures kept { OnErr result ((start : ℕ) (v : Remembered) → Holds T.number start (left T.remembered tree.old) marks.old v
        → Holds T.number start (left T.remembered tree.new) marks.new v) }
    ensures tree { T.tree tree.new.tree ≡ T.tree tree.old.tree }
    ensures room { T.room tree.new.tree ≡ T.room tree.old.tree }
{
    let Prepared { replied, told } = prepare(alloc, tree, marks, answer, tells, wants_copy)?;
    settle(alloc, tree, marks, told);
    Ok(replied)
}

/// What was built last of these commands is forgotten, if there are some.
fn forget<T: Remembers + Drop>(
    alloc: Global,
    tree: &mut Sparing<T>,
    marks: &mut Marks<T::Memory>,
    gone: &Option<From>,
)
    requires { (start : ℕ) × (v : Remembered) × Holds T.number start (left T.remembered tree.old) marks.old v }
    ensures holds { (start : ℕ) (v : Remembered) → Holds T.number start (left T.remembered tree.old) marks.old v
        → Holds T.number start (left T.remembered tree.new) marks.new (with_built v (forgotten (option_map (λ f. (f.project, f.index)) gone.now) v.built)) }
    ensures tree { T.tree tree.new.tree ≡ T.tree tree.old.tree }
{
    if let Some(gone) = gone {
        forget_built(alloc, tree, marks, &gone.project, gone.index);
    }
}

/// Takes all room away, of which only the last change has made any. Costs what that changed.
pub fn drop_room<T: Remembers + Drop>(tree: &mut Sparing<T>, side: &mut Side)
    ensures resources { resources (T.tree tree.new.tree) side.new ≡ resources (T.tree tree.old.tree) side.old }
    ensures remembered { left T.remembered tree.new ≡ left T.remembered tree.old }
{
    tree.drop_room();
    side.shelf.drop_room();
}
