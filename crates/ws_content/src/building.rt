//! Commits of a builder's edits and cleanings, and what is told of them.
ghost use Rattle.std.specs.Prelude.{◌≡◌, ℕ, Some, None as nothing, IfOk, IfErr, OnOk, OnErr, length};
ghost use Rattle.std.specs.FinMap.{insert, remove};
ghost use Rattle.op_plan.specs.Backs.{taken_back};
ghost use Rattle.op_plan.specs.Edits.{HasRooms};
ghost use Rattle.op_kind.specs.Resources.{resources};
ghost use Rattle.output_edits.specs.Judging.{IfRefused};
ghost use Rattle.output_edits.specs.Wanted.{wanted};
ghost use Rattle.output_commit.specs.Committed.{committed, cleaned, files_after, refusal};
ghost use Rattle.output_commit.specs.Touched.{touched};
ghost use Rattle.tree_memory.specs.Spared.{left};
ghost use Rattle.core_event.specs.Twice.{twice};
ghost use Rattle.ws_content.specs.States.{Remembered, with_built};
ghost use Rattle.ws_content.specs.Deeds.{kept_if, record_of, reply_of};
ghost use Rattle.ws_content.specs.Inside.Held.{Holds};

use crate::NoMemory;
use crate::operating::{drop_room, tell};
use crate::remembering::{Prepared, give_up_if, prepare, remove_built, set_built, settle};
use build_due::Site;
use builder_api::Edits;
use core_event::{Answer, Reply, Twice};
use op_kind::Side;
use output_commit::{Back, Committed, EditError, clean_output, commit_edits};
use std::alloc::Global;
use tree_memory::{Remembers, Sparing};
use ws_marks::Marks;
use ws_ops::take_back;

/// Makes the edits below the command's output, and the tree after that is what was built last. Tells what changed since the
/// tree was told, where something is to be told. Where the edits are refused, and where memory wants, nothing has changed.
pub fn commit<T: Remembers + Drop>(
    alloc: Global,
    tree: &mut Sparing<T>,
    side: &mut Side,
    marks: &mut Marks<T::Memory>,
    site: &Site,
    edits: &Edits,
    tells: bool,
    wants_copy: bool,
) -> Result<Twice<Reply>, EditError>
    requires { (start : ℕ) × (v : Remembered) × Holds T.number start (left T.remembered tree.old) marks.old v }
    ensures allowed { OnOk result (refusal (resources (T.tree tree.old.tree) side.old) site.now.output site.now.index edits.now ≡ nothing) }
    ensures resources { OnOk result (resources (T.tree tree.new.tree) side.new ≡ committed (resources (T.tree tree.old.tree) side.old) site.now.output site.now.index edits.now) }
    ensures holds { OnOk result ((start : ℕ) (v : Remembered) → Holds T.number start (left T.remembered tree.old) marks.old v
        → Holds T.number start (left T.remembered tree.new) marks.new
        (kept_if tells (T.tree tree.new.tree) (with_built v (insert v.built (site.now.project, site.now.index) (record_of site.now (T.tree tree.new.tree)))))) }
    ensures reply { IfOk result (λ r. (start : ℕ) (v : Remembered) → Holds T.number start (left T.remembered tree.old) marks.old v
        → r ≡ twice wants_copy (reply_of tells v.told (T.tree tree.new.tree) (Answer.Committed
        (touched (T.tree tree.old.tree) site.now.output (wanted site.now.output (files_after (resources (T.tree tree.old.tree) side.old) site.now.output edits.now)))
        (length edits.now.problems)))) }
    ensures refused { IfErr result (IfRefused (λ r. refusal (resources (T.tree tree.old.tree) side.old) site.now.output site.now.index edits.now ≡ Some r)) }
    ensures same { OnErr result (resources (T.tree tree.new.tree) side.new ≡ resources (T.tree tree.old.tree) side.old) }
    ensures kept { OnErr result ((start : ℕ) (v : Remembered) → Holds T.number start (left T.remembered tree.old) marks.old v
        → Holds T.number start (left T.remembered tree.new) marks.new v) }
{
    match commit_edits(alloc, tree, side, &site.output, site.index, edits) {
        Ok(done) => Ok(finish_commit(alloc, tree, side, marks, site, done, tells, wants_copy)?),
        Err(error) => {
            drop_room(tree, side);
            Err(error)
        }
    }
}

/// Answers what was committed, and tells it where something is to be told. Where memory wants, that is taken back.
fn finish_commit<T: Remembers + Drop>(
    alloc: Global,
    tree: &mut Sparing<T>,
    side: &mut Side,
    marks: &mut Marks<T::Memory>,
    site: &Site,
    done: Committed,
    tells: bool,
    wants_copy: bool,
) -> Result<Twice<Reply>, NoMemory>
    requires known { (start : ℕ) × (v : Remembered) × Holds T.number start (left T.remembered tree.old) marks.old v }
    requires tree { HasRooms (T.room tree.old.tree) done.back.tree }
    requires shelf { HasRooms side.old.shelf.room done.back.shelf }
    ensures resources { OnOk result (resources (T.tree tree.new.tree) side.new ≡ resources (T.tree tree.old.tree) side.old) }
    ensures holds { OnOk result ((start : ℕ) (v : Remembered) → Holds T.number start (left T.remembered tree.old) marks.old v
        → Holds T.number start (left T.remembered tree.new) marks.new
        (kept_if tells (T.tree tree.old.tree) (with_built v (insert v.built (site.now.project, site.now.index) (record_of site.now (T.tree tree.old.tree)))))) }
    ensures reply { IfOk result (λ r. (start : ℕ) (v : Remembered) → Holds T.number start (left T.remembered tree.old) marks.old v
        → r ≡ twice wants_copy (reply_of tells v.told (T.tree tree.old.tree) (Answer.Committed done.touched done.problems))) }
    ensures err { OnErr result (resources (T.tree tree.new.tree) side.new ≡ taken_back (resources (T.tree tree.old.tree) side.old) done.back) }
    ensures kept { OnErr result ((start : ℕ) (v : Remembered) → Holds T.number start (left T.remembered tree.old) marks.old v
        → Holds T.number start (left T.remembered tree.new) marks.new v) }
{
    let Committed {
        touched,
        problems,
        back,
    } = done;
    let answer = Answer::Committed { touched, problems };
    match remember_commit(alloc, tree, marks, site, answer, tells, wants_copy) {
        Ok(replied) => {
            drop(back);
            drop_room(tree, side);
            Ok(replied)
        }
        Err(wanted) => {
            take_back(tree, side, back);
            drop_room(tree, side);
            Err(wanted)
        }
    }
}

/// The tree as it is is what was built last for the command, and is told where something is to be told.
fn remember_commit<T: Remembers + Drop>(
    alloc: Global,
    tree: &mut Sparing<T>,
    marks: &mut Marks<T::Memory>,
    site: &Site,
    answer: Answer,
    tells: bool,
    wants_copy: bool,
) -> Result<Twice<Reply>, NoMemory>
    requires { (start : ℕ) × (v : Remembered) × Holds T.number start (left T.remembered tree.old) marks.old v }
    ensures holds { OnOk result ((start : ℕ) (v : Remembered) → Holds T.number start (left T.remembered tree.old) marks.old v
        → Holds T.number start (left T.remembered tree.new) marks.new
        (kept_if tells (T.tree tree.old.tree) (with_built v (insert v.built (site.now.project, site.now.index) (record_of site.now (T.tree tree.old.tree)))))) }
    ensures reply { IfOk result (λ r. (start : ℕ) (v : Remembered) → Holds T.number start (left T.remembered tree.old) marks.old v
        → r ≡ twice wants_copy (reply_of tells v.told (T.tree tree.old.tree) answer)) }
    ensures kept { OnErr result ((start : ℕ) (v : Remembered) → Holds T.number start (left T.remembered tree.old) marks.old v
        → Holds T.number start (left T.remembered tree.new) marks.new v) }
    ensures tree { T.tree tree.new.tree ≡ T.tree tree.old.tree }
    ensures room { T.room tree.new.tree ≡ T.room tree.old.tree }
{
    let Prepared { replied, told } = prepare(alloc, tree, marks, answer, tells, wants_copy)?;
    match set_built(alloc, tree, marks, site) {
        Ok(()) => {
            settle(alloc, tree, marks, told);
            Ok(replied)
        }
        Err(wanted) => {
            give_up_if(alloc, tree, told);
            Err(wanted)
        }
    }
}

/// Takes away what lies below the command's output, its problems, and what was built last. Tells what changed since the tree
/// was told, where something is to be told. Where memory wants, nothing has changed.
pub fn clean<T: Remembers + Drop>(
    alloc: Global,
    tree: &mut Sparing<T>,
    side: &mut Side,
    marks: &mut Marks<T::Memory>,
    site: &Site,
    tells: bool,
    wants_copy: bool,
) -> Result<Twice<Reply>, NoMemory>
    requires { (start : ℕ) × (v : Remembered) × Holds T.number start (left T.remembered tree.old) marks.old v }
    ensures resources { OnOk result (resources (T.tree tree.new.tree) side.new ≡ cleaned (resources (T.tree tree.old.tree) side.old) site.now.output site.now.index) }
    ensures holds { OnOk result ((start : ℕ) (v : Remembered) → Holds T.number start (left T.remembered tree.old) marks.old v
        → Holds T.number start (left T.remembered tree.new) marks.new (kept_if tells (T.tree tree.new.tree) (with_built v (remove v.built (site.now.project, site.now.index))))) }
    ensures reply { IfOk result (λ r. (start : ℕ) (v : Remembered) → Holds T.number start (left T.remembered tree.old) marks.old v
        → r ≡ twice wants_copy (reply_of tells v.told (T.tree tree.new.tree) Answer.Done)) }
    ensures same { OnErr result (resources (T.tree tree.new.tree) side.new ≡ resources (T.tree tree.old.tree) side.old) }
    ensures kept { OnErr result ((start : ℕ) (v : Remembered) → Holds T.number start (left T.remembered tree.old) marks.old v
        → Holds T.number start (left T.remembered tree.new) marks.new v) }
{
    match clean_output(alloc, tree, side, &site.output, site.index) {
        Ok(back) => finish_clean(alloc, tree, side, marks, site, back, tells, wants_copy),
        Err(wanted) => {
            drop_room(tree, side);
            Err(wanted)
        }
    }
}

/// Answers that an output was cleaned, and tells it where something is to be told. Where memory wants, that is taken back.
fn finish_clean<T: Remembers + Drop>(
    alloc: Global,
    tree: &mut Sparing<T>,
    side: &mut Side,
    marks: &mut Marks<T::Memory>,
    site: &Site,
    back: Back,
    tells: bool,
    wants_copy: bool,
) -> Result<Twice<Reply>, NoMemory>
    requires known { (start : ℕ) × (v : Remembered) × Holds T.number start (left T.remembered tree.old) marks.old v }
    requires tree { HasRooms (T.room tree.old.tree) back.tree }
    requires shelf { HasRooms side.old.shelf.room back.shelf }
    ensures resources { OnOk result (resources (T.tree tree.new.tree) side.new ≡ resources (T.tree tree.old.tree) side.old) }
    ensures holds { OnOk result ((start : ℕ) (v : Remembered) → Holds T.number start (left T.remembered tree.old) marks.old v
        → Holds T.number start (left T.remembered tree.new) marks.new (kept_if tells (T.tree tree.old.tree) (with_built v (remove v.built (site.now.project, site.now.index))))) }
    ensures reply { IfOk result (λ r. (start : ℕ) (v : Remembered) → Holds T.number start (left T.remembered tree.old) marks.old v
        → r ≡ twice wants_copy (reply_of tells v.told (T.tree tree.old.tree) Answer.Done)) }
    ensures err { OnErr result (resources (T.tree tree.new.tree) side.new ≡ taken_back (resources (T.tree tree.old.tree) side.old) back) }
    ensures kept { OnErr result ((start : ℕ) (v : Remembered) → Holds T.number start (left T.remembered tree.old) marks.old v
        → Holds T.number start (left T.remembered tree.new) marks.new v) }
{
    match tell(alloc, tree, marks, Answer::Done, tells, wants_copy) {
        Ok(replied) => {
            drop(back);
            drop_room(tree, side);
            remove_built(alloc, tree, marks, &site.project, site.index);
            Ok(replied)
        }
        Err(wanted) => {
            take_back(tree, side, back);
            drop_room(tree, side);
            Err(wanted)
        }
    }
}
