//! Doing an operation, and taking it back.
ghost use Rattle.std.specs.Prelude.{◌≡◌, None, Some, IfOk, IfErr, OnOk, OnErr};
ghost use Rattle.ws_elem.specs.Trees.{Tree};
ghost use Rattle.ws_ops.specs.Inside.AtOnce.{IsDone};
ghost use Rattle.op_plan.specs.Backs.{HasWay, taken_back};
ghost use Rattle.op_plan.specs.Edits.{HasRooms, KeepsRoom};
ghost use Rattle.op_kind.specs.Effects.{effect};
ghost use Rattle.op_kind.specs.Judging.{IfRefused};
ghost use Rattle.op_kind.specs.Partners.{with_partner};
ghost use Rattle.op_plan.specs.Inside.Plans.{Plans, planned};
ghost use Rattle.op_kind.specs.Refusals.{refusal};
ghost use Rattle.op_kind.specs.Resources.{resources};
ghost use Rattle.op_kind.specs.Sound.{IsConsistent};
ghost use Rattle.op_kind.specs.Stamps.{IsKnown};

use crate::at_once::create_at_once;
use crate::{
    NoMemory, Op, OpError, Side, contents, creation, deletion, marking, projects, reading, syncing,
    transfer,
};
use op_plan::edits::room_for;
use op_plan::{Applied, Back, Plan};
use res_path::Name;
use std::alloc::Global;
use ws_elem::TreeRep;

/// Does the operation, or refuses it with the first cause in the order of its list. After a refusal, and where memory
/// wants, tree, shelf, counters and partners are as before. No tree that the tree remembers changes.
///
/// Room is made for all paths that change, and all new elements are made, before the first change; the room is left for
/// `take_back`, and the caller drops it. Costs a few look-ups, and some more for each element that changes: never a walk
/// of the whole tree. `ClearMarks` and `Flush` look at each element at and below the path, or at that of the path alone.
/// Contents are shared, and never copied.
#[tactic(auto, using(op_plan::proofs::Made::keeps_itself))]
pub fn apply<T: TreeRep>(
    alloc: Global,
    tree: &mut T,
    side: &mut Side,
    op: &Op,
) -> Result<Applied, OpError>
    // An operation that is done wasn't refused.
    ensures allowed { OnOk result (refusal (resources (T.tree tree.old) side.old) op.now ≡ None) }
    ensures resources { OnOk result (resources (T.tree tree.new) side.new ≡ (effect (resources (T.tree tree.old) side.old) op.now).0) }
    ensures answer { IfOk result (λ done. done.answer ≡ (effect (resources (T.tree tree.old) side.old) op.now).1) }
    ensures back { IfOk result (λ done. HasWay done.back (T.room tree.new) side.new.shelf.room
        (resources (T.tree tree.new) side.new) (resources (T.tree tree.old) side.old)) }
    // What had room has it still.
    ensures room { KeepsRoom (T.room tree.old) (T.room tree.new) }
    ensures remembered { T.remembered tree.new ≡ T.remembered tree.old }
    ensures shelf_room { KeepsRoom side.old.shelf.room side.new.shelf.room }
    // Sound resources stay so.
    ensures sound { IsConsistent (resources (T.tree tree.old) side.old) → IsConsistent (resources (T.tree tree.new) side.new) }
    // A remembered tree still agrees with the contents that are there.
    ensures known { IsConsistent (resources (T.tree tree.old) side.old) → (t : Tree) → IsKnown (resources (T.tree tree.old) side.old) t → IsKnown (resources (T.tree tree.new) side.new) t }
    ensures refused { IfErr result (IfRefused (λ r. refusal (resources (T.tree tree.old) side.old) op.now ≡ Some r)) }
    ensures same { OnErr result (resources (T.tree tree.new) side.new ≡ resources (T.tree tree.old) side.old) }
{
    match create_at_once(alloc, tree, side, op)? {
        Some(done) => Ok(done),
        None => apply_planned(alloc, tree, side, op),
    }
}

/// Does the operation by a plan, or refuses it.
fn apply_planned<T: TreeRep>(
    alloc: Global,
    tree: &mut T,
    side: &mut Side,
    op: &Op,
) -> Result<Applied, OpError>
    ensures done { IfOk result (λ done. IsDone (resources (T.tree tree.old) side.old) op.now (T.room tree.new) side.new.shelf.room
        (resources (T.tree tree.new) side.new) done) }
    ensures room { KeepsRoom (T.room tree.old) (T.room tree.new) }
    ensures remembered { T.remembered tree.new ≡ T.remembered tree.old }
    ensures shelf_room { KeepsRoom side.old.shelf.room side.new.shelf.room }
    ensures refused { IfErr result (IfRefused (λ r. refusal (resources (T.tree tree.old) side.old) op.now ≡ Some r)) }
    ensures same { OnErr result (resources (T.tree tree.new) side.new ≡ resources (T.tree tree.old) side.old) }
{
    let plan = plan(alloc, tree, side, op)?;
    Ok(perform(alloc, tree, side, plan)?)
}

/// Takes an operation back, after which nothing has changed and no room was dropped: tree, shelf, counters and
/// partners are as before it. No tree that the tree remembers changes. It takes no memory.
pub fn take_back<T: TreeRep>(tree: &mut T, side: &mut Side, back: Back)
    requires tree { HasRooms (T.room tree.old) back.tree }
    requires shelf { HasRooms side.old.shelf.room back.shelf }
    ensures resources { resources (T.tree tree.new) side.new ≡ taken_back (resources (T.tree tree.old) side.old) back }
    ensures room { T.room tree.new ≡ T.room tree.old }
    ensures remembered { T.remembered tree.new ≡ T.remembered tree.old }
    ensures shelf_room { side.new.shelf.room ≡ side.old.shelf.room }
{
    back.lead(tree, side);
}

/// What the operation is going to change, or why it is refused.
fn plan<T: TreeRep>(alloc: Global, tree: &T, side: &Side, op: &Op) -> Result<Plan, OpError>
    ensures { Plans (resources (T.tree tree.now) side.now) op.now result }
{
    match op {
        Op::CreateFile(path, bytes) => creation::create_file(alloc, tree, side, path, bytes),
        Op::CreateFolder(path) => creation::create_folder(alloc, tree, side, path),
        Op::CreateProject(path) => creation::create_project(alloc, tree, side, path),
        Op::Delete(path) => deletion::delete(alloc, tree, side, path),
        Op::Write(path, bytes) => contents::write(alloc, tree, side, path, bytes),
        Op::Touch(path) => contents::touch(alloc, tree, side, path),
        Op::Derived(path, on) => contents::derive(alloc, tree, side, path, *on),
        Op::Move(from, to) => transfer::move_to(alloc, tree, side, from, to),
        Op::Copy(from, to) => transfer::copy_to(alloc, tree, side, from, to),
        Op::Open(path) => projects::open(alloc, tree, side, path),
        Op::Close(path) => projects::close(alloc, tree, side, path),
        Op::Describe(path, text) => projects::describe(alloc, tree, side, path, text),
        Op::Forget(path) => projects::forget(alloc, tree, side, path),
        Op::Mark(path, mark_type, attrs) => {
            marking::mark(alloc, tree, side, path, mark_type, attrs)
        }
        Op::Attr(path, id, name, value) => {
            marking::set_attribute(alloc, tree, side, path, *id, name, value)
        }
        Op::Unmark(path, id) => marking::unmark(alloc, tree, side, path, *id),
        Op::ClearMarks(path, mark_type, depth) => {
            marking::clear_marks(alloc, tree, side, path, mark_type, *depth)
        }
        Op::Partner(name) => syncing::register(alloc, tree, side, name),
        Op::Sync(path, name, bytes) => syncing::sync(alloc, tree, side, path, name, bytes),
        Op::Flush(path, name, depth) => { syncing::flush(alloc, tree, side, path, name, *depth) }
        Op::Read(path, want) => reading::read(alloc, tree, side, path, *want),
    }
}

/// Does what is planned. Where memory wants, nothing was done.
#[tactic(auto, using(op_plan::proofs::Made::keeps_itself, op_plan::proofs::Made::keeps_same))]
fn perform<T: TreeRep>(
    alloc: Global,
    tree: &mut T,
    side: &mut Side,
    plan: Plan,
) -> Result<Applied, NoMemory>
    ensures resources { OnOk result (resources (T.tree tree.new) side.new ≡ (planned (resources (T.tree tree.old) side.old) plan).0) }
    ensures answer { IfOk result (λ done. done.answer ≡ plan.answer) }
    ensures back { IfOk result (λ done. HasWay done.back (T.room tree.new) side.new.shelf.room
        (resources (T.tree tree.new) side.new) (resources (T.tree tree.old) side.old)) }
    ensures room { KeepsRoom (T.room tree.old) (T.room tree.new) }
    ensures remembered { T.remembered tree.new ≡ T.remembered tree.old }
    ensures shelf_room { KeepsRoom side.old.shelf.room side.new.shelf.room }
    ensures same { OnErr result (resources (T.tree tree.new) side.new ≡ resources (T.tree tree.old) side.old) }
{
    let tree_space = room_for(alloc, plan.tree.len())?;
    let shelf_space = room_for(alloc, plan.shelf.len())?;
    plan.tree.make_room(tree)?;
    plan.shelf.make_room(&mut side.shelf)?;
    let partners = side.partners.len();
    register(side, plan.partner)?;
    let tree_entries = plan.tree.make(tree, tree_space);
    let shelf_entries = plan.shelf.make(&mut side.shelf, shelf_space);
    let back = Back::to(side, partners, tree_entries, shelf_entries);
    side.next_node = plan.next_node;
    side.next_stamp = plan.next_stamp;
    side.next_marker = plan.next_marker;
    Ok(Applied {
        answer: plan.answer,
        back,
    })
}

/// Registers the partner, if there is one.
fn register(side: &mut Side, partner: Option<Name>) -> Result<(), NoMemory>
    ensures ok { OnOk result (side.new ≡ record side.old { partners = with_partner side.old.partners partner }) }
    ensures err { OnErr result (side.new ≡ side.old) }
{
    match partner {
        None => Ok(()),
        Some(name) => side.partners.push(name),
    }
}
