//! Creations done at once: one search finds that nothing is at the path, makes room and puts the element there.
ghost use Rattle.std.specs.Prelude.{◌≡◌, ◌&&◌, true, is_none, None, IfOk, IfSome, OnErr};
ghost use Rattle.ws_ops.specs.Inside.AtOnce.{IsDone, IsPut};
ghost use Rattle.op_plan.specs.Edits.{KeepsRoom};
ghost use Rattle.op_kind.specs.Places.{is_member_path};
ghost use Rattle.op_plan.specs.Inside.Plans.{CanDraw};
ghost use Rattle.proj_desc.specs.FirstCause.{first_cause};
ghost use Rattle.op_kind.specs.Refusals.{around_causes};
ghost use Rattle.op_kind.specs.Resources.{resources};

use crate::creation::new_file;
use crate::{NoMemory, Op, OpAnswer, OpError, Side};
use bytes::Bytes;
use op_plan::checks::check_around;
use op_plan::edits::Earlier;
use op_plan::{Applied, Back};
use res_path::Path;
use std::alloc::{AllocError, Global};
use ws_elem::{Element, Kind, TreeRep};

/// Does the creation of a file or a folder, where it isn't refused. Otherwise, and for any other operation, nothing is
/// done: a plan then finds why it is refused.
pub fn create_at_once<T: TreeRep>(
    alloc: Global,
    tree: &mut T,
    side: &mut Side,
    op: &Op,
) -> Result<Option<Applied>, NoMemory>
    ensures done { IfOk result (λ found. IfSome found (λ done. IsDone (resources (T.tree tree.old) side.old) op.now
        (T.room tree.new) side.new.shelf.room (resources (T.tree tree.new) side.new) done)) }
    ensures room { KeepsRoom (T.room tree.old) (T.room tree.new) }
    ensures remembered { T.remembered tree.new ≡ T.remembered tree.old }
    ensures shelf_room { side.new.shelf.room ≡ side.old.shelf.room }
    ensures none { IfOk result (λ found. found ≡ None → resources (T.tree tree.new) side.new ≡ resources (T.tree tree.old) side.old) }
    ensures err { OnErr result (resources (T.tree tree.new) side.new ≡ resources (T.tree tree.old) side.old) }
{
    match op {
        Op::CreateFile(path, bytes) => create_file(alloc, tree, side, path, bytes),
        Op::CreateFolder(path) => create_folder(alloc, tree, side, path),
        _ => Ok(None),
    }
}

fn create_file<T: TreeRep>(
    alloc: Global,
    tree: &mut T,
    side: &mut Side,
    path: &Path,
    bytes: &Bytes,
) -> Result<Option<Applied>, NoMemory>
    ensures done { IfOk result (λ found. IfSome found (λ done. IsDone (resources (T.tree tree.old) side.old) (Op.CreateFile path.now bytes.now)
        (T.room tree.new) side.new.shelf.room (resources (T.tree tree.new) side.new) done)) }
    ensures room { KeepsRoom (T.room tree.old) (T.room tree.new) }
    ensures remembered { T.remembered tree.new ≡ T.remembered tree.old }
    ensures shelf_room { side.new.shelf.room ≡ side.old.shelf.room }
    ensures none { IfOk result (λ found. found ≡ None → resources (T.tree tree.new) side.new ≡ resources (T.tree tree.old) side.old) }
    ensures err { OnErr result (resources (T.tree tree.new) side.new ≡ resources (T.tree tree.old) side.old) }
{
    if !is_allowed(tree, side, path, 1)? {
        return Ok(None);
    }
    let element = new_file(side, bytes)?;
    put(alloc, tree, side, path, element, 1)
}

fn create_folder<T: TreeRep>(
    alloc: Global,
    tree: &mut T,
    side: &mut Side,
    path: &Path,
) -> Result<Option<Applied>, NoMemory>
    ensures done { IfOk result (λ found. IfSome found (λ done. IsDone (resources (T.tree tree.old) side.old) (Op.CreateFolder path.now)
        (T.room tree.new) side.new.shelf.room (resources (T.tree tree.new) side.new) done)) }
    ensures room { KeepsRoom (T.room tree.old) (T.room tree.new) }
    ensures remembered { T.remembered tree.new ≡ T.remembered tree.old }
    ensures shelf_room { side.new.shelf.room ≡ side.old.shelf.room }
    ensures none { IfOk result (λ found. found ≡ None → resources (T.tree tree.new) side.new ≡ resources (T.tree tree.old) side.old) }
    ensures err { OnErr result (resources (T.tree tree.new) side.new ≡ resources (T.tree tree.old) side.old) }
{
    if !is_allowed(tree, side, path, 0)? {
        return Ok(None);
    }
    let element = Element::bare(Kind::Folder, side.next_node);
    put(alloc, tree, side, path, element, 0)
}

/// Whether a file or a folder can be created at the path if it is free, drawing so many stamps.
fn is_allowed<T: TreeRep>(
    tree: &T,
    side: &Side,
    path: &Path,
    stamps: usize,
) -> Result<bool, NoMemory>
    ensures judged { IfOk result (λ allowed. allowed
        ≡ (is_member_path path.now && is_none (first_cause (around_causes (resources (T.tree tree.now) side.now) path.now stamps)))) }
    ensures drawn { IfOk result (λ allowed. allowed ≡ true → CanDraw side.now 1 stamps) }
{
    if path.depth() < 2 {
        return Ok(false);
    }
    match check_around(tree, side, path, stamps) {
        Ok(()) => Ok(true),
        Err(OpError::Refused(_)) => Ok(false),
        Err(OpError::Memory) => Err(AllocError),
    }
}

/// Puts a new element at the path, and draws a node and so many stamps, unless something is there.
fn put<T: TreeRep>(
    alloc: Global,
    tree: &mut T,
    side: &mut Side,
    path: &Path,
    element: Element,
    stamps: u64,
) -> Result<Option<Applied>, NoMemory>
    requires { CanDraw side.old 1 stamps }
    ensures done { IfOk result (λ found. IfSome found (λ done. IsPut (resources (T.tree tree.old) side.old) path.now element stamps
        (T.room tree.new) side.new.shelf.room (resources (T.tree tree.new) side.new) done)) }
    ensures room { KeepsRoom (T.room tree.old) (T.room tree.new) }
    ensures remembered { T.remembered tree.new ≡ T.remembered tree.old }
    ensures shelf_room { side.new.shelf.room ≡ side.old.shelf.room }
    ensures none { IfOk result (λ found. found ≡ None → resources (T.tree tree.new) side.new ≡ resources (T.tree tree.old) side.old) }
    ensures err { OnErr result (resources (T.tree tree.new) side.new ≡ resources (T.tree tree.old) side.old) }
{
    let earlier = Earlier::free(alloc, path)?;
    if !tree.put_new(path, element)? {
        return Ok(None);
    }
    let partners = side.partners.len();
    let back = Back::to(side, partners, earlier, Earlier::nothing(alloc));
    side.next_node += 1;
    side.next_stamp += stamps;
    Ok(Some(Applied {
        answer: OpAnswer::Done,
        back,
    }))
}
