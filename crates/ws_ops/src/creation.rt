//! The plans of creations.
ghost use Rattle.std.specs.Prelude.{◌≡◌, ◌∷◌, not, IfOk, OnOk};
ghost use Rattle.op_kind.specs.Effects.{new_file, new_folder, new_project};
ghost use Rattle.op_kind.specs.Judging.{Judges};
ghost use Rattle.op_kind.specs.Places.{is_member_path, is_project_path};
ghost use Rattle.proj_desc.specs.FirstCause.{first_cause, when};
ghost use Rattle.op_kind.specs.Refusals.{creation_causes};
ghost use Rattle.op_kind.specs.Resources.{resources};
ghost use Rattle.op_plan.specs.Inside.Plans.{CanDraw, Plans, create_at};

use crate::{NoMemory, Op, OpError, OpRefusal, Side};
use bytes::Bytes;
use op_plan::Plan;
use op_plan::checks::{check_creation, check_member_path, check_project_path};
use res_path::Path;
use std::alloc::Global;
use ws_elem::{Attached, Attachments, Element, Kind, TreeRep};

/// The description of a project that nobody described.
const EMPTY_DESCRIPTION: &[u8] = b"{\"commands\":[],\"references\":[]}";

/// A file with these contents, which are shared.
pub fn create_file<T: TreeRep>(
    alloc: Global,
    tree: &T,
    side: &Side,
    path: &Path,
    bytes: &Bytes,
) -> Result<Plan, OpError>
    ensures { Plans (resources (T.tree tree.now) side.now) (Op.CreateFile path.now bytes.now) result }
{
    check_new_member(tree, side, path, 1)?;
    Ok(plan_file(alloc, side, path, bytes)?)
}

/// A folder.
pub fn create_folder<T: TreeRep>(
    alloc: Global,
    tree: &T,
    side: &Side,
    path: &Path,
) -> Result<Plan, OpError>
    ensures { Plans (resources (T.tree tree.now) side.now) (Op.CreateFolder path.now) result }
{
    check_new_member(tree, side, path, 0)?;
    Ok(plan_folder(alloc, side, path)?)
}

/// An open project with the empty description.
pub fn create_project<T: TreeRep>(
    alloc: Global,
    tree: &T,
    side: &Side,
    path: &Path,
) -> Result<Plan, OpError>
    ensures { Plans (resources (T.tree tree.now) side.now) (Op.CreateProject path.now) result }
{
    check_new_project(tree, side, path)?;
    Ok(plan_project(alloc, side, path)?)
}

/// Refused where no file or folder can be created at the path, drawing so many stamps.
fn check_new_member<T: TreeRep>(
    tree: &T,
    side: &Side,
    path: &Path,
    stamps: usize,
) -> Result<(), OpError>
    ensures judged { Judges (first_cause (when (not (is_member_path path.now)) (OpRefusal.WrongKind path.now)
        ∷ creation_causes (resources (T.tree tree.now) side.now) path.now stamps)) result }
    ensures drawn { OnOk result (CanDraw side.now 1 stamps) }
{
    check_member_path(path)?;
    check_creation(tree, side, path, stamps)
}

/// Refused where no project can be created at the path.
fn check_new_project<T: TreeRep>(tree: &T, side: &Side, path: &Path) -> Result<(), OpError>
    ensures judged { Judges (first_cause (when (not (is_project_path path.now)) (OpRefusal.WrongKind path.now)
        ∷ creation_causes (resources (T.tree tree.now) side.now) path.now 1)) result }
    ensures drawn { OnOk result (CanDraw side.now 1 1) }
{
    check_project_path(path)?;
    check_creation(tree, side, path, 1)
}

fn plan_file(alloc: Global, side: &Side, path: &Path, bytes: &Bytes) -> Result<Plan, NoMemory>
    requires { CanDraw side.now 1 1 }
    ensures { IfOk result (λ plan. plan ≡ create_at side.now path.now (new_file side.now.next_node side.now.next_stamp bytes.now) 1) }
{
    let element = new_file(side, bytes)?;
    Plan::create(alloc, side, path, element, 1)
}

fn plan_folder(alloc: Global, side: &Side, path: &Path) -> Result<Plan, NoMemory>
    requires { CanDraw side.now 1 0 }
    ensures { IfOk result (λ plan. plan ≡ create_at side.now path.now (new_folder side.now.next_node) 0) }
{
    let element = Element::bare(Kind::Folder, side.next_node);
    Plan::create(alloc, side, path, element, 0)
}

fn plan_project(alloc: Global, side: &Side, path: &Path) -> Result<Plan, NoMemory>
    requires { CanDraw side.now 1 1 }
    ensures { IfOk result (λ plan. plan ≡ create_at side.now path.now (new_project side.now.next_node side.now.next_stamp) 1) }
{
    let element = new_project(alloc, side)?;
    Plan::create(alloc, side, path, element, 1)
}

/// The element of a new file.
pub fn new_file(side: &Side, bytes: &Bytes) -> Result<Element, NoMemory>
    ensures { IfOk result (λ element. element ≡ new_file side.now.next_node side.now.next_stamp bytes.now) }
{
    let mut element = Element::bare(Kind::File, side.next_node);
    element.stamp = side.next_stamp;
    element.bytes = bytes.clone()?;
    Ok(element)
}

/// The element of a new project.
fn new_project(alloc: Global, side: &Side) -> Result<Element, NoMemory>
    ensures { IfOk result (λ element. element ≡ new_project side.now.next_node side.now.next_stamp) }
{
    let mut attachments = Attachments::none();
    attachments.desc_stamp = side.next_stamp;
    attachments.desc = Bytes::from_static(EMPTY_DESCRIPTION);
    let mut element = Element::bare(Kind::Project, side.next_node);
    element.opened = true;
    element.attached = Attached::of(alloc, attachments)?;
    Ok(element)
}
