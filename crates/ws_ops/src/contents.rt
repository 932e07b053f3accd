//! The plans of what changes a resource where it is.
ghost use Rattle.std.specs.Prelude.{◌≡◌, ◌+◌, ◌<◌, ◌^◌, Some, IfOk};
ghost use Rattle.std.specs.FinMap.{get};
ghost use Rattle.op_kind.specs.Judging.{Judges};
ghost use Rattle.proj_desc.specs.FirstCause.{first_cause};
ghost use Rattle.op_kind.specs.Refusals.{derived_causes};
ghost use Rattle.op_kind.specs.Resources.{resources};
ghost use Rattle.op_plan.specs.Inside.Plans.{Plans, put_at, stamp_at};

use crate::{NoMemory, Op, OpError, Side};
use bytes::Bytes;
use op_plan::Plan;
use op_plan::checks::{check_member_open, check_member_path, file_at, there};
use res_path::Path;
use std::alloc::Global;
use ws_elem::{Element, TreeRep};

/// New contents, which are shared, with a fresh stamp.
pub fn write<T: TreeRep>(
    alloc: Global,
    tree: &T,
    side: &Side,
    path: &Path,
    bytes: &Bytes,
) -> Result<Plan, OpError>
    ensures { Plans (resources (T.tree tree.now) side.now) (Op.Write path.now bytes.now) result }
{
    let element = file_at(tree, side, path)?;
    Ok(plan_write(alloc, side, path, element, bytes)?)
}

fn plan_write(
    alloc: Global,
    side: &Side,
    path: &Path,
    element: &Element,
    bytes: &Bytes,
) -> Result<Plan, NoMemory>
    requires { side.now.next_stamp + 1 < 2 ^ 64 }
    ensures { IfOk result (λ plan. plan ≡ stamp_at side.now path.now (record element.now { stamp = side.now.next_stamp; bytes = bytes.now })) }
{
    let mut element = element.copy()?;
    element.stamp = side.next_stamp;
    element.bytes = bytes.clone()?;
    Plan::stamp(alloc, side, path, element)
}

/// The same contents, with a fresh stamp.
pub fn touch<T: TreeRep>(alloc: Global, tree: &T, side: &Side, path: &Path) -> Result<Plan, OpError>
    ensures { Plans (resources (T.tree tree.now) side.now) (Op.Touch path.now) result }
{
    let element = file_at(tree, side, path)?;
    Ok(plan_touch(alloc, side, path, element)?)
}

fn plan_touch(alloc: Global, side: &Side, path: &Path, element: &Element) -> Result<Plan, NoMemory>
    requires { side.now.next_stamp + 1 < 2 ^ 64 }
    ensures { IfOk result (λ plan. plan ≡ stamp_at side.now path.now (record element.now { stamp = side.now.next_stamp })) }
{
    let mut element = element.copy()?;
    element.stamp = side.next_stamp;
    Plan::stamp(alloc, side, path, element)
}

/// Derived, or not.
pub fn derive<T: TreeRep>(
    alloc: Global,
    tree: &T,
    side: &Side,
    path: &Path,
    on: bool,
) -> Result<Plan, OpError>
    ensures { Plans (resources (T.tree tree.now) side.now) (Op.Derived path.now on) result }
{
    let element = member_at(tree, path)?;
    Ok(plan_derived(alloc, side, path, element, on)?)
}

/// The file or folder at the path. Refused in a closed project, where nothing is at the path, and for the root and a
/// project.
fn member_at<'a, T: TreeRep>(tree: &'a T, path: &Path) -> Result<&'a Element, OpError>
    ensures judged { Judges (first_cause (derived_causes (T.tree tree.now) path.now)) result }
    ensures element { IfOk result (λ element. get (T.tree tree.now) path.now ≡ Some element.now) }
{
    check_member_open(tree, path)?;
    let element = there(tree, path)?;
    check_member_path(path)?;
    Ok(element)
}

fn plan_derived(
    alloc: Global,
    side: &Side,
    path: &Path,
    element: &Element,
    on: bool,
) -> Result<Plan, NoMemory>
    ensures { IfOk result (λ plan. plan ≡ put_at side.now path.now (record element.now { derived = on })) }
{
    let mut element = element.copy()?;
    element.derived = on;
    Plan::put(alloc, side, path, element)
}
