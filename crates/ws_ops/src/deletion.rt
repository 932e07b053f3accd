//! The plan of a deletion.
ghost use Rattle.std.specs.Prelude.{◌≡◌, IfOk};
ghost use Rattle.op_kind.specs.Judging.{Judges};
ghost use Rattle.ws_elem.specs.Trees.{branch};
ghost use Rattle.proj_desc.specs.FirstCause.{first_cause};
ghost use Rattle.op_kind.specs.Refusals.{deletion_causes};
ghost use Rattle.op_kind.specs.Resources.{resources};
ghost use Rattle.op_plan.specs.Inside.Lists.{taken};
ghost use Rattle.op_plan.specs.Inside.Plans.{Plans, no_change};

use crate::{NoMemory, Op, OpError, Side};
use op_plan::checks::{check_member_open, check_not_root, there};
use op_plan::{Plan, walk};
use res_path::Path;
use std::alloc::Global;
use ws_elem::TreeRep;

/// The resource and all below it go, and what the shelf has of it. Costs one look-up for each of them.
pub fn delete<T: TreeRep>(
    alloc: Global,
    tree: &T,
    side: &Side,
    path: &Path,
) -> Result<Plan, OpError>
    ensures { Plans (resources (T.tree tree.now) side.now) (Op.Delete path.now) result }
{
    check_deletion(tree, path)?;
    Ok(plan_deletion(alloc, tree, side, path)?)
}

/// Refused for the root, in a closed project, and where nothing is at the path.
fn check_deletion<T: TreeRep>(tree: &T, path: &Path) -> Result<(), OpError>
    ensures { Judges (first_cause (deletion_causes (T.tree tree.now) path.now)) result }
{
    check_not_root(path)?;
    check_member_open(tree, path)?;
    there(tree, path)?;
    Ok(())
}

fn plan_deletion<T: TreeRep>(
    alloc: Global,
    tree: &T,
    side: &Side,
    path: &Path,
) -> Result<Plan, NoMemory>
    ensures { IfOk result (λ plan. plan ≡ record (no_change side.now) {
      tree = taken (branch (T.tree tree.now) path.now);
      shelf = taken (branch side.now.shelf.map path.now);
    }) }
{
    let mut plan = Plan::nothing(alloc, side);
    plan.tree.take_all(&walk::branch(alloc, tree, path)?)?;
    plan.shelf
        .take_all(&walk::branch(alloc, &side.shelf, path)?)?;
    Ok(plan)
}
