//! The plan of what only reads.
ghost use Rattle.std.specs.Prelude.{◌≡◌, not, Some, IfOk};
ghost use Rattle.std.specs.FinMap.{get};
ghost use Rattle.op_kind.specs.Effects.{read};
ghost use Rattle.op_kind.specs.Judging.{Judges};
ghost use Rattle.proj_desc.specs.FirstCause.{first_cause};
ghost use Rattle.op_kind.specs.Refusals.{read_causes, cannot_be_read};
ghost use Rattle.op_kind.specs.Resources.{resources};
ghost use Rattle.op_plan.specs.Inside.Plans.{Plans, no_change};

use crate::{Entries, NoMemory, Op, OpAnswer, OpError, Side, Want};
use op_plan::checks::{check_member_open, there, wrong_kind};
use op_plan::{Plan, walk};
use res_path::Path;
use std::alloc::Global;
use ws_elem::{Element, TreeRep};

/// What is at the path, and nothing changes.
pub fn read<T: TreeRep>(
    alloc: Global,
    tree: &T,
    side: &Side,
    path: &Path,
    want: Want,
) -> Result<Plan, OpError>
    ensures { Plans (resources (T.tree tree.now) side.now) (Op.Read path.now want) result }
{
    check_readable(tree, path, want)?;
    Ok(plan_reading(alloc, tree, side, path, want)?)
}

/// Refused in a closed project, where nothing is at the path, and where what is asked can't be read from what is there.
fn check_readable<T: TreeRep>(tree: &T, path: &Path, want: Want) -> Result<(), OpError>
    ensures { Judges (first_cause (read_causes (T.tree tree.now) path.now want)) result }
{
    check_member_open(tree, path)?;
    let element = there(tree, path)?;
    if !can_be_read(want, element) {
        return wrong_kind(path);
    }
    Ok(())
}

fn plan_reading<T: TreeRep>(
    alloc: Global,
    tree: &T,
    side: &Side,
    path: &Path,
    want: Want,
) -> Result<Plan, NoMemory>
    ensures { IfOk result (λ plan. plan ≡ record (no_change side.now) {
      answer = OpAnswer.Seen (read want (T.tree tree.now) path.now) side.now.partners;
    }) }
{
    let seen = seen(alloc, tree, path, want)?;
    let partners = side.partners.copy()?;
    let mut plan = Plan::nothing(alloc, side);
    plan.answer = OpAnswer::Seen(seen, partners);
    Ok(plan)
}

/// What is to be read: the element that is at the path, or all at and below it.
fn seen<T: TreeRep>(alloc: Global, tree: &T, path: &Path, want: Want) -> Result<Entries, NoMemory>
    ensures { IfOk result (λ es. es ≡ read want (T.tree tree.now) path.now) }
{
    match want {
        Want::Show | Want::Cat => walk::at(alloc, tree, path),
        Want::Tree | Want::Digest => walk::branch(alloc, tree, path),
    }
}

/// Whether what is asked can be read from the element.
fn can_be_read(want: Want, element: &Element) -> bool
    ensures { result ≡ not (cannot_be_read want (Some element.now)) }
{
    match want {
        Want::Show => true,
        Want::Cat => element.kind.is_file(),
        Want::Tree | Want::Digest => true,
    }
}
