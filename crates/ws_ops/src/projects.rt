//! The plans of what opens, closes and describes a project.
ghost use Rattle.std.specs.Prelude.{◌≡◌, ◌∷◌, ◌++◌, ◌+◌, ◌<◌, ◌^◌, [], true, false, length, Some, IfOk, OnOk};
ghost use Rattle.std.specs.FinMap.{get};
ghost use Rattle.std.specs.Option.{option_map};
ghost use Rattle.proj_desc.specs.Canonical as canon;
ghost use Rattle.proj_desc.specs.Causes.{desc_cause};
ghost use Rattle.op_kind.specs.Judging.{Judges};
ghost use Rattle.op_kind.specs.Members.{members};
ghost use Rattle.op_kind.specs.Places.{project_name};
ghost use Rattle.op_kind.specs.Problems.{without_problems_from};
ghost use Rattle.proj_desc.specs.FirstCause.{first_cause};
ghost use Rattle.op_kind.specs.Refusals.{describe_causes};
ghost use Rattle.op_kind.specs.Resources.{resources};
ghost use Rattle.op_plan.specs.Inside.Lists.{put, taken};
ghost use Rattle.op_plan.specs.Inside.Plans.{Plans, no_change, stamp_at};

use crate::{NoMemory, Op, OpError, OpRefusal, Side};
use bytes::Bytes;
use op_plan::checks::{check_open, check_stamp, is_shut, name_of, project_at};
use op_plan::{Plan, losing, walk};
use proj_desc::{Desc, DescError};
use res_path::Path;
use std::alloc::Global;
use ws_elem::{Element, TreeRep};

/// The project is open, and its members come from the shelf. Costs one look-up for each member.
pub fn open<T: TreeRep>(alloc: Global, tree: &T, side: &Side, path: &Path) -> Result<Plan, OpError>
    ensures { Plans (resources (T.tree tree.now) side.now) (Op.Open path.now) result }
{
    let project = project_at(tree, path)?;
    if !is_shut(tree, path)? {
        return Ok(Plan::nothing(alloc, side));
    }
    Ok(plan_opening(alloc, side, path, project)?)
}

fn plan_opening(
    alloc: Global,
    side: &Side,
    path: &Path,
    project: &Element,
) -> Result<Plan, NoMemory>
    ensures { IfOk result (λ plan. plan ≡ record (no_change side.now) {
      tree = (path.now, Some (record project.now { opened = true })) ∷ [] ++ put (members side.now.shelf.map path.now);
      shelf = taken (members side.now.shelf.map path.now);
    }) }
{
    let members = walk::members(alloc, &side.shelf, path)?;
    let mut plan = Plan::put(alloc, side, path, with_opened(project, true)?)?;
    plan.shelf.take_all(&members)?;
    plan.tree.put_all(members)?;
    Ok(plan)
}

/// The project is closed, and its members go to the shelf. Costs one look-up for each member.
pub fn close<T: TreeRep>(alloc: Global, tree: &T, side: &Side, path: &Path) -> Result<Plan, OpError>
    ensures { Plans (resources (T.tree tree.now) side.now) (Op.Close path.now) result }
{
    let project = project_at(tree, path)?;
    if is_shut(tree, path)? {
        return Ok(Plan::nothing(alloc, side));
    }
    Ok(plan_closing(alloc, tree, side, path, project)?)
}

/// What is remembered of the project's builds goes, which changes nothing of the tree and of what stands beside it.
pub fn forget<T: TreeRep>(
    alloc: Global,
    tree: &T,
    side: &Side,
    path: &Path,
) -> Result<Plan, OpError>
    ensures { Plans (resources (T.tree tree.now) side.now) (Op.Forget path.now) result }
{
    project_at(tree, path)?;
    Ok(Plan::nothing(alloc, side))
}

fn plan_closing<T: TreeRep>(
    alloc: Global,
    tree: &T,
    side: &Side,
    path: &Path,
    project: &Element,
) -> Result<Plan, NoMemory>
    ensures { IfOk result (λ plan. plan ≡ record (no_change side.now) {
      tree = taken (members (T.tree tree.now) path.now) ++ (path.now, Some (record project.now { opened = false })) ∷ [];
      shelf = put (members (T.tree tree.now) path.now);
    }) }
{
    let members = walk::members(alloc, tree, path)?;
    let closed = with_opened(project, false)?;
    let mut plan = Plan::nothing(alloc, side);
    plan.tree.take_all(&members)?;
    plan.tree.put(path.copy()?, closed)?;
    plan.shelf.put_all(members)?;
    Ok(plan)
}

/// The text is the project's description, in its canonical form and with a fresh stamp. Problem markers of commands
/// that it doesn't have go.
pub fn describe<T: TreeRep>(
    alloc: Global,
    tree: &T,
    side: &Side,
    path: &Path,
    text: &Bytes,
) -> Result<Plan, OpError>
    ensures { Plans (resources (T.tree tree.now) side.now) (Op.Describe path.now text.now) result }
{
    let (project, desc) = describable(alloc, tree, side, path, text)?;
    Ok(plan_description(alloc, side, path, project, &desc)?)
}

/// The project at the path, and the description that the text is. Refused where no project is there or it is closed,
/// where the text is no description of it, and where no stamp can be drawn.
fn describable<'a, T: TreeRep>(
    alloc: Global,
    tree: &'a T,
    side: &Side,
    path: &Path,
    text: &Bytes,
) -> Result<(&'a Element, Desc), OpError>
    ensures judged { Judges (first_cause (describe_causes (resources (T.tree tree.now) side.now) path.now text.now)) result }
    ensures element { IfOk result (λ found. get (T.tree tree.now) path.now ≡ Some found.0.now) }
    ensures desc { IfOk result (λ found. canon.described text.now ≡ Some found.1) }
    ensures drawn { OnOk result (side.now.next_stamp + 1 < 2 ^ 64) }
{
    let project = project_at(tree, path)?;
    check_open(tree, path)?;
    let desc = description(alloc, path, text)?;
    check_stamp(side)?;
    Ok((project, desc))
}

/// The description that the text is. Refused where it is no description of the project.
fn description(alloc: Global, path: &Path, text: &Bytes) -> Result<Desc, OpError>
    requires { length path.now ≡ 1 }
    ensures judged { Judges (option_map OpRefusal.BadDescription (desc_cause (project_name path.now) text.now)) result }
    ensures desc { IfOk result (λ desc. canon.described text.now ≡ Some desc) }
{
    let name = name_of(alloc, path)?;
    match Desc::parse(alloc, &name, text.as_slice()) {
        Ok(desc) => Ok(desc),
        Err(DescError::Bad(cause)) => Err(OpError::Refused(OpRefusal::BadDescription(cause))),
        Err(DescError::Memory) => Err(OpError::Memory),
    }
}

fn plan_description(
    alloc: Global,
    side: &Side,
    path: &Path,
    project: &Element,
    desc: &Desc,
) -> Result<Plan, NoMemory>
    requires { side.now.next_stamp + 1 < 2 ^ 64 }
    ensures { IfOk result (λ plan. plan ≡ stamp_at side.now path.now (record project.now {
      attached = record project.now.attached {
        desc = canon.canonical desc.now;
        desc_stamp = side.now.next_stamp;
        marks = without_problems_from (length desc.now.commands) project.now.attached.marks;
      };
    })) }
{
    let mut attachments = project.attached.to_attachments()?;
    attachments.desc = Bytes::from_vec(desc.text(alloc)?)?;
    attachments.desc_stamp = side.next_stamp;
    losing::unmark_problems(
        alloc,
        &mut attachments.marks,
        desc.commands.as_slice().len(),
    )?;
    let element = project.with_attachments(alloc, attachments)?;
    Plan::stamp(alloc, side, path, element)
}

/// The element, open or not.
fn with_opened(element: &Element, opened: bool) -> Result<Element, NoMemory>
    ensures { IfOk result (λ e. e ≡ record element.now { opened = opened }) }
{
    let mut element = element.copy()?;
    element.opened = opened;
    Ok(element)
}
