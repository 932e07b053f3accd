//! The plans of what changes markers.
ghost use Rattle.std.specs.Prelude.{◌≡◌, ◌+◌, ◌<◌, ◌^◌, not, true, Some, IsSome, IfOk, OnOk};
ghost use Rattle.std.specs.Option.{option_map};
ghost use Rattle.std.specs.FinMap.{get, remove};
ghost use Rattle.mark_set.specs.Causes.{marker_cause, change_cause};
ghost use Rattle.op_kind.specs.Judging.{Decides, Judges};
ghost use Rattle.op_kind.specs.Marking.{has_marker, with_marks, with_marker, with_attribute_of, reached};
ghost use Rattle.proj_desc.specs.FirstCause.{first_cause, when};
ghost use Rattle.op_kind.specs.Refusals.{marking_causes, mark_causes, attr_causes, unmark_causes};
ghost use Rattle.op_kind.specs.Resources.{resources};
ghost use Rattle.op_plan.specs.Inside.Plans.{Plans, put_at, unmark_at};

use crate::{NoMemory, Op, OpAnswer, OpError, OpRefusal, Side};
use mark_set::{MarkError, RawAttrs, RawText, RawValue};
use op_plan::checks::{check_marker_number, check_open, there};
use op_plan::{Plan, losing, walk};
use res_path::Path;
use std::alloc::Global;
use ws_elem::{Attachments, Depth, Element, TreeRep};

/// A marker with the next id, of this type and with these attributes.
pub fn mark<T: TreeRep>(
    alloc: Global,
    tree: &T,
    side: &Side,
    path: &Path,
    mark_type: &RawText,
    attrs: &RawAttrs,
) -> Result<Plan, OpError>
    ensures { Plans (resources (T.tree tree.now) side.now) (Op.Mark path.now mark_type.now attrs.now) result }
{
    let marked = markable(alloc, tree, side, path, mark_type, attrs)?;
    Ok(plan_mark(alloc, side, path, marked)?)
}

/// What is at the path, with one more marker.
fn markable<T: TreeRep>(
    alloc: Global,
    tree: &T,
    side: &Side,
    path: &Path,
    mark_type: &RawText,
    attrs: &RawAttrs,
) -> Result<Element, OpError>
    ensures judged { Judges (first_cause (mark_causes (resources (T.tree tree.now) side.now) path.now mark_type.now attrs.now)) result }
    ensures element { IfOk result (λ e. option_map (with_marks (λ marks. with_marker marks side.now.next_marker mark_type.now attrs.now)) (get (T.tree tree.now) path.now) ≡ Some e) }
    ensures drawn { OnOk result (side.now.next_marker + 1 < 2 ^ 64) }
{
    let element = there_open(tree, path)?;
    let marked = with_marker(alloc, element, side.next_marker, mark_type, attrs)?;
    check_marker_number(side)?;
    Ok(marked)
}

fn plan_mark(alloc: Global, side: &Side, path: &Path, marked: Element) -> Result<Plan, NoMemory>
    requires { side.now.next_marker + 1 < 2 ^ 64 }
    ensures { IfOk result (λ plan. plan ≡ record (put_at side.now path.now marked) {
      next_marker = side.now.next_marker + 1;
      answer = OpAnswer.Id side.now.next_marker;
    }) }
{
    let mut plan = Plan::put(alloc, side, path, marked)?;
    plan.next_marker += 1;
    plan.answer = OpAnswer::Id(side.next_marker);
    Ok(plan)
}

/// One attribute of the marker with this id gets this value, or goes.
pub fn set_attribute<T: TreeRep>(
    alloc: Global,
    tree: &T,
    side: &Side,
    path: &Path,
    id: u64,
    name: &RawText,
    value: &Option<RawValue>,
) -> Result<Plan, OpError>
    ensures { Plans (resources (T.tree tree.now) side.now) (Op.Attr path.now id name.now value.now) result }
{
    let changed = attributable(alloc, tree, path, id, name, value)?;
    Ok(Plan::put(alloc, side, path, changed)?)
}

/// What is at the path, with this value of one attribute of the marker, or without it.
fn attributable<T: TreeRep>(
    alloc: Global,
    tree: &T,
    path: &Path,
    id: u64,
    name: &RawText,
    value: &Option<RawValue>,
) -> Result<Element, OpError>
    ensures judged { Judges (first_cause (attr_causes (T.tree tree.now) path.now id name.now value.now)) result }
    ensures element { IfOk result (λ e. option_map (with_marks (λ marks. with_attribute_of marks id name.now value.now)) (get (T.tree tree.now) path.now) ≡ Some e) }
{
    let element = marker_at(tree, path, id)?;
    with_attribute(alloc, element, id, name, value)
}

/// The marker with this id goes.
pub fn unmark<T: TreeRep>(
    alloc: Global,
    tree: &T,
    side: &Side,
    path: &Path,
    id: u64,
) -> Result<Plan, OpError>
    ensures { Plans (resources (T.tree tree.now) side.now) (Op.Unmark path.now id) result }
{
    let element = marker_at(tree, path, id)?;
    Ok(plan_unmark(alloc, side, path, element, id)?)
}

/// What is at the path, where it has a marker with this id.
fn marker_at<'a, T: TreeRep>(tree: &'a T, path: &Path, id: u64) -> Result<&'a Element, OpError>
    ensures judged { Judges (first_cause (unmark_causes (T.tree tree.now) path.now id)) result }
    ensures element { IfOk result (λ e. get (T.tree tree.now) path.now ≡ Some e.now) }
    ensures marker { IfOk result (λ e. has_marker id (Some e.now) ≡ true) }
{
    let element = there_open(tree, path)?;
    check_marker(element, id)?;
    Ok(element)
}

fn plan_unmark(
    alloc: Global,
    side: &Side,
    path: &Path,
    element: &Element,
    id: u64,
) -> Result<Plan, NoMemory>
    ensures { IfOk result (λ plan. plan ≡ put_at side.now path.now (with_marks (λ marks. remove marks id) element.now)) }
{
    let mut attachments = element.attached.to_attachments()?;
    losing::remove(&mut attachments.marks, id);
    let unmarked = element.with_attachments(alloc, attachments)?;
    Plan::put(alloc, side, path, unmarked)
}

/// The markers of this type go, at the path and below it to the depth.
pub fn clear_marks<T: TreeRep>(
    alloc: Global,
    tree: &T,
    side: &Side,
    path: &Path,
    mark_type: &RawText,
    depth: Depth,
) -> Result<Plan, OpError>
    ensures { Plans (resources (T.tree tree.now) side.now) (Op.ClearMarks path.now mark_type.now depth) result }
{
    there_open(tree, path)?;
    Ok(plan_clearing(alloc, tree, side, path, mark_type, depth)?)
}

fn plan_clearing<T: TreeRep>(
    alloc: Global,
    tree: &T,
    side: &Side,
    path: &Path,
    mark_type: &RawText,
    depth: Depth,
) -> Result<Plan, NoMemory>
    ensures { IfOk result (λ plan. plan ≡ unmark_at side.now mark_type.now (reached (T.tree tree.now) path.now depth)) }
{
    let reached = walk::reached(alloc, tree, path, depth)?;
    let mut plan = Plan::nothing(alloc, side);
    let count = losing::unmark_all(alloc, &reached, mark_type, &mut plan.tree)?;
    plan.answer = OpAnswer::Count(count);
    Ok(plan)
}

/// What is at the path, for its markers or its synchronisation bytes. Refused in a closed project and where the project
/// is closed itself, and where nothing is at the path.
pub fn there_open<'a, T: TreeRep>(tree: &'a T, path: &Path) -> Result<&'a Element, OpError>
    ensures judged { Judges (first_cause (marking_causes (T.tree tree.now) path.now)) result }
    ensures element { IfOk result (λ element. get (T.tree tree.now) path.now ≡ Some element.now) }
{
    check_open(tree, path)?;
    there(tree, path)
}

/// Refused where the element has no marker with the id.
fn check_marker(element: &Element, id: u64) -> Result<(), OpRefusal>
    ensures { Decides (when (not (has_marker id (Some element.now))) (OpRefusal.MarkerUnknown id)) result }
{
    let nothing = Attachments::none();
    if element.attached.or(&nothing).marks.get(id).is_none() {
        return Err(OpRefusal::MarkerUnknown(id));
    }
    Ok(())
}

/// The element with one more marker. Refused where its type or an attribute is past its limits.
fn with_marker(
    alloc: Global,
    element: &Element,
    id: u64,
    mark_type: &RawText,
    attrs: &RawAttrs,
) -> Result<Element, OpError>
    ensures judged { Judges (option_map OpRefusal.BadValue (marker_cause mark_type.now attrs.now)) result }
    ensures element { IfOk result (λ e. e ≡ with_marks (λ marks. with_marker marks id mark_type.now attrs.now) element.now) }
{
    let attachments = element.attached.to_attachments()?;
    let marked = marked(alloc, attachments, id, mark_type, attrs)?;
    Ok(element.with_attachments(alloc, marked)?)
}

/// The attachments with one more marker. Refused where its type or an attribute is past its limits.
fn marked(
    alloc: Global,
    attachments: Attachments,
    id: u64,
    mark_type: &RawText,
    attrs: &RawAttrs,
) -> Result<Attachments, OpError>
    ensures judged { Judges (option_map OpRefusal.BadValue (marker_cause mark_type.now attrs.now)) result }
    ensures marks { IfOk result (λ a. a ≡ record attachments { marks = with_marker attachments.marks id mark_type.now attrs.now }) }
{
    let mut attachments = attachments;
    match attachments
        .marks
        .create(alloc, id, mark_type.text(), attrs.as_slice())
    {
        Ok(()) => Ok(attachments),
        Err(MarkError::BadValue(cause)) => Err(OpError::Refused(OpRefusal::BadValue(cause))),
        Err(MarkError::Memory) => Err(OpError::Memory),
        Err(MarkError::MarkerUnknown) => unreachable!(),
    }
}

/// The element with this value of one attribute of a marker, or without it. Refused where name or value is past its
/// limits.
fn with_attribute(
    alloc: Global,
    element: &Element,
    id: u64,
    name: &RawText,
    value: &Option<RawValue>,
) -> Result<Element, OpError>
    requires { has_marker id (Some element.now) ≡ true }
    ensures judged { Judges (option_map OpRefusal.BadValue (change_cause name.now value.now)) result }
    ensures element { IfOk result (λ e. e ≡ with_marks (λ marks. with_attribute_of marks id name.now value.now) element.now) }
{
    let attachments = element.attached.to_attachments()?;
    let attributed = attributed(alloc, attachments, id, name, value)?;
    Ok(element.with_attachments(alloc, attributed)?)
}

/// The attachments with this value of one attribute of a marker, or without it. Refused where name or value is past its
/// limits.
fn attributed(
    alloc: Global,
    attachments: Attachments,
    id: u64,
    name: &RawText,
    value: &Option<RawValue>,
) -> Result<Attachments, OpError>
    requires { IsSome (get attachments.marks id) }
    ensures judged { Judges (option_map OpRefusal.BadValue (change_cause name.now value.now)) result }
    ensures marks { IfOk result (λ a. a ≡ record attachments { marks = with_attribute_of attachments.marks id name.now value.now }) }
{
    let mut attachments = attachments;
    let value = copied(value)?;
    match attachments.marks.set(alloc, id, name.text(), value) {
        Ok(()) => Ok(attachments),
        Err(MarkError::BadValue(cause)) => Err(OpError::Refused(OpRefusal::BadValue(cause))),
        Err(MarkError::Memory) => Err(OpError::Memory),
        Err(MarkError::MarkerUnknown) => unreachable!(),
    }
}

/// An equal value, if there is one.
fn copied(value: &Option<RawValue>) -> Result<Option<RawValue>, NoMemory>
    ensures { IfOk result (λ copy. copy ≡ value.now) }
{
    match value {
        None => Ok(None),
        Some(value) => Ok(Some(value.copy()?)),
    }
}
