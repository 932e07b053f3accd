//! The problem markers of a command, on its project.
ghost use Rattle.std.specs.Prelude.{◌≡◌, ◌+◌, ◌<◌, ◌^◌, filter, length, codes, Some, OnOk, IfOk};
ghost use Rattle.std.specs.FinMap as map;
ghost use Rattle.std.specs.Option.{option_copied};
ghost use Rattle.op_kind.specs.Marking.{with_marks, with_marker, removed};
ghost use Rattle.mark_set.specs.Markers.{has_type};
ghost use Rattle.output_commit.specs.Told.{problem_type, attributes_of, is_number, is_problem_of, problem_ids, tells, tell_all, are_told, with_problems, retold, told_at, ids_drawn};

use crate::NoMemory;
use builder_api::Problem;
use mark_set::{MarkSet, MarkText, Marker, RawAttrs, RawText, RawValue, Value};
use op_plan::losing;
use std::alloc::{AllocError, Global};
use ws_elem::{Attachments, Element};

/// The type of the markers of problems.
const PROBLEM: &str = "org.eclipse.core.resources.problemmarker";

/// How many ids are drawn so that the command's problems are these, with what is there in the project's place.
pub(crate) fn ids_drawn(
    alloc: Global,
    there: Option<&Element>,
    index: u16,
    problems: &[Problem],
) -> Result<u64, NoMemory>
    ensures { IfOk result (λ n. n ≡ ids_drawn index problems.now (option_copied there.entry)) }
{
    match there {
        None => Ok(0),
        Some(element) => ids_of(alloc, element, index, problems),
    }
}

fn ids_of(
    alloc: Global,
    element: &Element,
    index: u16,
    problems: &[Problem],
) -> Result<u64, NoMemory>
    ensures { IfOk result (λ n. n ≡ ids_drawn index problems.now (Some element.now)) }
{
    if are_told(alloc, element, index, problems)? {
        Ok(0)
    } else {
        Ok(problems.len() as u64)
    }
}

/// What is to be put in the project's place so that the command's problems are these, with ids from this one on: nothing
/// where there is no project, and where they are its problems already.
pub(crate) fn tell(
    alloc: Global,
    there: Option<&Element>,
    index: u16,
    id: u64,
    problems: &[Problem],
) -> Result<Option<Element>, NoMemory>
    requires { id + ids_drawn index problems.now (option_copied there) < 2 ^ 64 }
    ensures { IfOk result (λ e. e ≡ told_at index id problems.now (option_copied there.entry)) }
{
    match there {
        None => Ok(None),
        Some(element) => tell_at(alloc, element, index, id, problems),
    }
}

fn tell_at(
    alloc: Global,
    element: &Element,
    index: u16,
    id: u64,
    problems: &[Problem],
) -> Result<Option<Element>, NoMemory>
    requires { id + ids_drawn index problems.now (Some element.now) < 2 ^ 64 }
    ensures { IfOk result (λ e. e ≡ told_at index id problems.now (Some element.now)) }
{
    if are_told(alloc, element, index, problems)? {
        Ok(None)
    } else {
        Ok(Some(retold(alloc, element, index, id, problems)?))
    }
}

/// The element with these problems of the command in the place of those that were there.
fn retold(
    alloc: Global,
    element: &Element,
    index: u16,
    id: u64,
    problems: &[Problem],
) -> Result<Element, NoMemory>
    requires { id + length problems.now < 2 ^ 64 }
    ensures { IfOk result (λ e. e ≡ with_marks (retold index id problems.now) element.now) }
{
    let mut attachments = element.attached.to_attachments()?;
    retell(alloc, &mut attachments.marks, index, id, problems)?;
    element.with_attachments(alloc, attachments)
}

/// The markers with these problems of the command in the place of those that were there.
fn retell(
    alloc: Global,
    marks: &mut MarkSet,
    index: u16,
    id: u64,
    problems: &[Problem],
) -> Result<(), NoMemory>
    requires { id + length problems.now < 2 ^ 64 }
    ensures { OnOk result (marks.new ≡ retold index id problems.now marks.old) }
{
    let ids = problem_ids(alloc, marks, index)?;
    remove_all(marks, ids.as_slice());
    add_all(alloc, marks, index, id, problems)
}

/// The markers without those of these ids.
fn remove_all(marks: &mut MarkSet, ids: &[u64])
    ensures { marks.new ≡ removed marks.old ids.now }
{
    let mut rest = ids;
    while let Some((id, others)) = rest.split_first() {
        losing::remove(marks, *id);
        rest = others;
    }
}

/// A marker for each problem, with the ids from this one on.
fn add_all(
    alloc: Global,
    marks: &mut MarkSet,
    index: u16,
    id: u64,
    problems: &[Problem],
) -> Result<(), NoMemory>
    requires { id + length problems.now < 2 ^ 64 }
    ensures { OnOk result (marks.new ≡ with_problems index id problems.now marks.old) }
{
    let mut id = id;
    let mut rest = problems;
    while let Some((problem, others)) = rest.split_first() {
        add(alloc, marks, index, id, problem)?;
        id += 1;
        rest = others;
    }
    Ok(())
}

/// A marker for the problem, with this id.
fn add(
    alloc: Global,
    marks: &mut MarkSet,
    index: u16,
    id: u64,
    problem: &Problem,
) -> Result<(), NoMemory>
    ensures { OnOk result (marks.new ≡ with_marker marks.old id problem_type (attributes_of index problem.now)) }
{
    let attributes = attributes_of(alloc, index, problem)?;
    // A problem's texts are within the limits of a marker's, so memory alone can want.
    match marks.create(alloc, id, PROBLEM, attributes.as_slice()) {
        Ok(()) => Ok(()),
        Err(_) => Err(AllocError),
    }
}

/// The attributes of a problem's marker.
fn attributes_of(alloc: Global, index: u16, problem: &Problem) -> Result<RawAttrs, NoMemory>
    ensures { IfOk result (λ a. a ≡ attributes_of index problem.now) }
{
    let mut attributes = RawAttrs::empty(alloc);
    attributes.push(text(alloc, "command")?, RawValue::Int(index as i32))?;
    attributes.push(text(alloc, "lineNumber")?, RawValue::Int(problem.line))?;
    let location = text(alloc, problem.location.as_str())?;
    attributes.push(text(alloc, "location")?, RawValue::Text(location))?;
    let message = text(alloc, problem.message.text())?;
    attributes.push(text(alloc, "message")?, RawValue::Text(message))?;
    attributes.push(text(alloc, "severity")?, RawValue::Int(problem.severity))?;
    Ok(attributes)
}

/// A text of a marker.
fn text(alloc: Global, text: &str) -> Result<RawText, NoMemory>
    ensures { IfOk result (λ t. t ≡ text.now) }
{
    Ok(RawText::of(String::from_str(alloc, text)?))
}

/// Whether the command's problems are these already.
fn are_told(
    alloc: Global,
    element: &Element,
    index: u16,
    problems: &[Problem],
) -> Result<bool, NoMemory>
    ensures { IfOk result (λ are. are ≡ are_told index problems.now element.now.attached.marks) }
{
    let nothing = Attachments::none();
    let kept = element.attached.or(&nothing);
    let ids = problem_ids(alloc, &kept.marks, index)?;
    tell_all(alloc, &kept.marks, index, ids.as_slice(), problems)
}

/// Whether the markers of these ids are those of the problems, one by one.
fn tell_all(
    alloc: Global,
    marks: &MarkSet,
    index: u16,
    ids: &[u64],
    problems: &[Problem],
) -> Result<bool, NoMemory>
    ensures { IfOk result (λ are. are ≡ tell_all index marks.now ids.now problems.now) }
{
    let Some((id, other_ids)) = ids.split_first() else {
        return Ok(problems.is_empty());
    };
    let Some((problem, others)) = problems.split_first() else {
        return Ok(false);
    };
    if !tells(alloc, index, *id, problem, marks.get(*id))? {
        return Ok(false);
    }
    tell_all(alloc, marks, index, other_ids, others)
}

/// Whether the marker is that of the problem.
fn tells(
    alloc: Global,
    index: u16,
    id: u64,
    problem: &Problem,
    marker: Option<&Marker>,
) -> Result<bool, NoMemory>
    ensures { IfOk result (λ is. is ≡ tells index id problem.now (option_copied marker.entry)) }
{
    match marker {
        None => Ok(false),
        Some(marker) => is_marker_of(alloc, index, id, problem, marker),
    }
}

fn is_marker_of(
    alloc: Global,
    index: u16,
    id: u64,
    problem: &Problem,
    marker: &Marker,
) -> Result<bool, NoMemory>
    ensures { IfOk result (λ is. is ≡ tells index id problem.now (Some marker.now)) }
{
    let mut alone = MarkSet::empty();
    add(alloc, &mut alone, index, id, problem)?;
    match alone.get(id) {
        None => Err(AllocError),
        Some(expected) => Ok(*marker == *expected),
    }
}

/// The ids of the command's problems, in order.
fn problem_ids(alloc: Global, marks: &MarkSet, index: u16) -> Result<Vec<u64>, NoMemory>
    ensures { IfOk result (λ ids. ids.items ≡ problem_ids index marks.now) }
{
    let command = command_name(alloc)?;
    let ids = marks.ids(alloc)?;
    let mut found = Vec::new(alloc);
    for id in &ids {
        if is_problem_of(index, &command, marks.get(*id)) {
            found.push(*id)?;
        }
    }
    Ok(found)
}

/// The name of the attribute that tells a problem's command.
fn command_name(alloc: Global) -> Result<MarkText, NoMemory>
    ensures { IfOk result (λ name. name ≡ codes "command") }
{
    match MarkText::parse(alloc, "command") {
        Ok(name) => Ok(name),
        Err(_) => Err(AllocError),
    }
}

/// Whether this is a problem of the command.
fn is_problem_of(index: u16, command: &MarkText, marker: Option<&Marker>) -> bool
    requires { command.now ≡ codes "command" }
    ensures { result ≡ is_problem_of index (option_copied marker.entry) }
{
    match marker {
        None => false,
        Some(marker) => is_problem(marker) && is_number(index, marker.attrs.get(command)),
    }
}

/// Whether the marker is a problem.
fn is_problem(marker: &Marker) -> bool
    ensures { result ≡ has_type problem_type (Some marker.now) }
{
    marker.mark_type.text() == PROBLEM
}

/// Whether the value is this integer.
fn is_number(n: u16, value: Option<&Value>) -> bool
    ensures { result ≡ is_number n (option_copied value.entry) }
{
    match value {
        Some(Value::Int(number)) => *number == n as i32,
        _ => false,
    }
}
