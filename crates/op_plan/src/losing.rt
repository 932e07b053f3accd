//! Resources that lose markers or synchronisation bytes.
ghost use Rattle.std.specs.Prelude.{◌≡◌, ◌++◌, ◌+◌, ◌==◌, [], ◌∷◌, filter, not, if◌then◌else◌, pos, int_le, codes, Some, IfOk, OnOk};
ghost use Rattle.std.specs.Option.{option_copied};
ghost use Rattle.std.specs.FinMap as map;
ghost use Rattle.op_plan.specs.Inside.Lists.{put};
ghost use Rattle.mark_set.specs.Markers.{has_type};
ghost use Rattle.op_kind.specs.Marking.{change_all, count_all, unmarked, count_marks, removed, unsynced, count_bytes};
ghost use Rattle.op_kind.specs.Problems.{is_at_or_above, is_problem_from, without_problems_from};

use crate::edits::Edits;
use crate::{Entries, NoMemory};
use mark_set::{MarkSet, MarkText, Marker, RawText, Value};
use res_path::Path;
use std::alloc::{AllocError, Global};
use ws_elem::{Attachments, Element};

/// The elements are to lose their markers of this type. Gives how many markers go. Elements without such stay as they
/// are.
pub fn unmark_all(
    alloc: Global,
    entries: &Entries,
    mark_type: &RawText,
    changes: &mut Edits,
) -> Result<u64, NoMemory>
    ensures count { IfOk result (λ n. n ≡ count_all (count_marks mark_type.now) entries.now) }
    ensures changes { OnOk result (changes.new ≡ changes.old
        ++ put (change_all (unmarked mark_type.now) (filter (λ e. not (count_marks mark_type.now e.1 == 0)) entries.now))) }
{
    let mut count = 0;
    let mut rest = entries.as_slice();
    while let Some((entry, others)) = rest.split_first() {
        let gone = unmark(alloc, &entry.0, &entry.1, mark_type, changes)?;
        count = total(count, gone)?;
        rest = others;
    }
    Ok(count)
}

/// The elements are to lose the bytes of the partner with this number. Gives how many have such. Elements without such
/// stay as they are.
pub fn unsync_all(
    alloc: Global,
    entries: &Entries,
    number: u32,
    changes: &mut Edits,
) -> Result<u64, NoMemory>
    ensures count { IfOk result (λ n. n ≡ count_all (count_bytes number) entries.now) }
    ensures changes { OnOk result (changes.new ≡ changes.old
        ++ put (change_all (unsynced number) (filter (λ e. not (count_bytes number e.1 == 0)) entries.now))) }
{
    let mut count = 0;
    let mut rest = entries.as_slice();
    while let Some((entry, others)) = rest.split_first() {
        let gone = unsync(alloc, &entry.0, &entry.1, number, changes)?;
        count = total(count, gone)?;
        rest = others;
    }
    Ok(count)
}

/// The sum, where it can be counted.
fn total(count: u64, more: u64) -> Result<u64, NoMemory>
    ensures { IfOk result (λ n. n ≡ count + more) }
{
    match count.checked_add(more) {
        Some(total) => Ok(total),
        None => Err(AllocError),
    }
}

/// The element is to lose its markers of this type, if it has any. Gives how many.
#[tactic(auto, using(crate::proofs::Lost::all_removed))]
fn unmark(
    alloc: Global,
    path: &Path,
    element: &Element,
    mark_type: &RawText,
    changes: &mut Edits,
) -> Result<u64, NoMemory>
    ensures count { IfOk result (λ n. n ≡ count_marks mark_type.now element.now) }
    ensures changes { OnOk result (changes.new ≡ changes.old
        ++ put (if count_marks mark_type.now element.now == 0 then [] else (path.now, unmarked mark_type.now element.now) ∷ [])) }
{
    let nothing = Attachments::none();
    let kept = element.attached.or(&nothing);
    let ids = kept.marks.by_type(alloc, mark_type.text())?;
    if ids.len() == 0 {
        return Ok(0);
    }
    let unmarked = without_markers(alloc, element, ids.as_slice())?;
    changes.put(path.copy()?, unmarked)?;
    Ok(ids.len() as u64)
}

/// The element without the markers of these ids.
fn without_markers(alloc: Global, element: &Element, ids: &[u64]) -> Result<Element, NoMemory>
    ensures { IfOk result (λ e. e ≡ record element.now { attached = record element.now.attached { marks = removed element.now.attached.marks ids.now } }) }
{
    let mut attachments = element.attached.to_attachments()?;
    remove_all(&mut attachments.marks, ids);
    element.with_attachments(alloc, attachments)
}

/// Takes the markers with these ids away.
fn remove_all(marks: &mut MarkSet, ids: &[u64])
    ensures { marks.new ≡ removed marks.old ids.now }
{
    let mut rest = ids;
    while let Some((id, others)) = rest.split_first() {
        remove(marks, *id);
        rest = others;
    }
}

/// Takes the marker with this id away, if there is one.
#[tactic(auto, using(crate::proofs::Lost::remove_absent))]
pub fn remove(marks: &mut MarkSet, id: u64)
    ensures { marks.new ≡ map.remove marks.old id }
{
    let _ = marks.delete(id);
}

/// The element is to lose the partner's bytes, if it has any. Gives 1 where it has.
fn unsync(
    alloc: Global,
    path: &Path,
    element: &Element,
    number: u32,
    changes: &mut Edits,
) -> Result<u64, NoMemory>
    ensures count { IfOk result (λ n. n ≡ count_bytes number element.now) }
    ensures changes { OnOk result (changes.new ≡ changes.old
        ++ put (if count_bytes number element.now == 0 then [] else (path.now, unsynced number element.now) ∷ [])) }
{
    let nothing = Attachments::none();
    let kept = element.attached.or(&nothing);
    if kept.syncs.get(number).is_none() {
        return Ok(0);
    }
    let mut attachments = kept.copy()?;
    attachments.syncs.set(alloc, number, None)?;
    changes.put(path.copy()?, element.with_attachments(alloc, attachments)?)?;
    Ok(1)
}

/// The markers lose the problems of commands at or above this count. Looks at each marker.
pub fn unmark_problems(alloc: Global, marks: &mut MarkSet, count: usize) -> Result<(), NoMemory>
    ensures { OnOk result (marks.new ≡ without_problems_from count marks.old) }
{
    let ids = problems(alloc, marks, count)?;
    remove_all(marks, ids.as_slice());
    Ok(())
}

/// The ids of the problems of commands at or above this count.
fn problems(alloc: Global, marks: &MarkSet, count: usize) -> Result<Vec<u64>, NoMemory>
    ensures { IfOk result (λ ids. ids.items ≡ filter (λ id. is_problem_from count (map.get marks.now id)) (map.keys marks.now)) }
{
    let command = command_name(alloc)?;
    let ids = marks.ids(alloc)?;
    let mut found = Vec::new(alloc);
    for id in &ids {
        if is_problem_from(count, &command, marks.get(*id)) {
            found.push(*id)?;
        }
    }
    Ok(found)
}

/// The name of the attribute that tells a problem's command.
fn command_name(alloc: Global) -> Result<MarkText, NoMemory>
    ensures { IfOk result (λ name. name ≡ codes "command") }
{
    match MarkText::parse(alloc, "command") {
        Ok(name) => Ok(name),
        Err(_) => Err(AllocError),
    }
}

/// Whether this is a problem of a command at or above the count.
fn is_problem_from(count: usize, command: &MarkText, marker: Option<&Marker>) -> bool
    requires { command.now ≡ codes "command" }
    ensures { result ≡ is_problem_from count (option_copied marker.entry) }
{
    match marker {
        None => false,
        Some(marker) => is_problem(marker) && is_at_or_above(count, marker.attrs.get(command)),
    }
}

/// Whether the marker is a problem.
fn is_problem(marker: &Marker) -> bool
    ensures { result ≡ has_type (codes "org.eclipse.core.resources.problemmarker") (Some marker.now) }
{
    has_type(marker, "org.eclipse.core.resources.problemmarker")
}

fn has_type(marker: &Marker, mark_type: &str) -> bool
    ensures { result ≡ has_type mark_type.now (Some marker.now) }
{
    marker.mark_type.text() == mark_type
}

/// Whether the value is an integer at or above the count.
fn is_at_or_above(count: usize, value: Option<&Value>) -> bool
    ensures { result ≡ is_at_or_above count (option_copied value.entry) }
{
    match value {
        Some(Value::Int(number)) => is_at_least(*number, count),
        _ => false,
    }
}

/// Whether the number is the count or greater.
fn is_at_least(number: i32, count: usize) -> bool
    ensures { result ≡ int_le (pos count) number }
{
    if number < 0 {
        return false;
    }
    count <= number as usize
}
