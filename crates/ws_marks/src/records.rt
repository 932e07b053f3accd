//! Records in the order of their places.
ghost use Rattle.std.specs.Prelude.{◌≡◌, ◌≤◌, ◌<◌, T, true, false, Some, find as list_find, length, take, drop, slice_index_or, slice_set, Option, IfOk, OnOk, OnErr, IfSome};
ghost use Rattle.std.specs.Option.{option_copied, option_map};
ghost use Rattle.std.specs.Ordering.{is_lt};
ghost use Rattle.std.specs.FinMap as map;
ghost use Rattle.std.specs.FinMap.Entries.{put, find};
ghost use Rattle.ws_marks.specs.Places.{place_cmp, place_of};
ghost use Rattle.ws_marks.specs.Marked.{first_from, is_above, is_from, record_after, without};
ghost use Rattle.ws_marks.specs.Inside.{AllBelow, InOrder, IsCut, NoneBelow, placed, starts_at, starts_in};

use crate::{NoMemory, Record};
use res_path::Name;
use std::alloc::Global;
use std::cmp::Ordering;
use std::marker::Model;
use std::mem;

/// Records by their places. A contract sees the finite map.
///
/// They stand in one list, in order: so a look-up, which bisects, takes a name that the caller keeps. To put a record at a
/// new place moves those behind it.
#[derive(Drop)]
pub(crate) struct Records<M> {
    records: Vec<Record<M>>,
}

impl<M> Model for Records<M> {
    ghost use Rattle.std.specs.FinMap as map;
    ghost use Rattle.ws_marks.specs.Places.{Records};
    ghost use Rattle.proj_desc.specs.contracts.command.Command as command;
    ghost use Rattle.ws_marks.specs.Inside.{InOrder, placed, records_code};

    ghost Value = { Records M };

    ghost coded = { records_code command.the_row.coded M.code };

    ghost view = { λ r. map.from_sorted (placed r.records.items) };

    ghost invariant = { λ r. InOrder r.records.items };
}

impl<M: Drop> Records<M> {
    /// No records. It takes no memory.
    pub(crate) fn empty(alloc: Global) -> Records<M>
        ensures { result ≡ map.empty }
    {
        Records {
            records: Vec::new(alloc),
        }
    }

    pub(crate) fn get(&self, project: &Name, index: u16) -> Option<&Record<M>>
        ensures { option_copied result ≡ map.get self.now (project.now, index) }
    {
        get(self.records.as_slice(), project, index)
    }

    /// Puts the record in the place of the one at its place, which it gives.
    pub(crate) fn put(&mut self, new: Record<M>) -> Result<Option<Record<M>>, NoMemory>
        ensures before { IfOk result (λ before. before ≡ map.get self.old (place_of new)) }
        ensures ok { OnOk result (self.new ≡ map.insert self.old (place_of new) new) }
        ensures err { OnErr result (self.new ≡ self.old) }
    {
        put(&mut self.records, new)
    }

    /// Takes the record of the project's first command from this one on.
    pub(crate) fn take(&mut self, project: &Name, from: u16) -> Option<Record<M>>
        ensures first { result ≡ first_from self.old project.now from }
        ensures rest { self.new ≡ without self.old result }
        ensures one { IfSome result (λ r. is_from project.now from (place_of r) ≡ true) }
        ensures own { IfSome result (λ r. map.get self.old (place_of r) ≡ Some r) }
    {
        take(&mut self.records, project, from)
    }

    /// Takes the record of the project's command of this index.
    pub(crate) fn remove(&mut self, project: &Name, index: u16) -> Option<Record<M>>
        ensures found { result ≡ map.get self.old (project.now, index) }
        ensures rest { self.new ≡ map.remove self.old (project.now, index) }
    {
        remove(&mut self.records, project, index)
    }

    /// All of them, in the order of their places.
    pub(crate) fn all(&self) -> &[Record<M>]
        ensures { result.now ≡ map.values self.now }
    {
        self.records.as_slice()
    }

    /// The first record above the place, or of all.
    pub(crate) fn next(&self, after: Option<(&Name, u16)>) -> Option<&Record<M>>
        ensures next { option_copied result ≡ record_after self.now (option_map (λ k. (k.0.now, k.1)) after.entry) }
        ensures own { IfSome result (λ r. map.get self.now (place_of r.now) ≡ Some r.now) }
    {
        next(self.records.as_slice(), after)
    }
}

/// How many stand below the place.
fn count_below<M>(records: &[Record<M>], project: &Name, index: u16) -> usize
    requires { InOrder records.now }
    ensures bound { result ≤ length records.now }
    ensures before { AllBelow (project.now, index) (take result records.now) }
    ensures from { NoneBelow (project.now, index) (drop result records.now) }
{
    records.partition_point(
        |record: &Record<M>| -> bool
            ensures { result ≡ is_lt (place_cmp (place_of record.now) (project.entry.now, index)) }
        { record.cmp_place(project, index) == Ordering::Less },
    )
}

/// Those that don't stand below the place.
fn from<'a, M>(records: &'a [Record<M>], project: &Name, index: u16) -> &'a [Record<M>]
    requires { InOrder records.now }
    ensures { IsCut (project.now, index) records.now result.now }
{
    let count = count_below(records, project, index);
    records.split_at(count).1
}

fn get<'a, M>(records: &'a [Record<M>], project: &Name, index: u16) -> Option<&'a Record<M>>
    requires { InOrder records.now }
    ensures { option_copied result ≡ find place_cmp (project.now, index) (placed records.now) }
{
    let (first, _) = from(records, project, index).split_first()?;
    if first.is_at(project, index) {
        Some(first)
    } else {
        None
    }
}

fn put<M: Drop>(records: &mut Vec<Record<M>>, new: Record<M>) -> Result<Option<Record<M>>, NoMemory>
    requires { InOrder records.old.items }
    ensures before { IfOk result (λ before. before ≡ find place_cmp (place_of new) (placed records.old.items)) }
    ensures ok { OnOk result (placed records.new.items ≡ put place_cmp (place_of new) new (placed records.old.items)) }
    ensures err { OnErr result (records.new.items ≡ records.old.items) }
{
    let count = count_below(records.as_slice(), &new.project, new.index);
    if is_at(records.as_slice(), count, &new.project, new.index) {
        return Ok(Some(replace(records, count, new)));
    }
    records.insert(count, new)?;
    Ok(None)
}

/// Whether behind so many one stands at the place.
fn is_at<M>(records: &[Record<M>], count: usize, project: &Name, index: u16) -> bool
    requires { count ≤ length records.now }
    ensures { result ≡ starts_at (project.now, index) (drop count records.now) }
{
    match records.split_at(count).1.split_first() {
        Some((first, _)) => first.is_at(project, index),
        None => false,
    }
}

/// Puts the record where another stands, which it gives.
fn replace<M>(records: &mut Vec<Record<M>>, count: usize, new: Record<M>) -> Record<M>
    requires { count < length records.old.items }
    ensures value { result ≡ slice_index_or records.old.items count new }
    ensures items { records.new.items ≡ slice_set records.old.items count new }
{
    mem::replace(&mut records[count], new)
}

fn take<M: Drop>(records: &mut Vec<Record<M>>, project: &Name, from: u16) -> Option<Record<M>>
    requires { InOrder records.old.items }
    ensures first { result ≡ option_map (λ e. e.1) (list_find (λ e. is_from project.now from e.0) (placed records.old.items)) }
    ensures order { InOrder records.new.items }
    ensures rest { map.from_sorted (placed records.new.items) ≡ without (map.from_sorted (placed records.old.items)) result }
{
    let count = count_below(records.as_slice(), project, from);
    if !is_of(records.as_slice(), count, project) {
        return None;
    }
    Some(records.remove(count))
}

fn remove<M: Drop>(records: &mut Vec<Record<M>>, project: &Name, index: u16) -> Option<Record<M>>
    requires { InOrder records.old.items }
    ensures found { result ≡ find place_cmp (project.now, index) (placed records.old.items) }
    ensures order { InOrder records.new.items }
    ensures rest { map.from_sorted {R = place_cmp} (placed records.new.items) ≡ map.remove (map.from_sorted (placed records.old.items)) (project.now, index) }
{
    let count = count_below(records.as_slice(), project, index);
    if !is_at(records.as_slice(), count, project, index) {
        return None;
    }
    Some(records.remove(count))
}

/// Whether behind so many one of the project stands.
fn is_of<M>(records: &[Record<M>], count: usize, project: &Name) -> bool
    requires { count ≤ length records.now }
    ensures { result ≡ starts_in project.now (drop count records.now) }
{
    match records.split_at(count).1.split_first() {
        Some((first, _)) => first.is_of(project),
        None => false,
    }
}

fn next<'a, M>(records: &'a [Record<M>], after: Option<(&Name, u16)>) -> Option<&'a Record<M>>
    requires { InOrder records.now }
    ensures { option_copied result ≡ option_map (λ e. e.1) (list_find (λ e. is_above (option_map (λ k. (k.0.now, k.1)) after.entry) e.0) (placed records.now)) }
{
    match after {
        None => records.first(),
        Some((project, index)) => above(records, project, index),
    }
}

fn above<'a, M>(records: &'a [Record<M>], project: &Name, index: u16) -> Option<&'a Record<M>>
    requires { InOrder records.now }
    ensures { option_copied result ≡ option_map (λ e. e.1) (list_find (λ e. is_lt (place_cmp (project.now, index) e.0)) (placed records.now)) }
{
    let (first, others) = from(records, project, index).split_first()?;
    if first.is_at(project, index) {
        others.first()
    } else {
        Some(first)
    }
}
