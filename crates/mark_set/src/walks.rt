//! Passes over a table of markers.

ghost use Rattle.std.specs.Prelude.{◌≡◌, ◌++◌, [], ℕ, IfOk, OnOk, Some, None, option_copied, option_map, if◌then◌else◌};
ghost use Rattle.std.specs.Ordering.{nat_cmp};
ghost use Rattle.std.specs.FinMap as map;
ghost use Rattle.std.specs.Map.{keys_of};
ghost use Rattle.mark_set.specs.Inside.Builds.{Covers, with_some};
ghost use Rattle.mark_set.specs.Deltas.{came as came_if, difference, difference_at, marker_deltas};
ghost use Rattle.mark_set.specs.Markers.{durable_marks, is_durable};

use crate::NoMemory;
use crate::delta::MarkerDelta;
use crate::marker::Marker;
use indexmap::IndexMap;
use std::alloc::Global;
use std::collections::BTreeMap;

/// The ids in order.
pub fn collect_ids(alloc: Global, found: BTreeMap<u64, ()>) -> Result<Vec<u64>, NoMemory>
    ensures { IfOk result (λ ids. ids.items ≡ map.keys (map.from_entries {R = nat_cmp} found.entries)) }
{
    let keys = found.into_keys();
    keys.collect(alloc)
}

/// The ids of these markers.
pub fn found_ids(
    alloc: Global,
    markers: &IndexMap<u64, Marker>,
) -> Result<BTreeMap<u64, ()>, NoMemory>
    ensures { IfOk result (λ found. (id : ℕ) → map.get (map.from_entries {R = nat_cmp} found.entries) id
        ≡ option_map (λ _. tt) (map.get (map.from_entries {R = nat_cmp} markers.now.entries) id)) }
{
    let mut found = BTreeMap::new(alloc);
    for i in 0..markers.len() {
        let Some((id, _)) = markers.get_index(i) else {
            unreachable!()
        };
        found.insert(*id, ())?;
    }
    Ok(found)
}

/// Copies of the markers that aren't transient.
pub fn durable_of(
    alloc: Global,
    markers: &IndexMap<u64, Marker>,
) -> Result<IndexMap<u64, Marker>, NoMemory>
    ensures { IfOk result (λ kept. map.from_entries {R = nat_cmp} kept.entries ≡ durable_marks (map.from_entries markers.now.entries)) }
{
    let mut kept = IndexMap::new(alloc);
    for i in 0..markers.len() {
        let Some((id, marker)) = markers.get_index(i) else {
            unreachable!()
        };
        keep(&mut kept, *id, marker)?;
    }
    Ok(kept)
}

fn keep(kept: &mut IndexMap<u64, Marker>, id: u64, marker: &Marker) -> Result<(), NoMemory>
    ensures { OnOk result (map.from_entries {R = nat_cmp} kept.new.entries
        ≡ with_some (map.from_entries kept.old.entries) id (if is_durable (Some marker.now) then Some marker.now else None)) }
{
    if marker.is_transient() {
        Ok(())
    } else {
        kept.insert(id, marker.copy()?)?;
        Ok(())
    }
}

/// What became of each marker, in the order of ids.
pub fn differences_of(
    alloc: Global,
    old: &IndexMap<u64, Marker>,
    new: &IndexMap<u64, Marker>,
) -> Result<Vec<MarkerDelta>, NoMemory>
    ensures { IfOk result (λ deltas. deltas.items ≡ marker_deltas (map.from_entries old.now.entries) (map.from_entries new.now.entries)) }
{
    let mut found = BTreeMap::new(alloc);
    note_old(&mut found, old, new)?;
    note_new(alloc, &mut found, old, new)?;
    collect_deltas(alloc, found)
}

fn collect_deltas(
    alloc: Global,
    found: BTreeMap<u64, MarkerDelta>,
) -> Result<Vec<MarkerDelta>, NoMemory>
    ensures { IfOk result (λ deltas. deltas.items ≡ map.values (map.from_entries {R = nat_cmp} found.entries)) }
{
    let _count = found.len();
    let values = found.into_values();
    values.collect(alloc)
}

// Of the markers that were there: each one that went or changed.
fn note_old(
    found: &mut BTreeMap<u64, MarkerDelta>,
    old: &IndexMap<u64, Marker>,
    new: &IndexMap<u64, Marker>,
) -> Result<(), NoMemory>
    requires { found.old.entries ≡ [] }
    ensures { OnOk result (Covers (difference_at old.now.entries new.now.entries) (map.from_entries found.new.entries) (keys_of old.now.entries)) }
{
    for i in 0..old.len() {
        let Some((id, before)) = old.get_index(i) else {
            unreachable!()
        };
        note(found, *id, difference_of(before, new.get(id))?)?;
    }
    Ok(())
}

// Of the markers that are there: each one that came.
fn note_new(
    alloc: Global,
    found: &mut BTreeMap<u64, MarkerDelta>,
    old: &IndexMap<u64, Marker>,
    new: &IndexMap<u64, Marker>,
) -> Result<(), NoMemory>
    requires { Covers (difference_at old.now.entries new.now.entries) (map.from_entries found.old.entries) (keys_of old.now.entries) }
    ensures { OnOk result (Covers (difference_at old.now.entries new.now.entries) (map.from_entries found.new.entries) (keys_of old.now.entries ++ keys_of new.now.entries)) }
{
    for i in 0..new.len() {
        let Some((id, after)) = new.get_index(i) else {
            unreachable!()
        };
        note(found, *id, came(alloc, old.get(id), after)?)?;
    }
    Ok(())
}

fn difference_of(before: &Marker, after: Option<&Marker>) -> Result<Option<MarkerDelta>, NoMemory>
    ensures { IfOk result (λ delta. delta ≡ difference (Some before.now) (option_copied after.entry)) }
{
    match after {
        None => Ok(Some(MarkerDelta::removed(before)?)),
        Some(after) => {
            if before.is_same(after) {
                Ok(None)
            } else {
                Ok(Some(MarkerDelta::changed(before)?))
            }
        }
    }
}

fn came(
    alloc: Global,
    before: Option<&Marker>,
    after: &Marker,
) -> Result<Option<MarkerDelta>, NoMemory>
    ensures { IfOk result (λ delta. delta ≡ came_if (option_copied before.entry) after.now) }
{
    match before {
        None => Ok(Some(MarkerDelta::added(alloc, after)?)),
        Some(_) => Ok(None),
    }
}

fn note(
    found: &mut BTreeMap<u64, MarkerDelta>,
    id: u64,
    delta: Option<MarkerDelta>,
) -> Result<(), NoMemory>
    ensures { OnOk result (map.from_entries {R = nat_cmp} found.new.entries ≡ with_some (map.from_entries found.old.entries) id delta) }
{
    match delta {
        None => Ok(()),
        Some(delta) => {
            found.insert(id, delta)?;
            Ok(())
        }
    }
}
