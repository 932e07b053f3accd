//! One marker or more, by id.

ghost use Rattle.std.specs.Prelude.{◌≡◌, ◌↔◌, IfOk, IsTrue, IsSome, IsSomeAnd, OnOk, OnErr, option_copied, None, Some};
ghost use Rattle.std.specs.FinMap as map;
ghost use Rattle.std.specs.Ordering.{nat_cmp};
ghost use Rattle.mark_set.specs.Causes.{change_cause};
ghost use Rattle.mark_set.specs.Markers.{AreMarkers, IsMarker, durable_marks, with_attribute};

use crate::NoMemory;
use crate::mark_iter::Walk;
use crate::marker::{Marker, put_attribute};
use crate::value::RawValue;
use crate::walks::{collect_ids, durable_of, found_ids};
use indexmap::IndexMap;
use std::alloc::Global;
use std::collections::BTreeMap;
use std::marker::Model;

/// Markers in no order, since a marker that goes leaves its place to the last one, and their ids in order.
#[derive(Debug, Drop)]
pub struct Table {
    markers: IndexMap<u64, Marker>,
    ids: BTreeMap<u64, ()>,
}

impl Model for Table {
    ghost use Rattle.std.specs.FinMap as map;
    ghost use Rattle.std.specs.Coded.{coded_ℕ};
    ghost use Rattle.mark_set.specs.Markers.{Marks, AreMarkers};
    ghost use Rattle.mark_set.specs.Inside.Orders.{HasIds};
    ghost use Rattle.mark_set.specs.contracts.marker.Marker as marker;

    ghost Value = { Marks };

    ghost coded = { map.code coded_ℕ marker.the_row.coded };

    ghost view = { λ table. map.from_entries table.markers.entries };

    ghost invariant = { λ table. AreMarkers (map.from_entries table.markers.entries)
        × HasIds (map.from_entries table.ids.entries) (map.from_entries table.markers.entries) };
}

impl Table {
    pub fn new(alloc: Global) -> Table
        ensures { result ≡ map.empty }
    {
        Table {
            markers: IndexMap::new(alloc),
            ids: BTreeMap::new(alloc),
        }
    }

    pub fn get(&self, id: u64) -> Option<&Marker>
        ensures value { option_copied result ≡ map.get self.now id }
        ensures form { AreMarkers self.now }
    {
        self.markers.get(&id)
    }

    pub fn is_empty(&self) -> bool
        ensures { IsTrue result ↔ (self.now ≡ map.empty) }
    {
        self.markers.is_empty()
    }

    pub fn len(&self) -> usize
        ensures { result ≡ map.len self.now }
    {
        self.markers.len()
    }

    pub fn put(&mut self, marker: Marker) -> Result<(), NoMemory>
        requires { IsMarker marker.id marker }
        ensures ok { OnOk result (self.new ≡ map.insert self.old marker.id marker) }
        ensures err { OnErr result (self.new ≡ self.old) }
    {
        self.markers.reserve(1)?;
        self.ids.insert(marker.id, ())?;
        self.markers.insert(marker.id, marker)?;
        Ok(())
    }

    /// Whether there was one.
    pub fn take(&mut self, id: u64) -> bool
        ensures taken { self.new ≡ map.remove self.old id }
        ensures was { IsTrue result ↔ IsSome (map.get self.old id) }
    {
        self.ids.remove(&id);
        self.markers.swap_remove(&id).is_some()
    }

    /// Gives one attribute of a marker this value, or takes it away.
    pub fn set(
        &mut self,
        alloc: Global,
        id: u64,
        name: &str,
        value: Option<RawValue>,
    ) -> Result<(), NoMemory>
        requires known { IsSome (map.get self.old id) }
        requires sound { change_cause name.now value ≡ None }
        ensures ok { OnOk result (IsSomeAnd (map.get self.old id) (λ marker.
            self.new ≡ map.insert self.old id (with_attribute marker name.now value))) }
        ensures err { OnErr result (self.new ≡ self.old) }
    {
        match self.markers.get_mut(&id) {
            None => unreachable!(),
            Some(marker) => put_attribute(alloc, &mut marker.attrs, name, value),
        }
    }

    /// The ids in order.
    pub fn ids(&self, alloc: Global) -> Result<Vec<u64>, NoMemory>
        ensures { IfOk result (λ ids. ids.items ≡ map.keys self.now) }
    {
        collect_ids(alloc, self.ids.clone()?)
    }

    /// The markers in the order of their ids.
    pub fn walk(&self) -> Walk<'_>
        ensures { result ≡ map.values self.now }
    {
        Walk {
            ids: self.ids.iter(),
            markers: &self.markers,
        }
    }

    /// The markers that aren't transient.
    pub fn durable(&self, alloc: Global) -> Result<Table, NoMemory>
        ensures { IfOk result (λ table. table ≡ durable_marks self.now) }
    {
        let markers = durable_of(alloc, &self.markers)?;
        let ids = found_ids(alloc, &markers)?;
        Ok(Table { markers, ids })
    }

    pub fn markers(&self) -> &IndexMap<u64, Marker>
        ensures { map.from_entries {R = nat_cmp} result.now.entries ≡ self.now }
    {
        &self.markers
    }

    pub fn is_same(&self, other: &Table) -> bool
        ensures { IsTrue result ↔ (self.now ≡ other.now) }
    {
        self.markers == other.markers
    }
}

impl Clone for Table {
    ghost is_clone = { λ table copy. copy ≡ table };

    fn clone(&self) -> Result<Table, NoMemory> {
        Ok(Table {
            markers: self.markers.clone()?,
            ids: self.ids.clone()?,
        })
    }
}
