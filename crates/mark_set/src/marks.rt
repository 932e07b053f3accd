//! Markers by id.

ghost use Rattle.std.specs.Prelude.{◌≡◌, ◌≢◌, ◌↔◌, ℕ, [], IfOk, IfErr, IsOk, IsTrue, IsSome, IsSomeAnd, OnOk, OnErr, option_copied, None, Some};
ghost use Rattle.std.specs.Ordering.{nat_cmp};
ghost use Rattle.std.specs.Cmp.{partial_equiv_from_equiv};
ghost use Rattle.std.specs.FinMap as map;
ghost use Rattle.mark_set.specs.declared.error.ValueCause.{ValueCause};
ghost use Rattle.mark_set.specs.Causes.{marker_cause, change_cause};
ghost use Rattle.mark_set.specs.Deltas.{marker_deltas};
ghost use Rattle.mark_set.specs.Markers.{AreMarkers, IsMarker, durable_marks, has_type, ids_of_type, new_marker, same_marks, same_marks-IsEquivalence, with_attribute};

use crate::NoMemory;
use crate::causes::{change_cause, marker_cause};
use crate::delta::MarkerDelta;
use crate::error::MarkError;
use crate::mark_iter::MarkIter;
use crate::marker::Marker;
use crate::table::Table;
use crate::text::RawText;
use crate::value::RawValue;
use crate::walks::differences_of;
use indexmap::IndexMap;
use std::alloc::Global;
use std::marker::Model;

/// The markers of one resource, by id. An empty set owns no memory. Finding or changing a marker takes expected constant
/// time, and deleting one time that grows with the logarithm of their number. An empty set takes none to copy or compare.
#[derive(Debug, Drop)]
pub struct MarkSet {
    table: Option<Box<Table>>,
}

impl Model for MarkSet {
    ghost use Rattle.std.specs.Prelude.{◌≢◌, MatchOption, ⊤};
    ghost use Rattle.std.specs.Option.{option_map_or};
    ghost use Rattle.std.specs.FinMap as map;
    ghost use Rattle.std.specs.Coded.{coded_ℕ};
    ghost use Rattle.mark_set.specs.Markers.{Marks};
    ghost use Rattle.mark_set.specs.contracts.marker.Marker as marker;

    ghost Value = { Marks };

    ghost coded = { map.code coded_ℕ marker.the_row.coded };

    ghost view = { λ set. option_map_or (λ table. table.value) set.table map.empty };

    ghost invariant = { λ set. MatchOption set.table ⊤ (λ table. table.value ≢ map.empty) };
}

impl MarkSet {
    /// No markers. Takes no memory.
    pub fn empty() -> MarkSet
        ensures { result ≡ map.empty }
    {
        MarkSet { table: None }
    }

    /// The marker with an id. Each has its own id, a type of 1 to 255 bytes, and names and values within their limits.
    pub fn get(&self, id: u64) -> Option<&Marker>
        ensures value { option_copied result ≡ map.get self.now id }
        ensures form { AreMarkers self.now }
    {
        match &self.table {
            None => None,
            Some(table) => table.get(id),
        }
    }

    /// Whether there are no markers.
    pub fn is_empty(&self) -> bool
        ensures { IsTrue result ↔ (self.now ≡ map.empty) }
    {
        self.table.is_none()
    }

    /// How many markers there are.
    pub fn len(&self) -> usize
        ensures { result ≡ map.len self.now }
    {
        match &self.table {
            None => 0,
            Some(table) => table.len(),
        }
    }

    /// Adds a marker under a new id, which a caller takes above all ids in use; one under an id in use would take its place.
    /// Refused with the first cause that is found, in the type and then attribute by attribute in the name and the value:
    /// EmptyName or LongName where a type or a name hasn't 1 to 255 bytes, LongText where a text has more than 65,535. Of
    /// two attributes of one name the last counts.
    pub fn create(
        &mut self,
        alloc: Global,
        id: u64,
        mark_type: &str,
        attrs: &[(RawText, RawValue)],
    ) -> Result<(), MarkError>
        ensures ok { OnOk result (self.new ≡ map.insert self.old id (new_marker id mark_type.now attrs.now)) }
        ensures bad { (cause : ValueCause) → (result ≡ Err (MarkError.BadValue cause)) ↔ (marker_cause mark_type.now attrs.now ≡ Some cause) }
        ensures known { result ≢ Err MarkError.MarkerUnknown }
        ensures err { OnErr result (self.new ≡ self.old) }
    {
        match marker_cause(mark_type, attrs) {
            Some(cause) => Err(MarkError::BadValue(cause)),
            None => {
                let marker = Marker::make(alloc, id, mark_type, attrs)?;
                self.put(alloc, marker)?;
                Ok(())
            }
        }
    }

    /// Puts a marker whose type, names and values have their form under its own id, in the place of one that has the id.
    pub fn put(&mut self, alloc: Global, marker: Marker) -> Result<(), NoMemory>
        requires { IsMarker marker.id marker }
        ensures ok { OnOk result (self.new ≡ map.insert self.old marker.id marker) }
        ensures err { OnErr result (self.new ≡ self.old) }
    {
        match &mut self.table {
            Some(table) => table.put(marker),
            None => {
                let mut table = Table::new(alloc);
                table.put(marker)?;
                self.table = Some(Box::new(alloc, table)?);
                Ok(())
            }
        }
    }

    /// Gives one attribute of a marker this value, or takes it away. Refused with MarkerUnknown where no marker has the id,
    /// then with the first cause, in the name and then in the value.
    pub fn set(
        &mut self,
        alloc: Global,
        id: u64,
        name: &str,
        value: Option<RawValue>,
    ) -> Result<(), MarkError>
        ensures ok { OnOk result (IsSomeAnd (map.get self.old id) (λ marker.
            self.new ≡ map.insert self.old id (with_attribute marker name.now value))) }
        ensures unknown { (result ≡ Err MarkError.MarkerUnknown) ↔ (map.get self.old id ≡ None) }
        ensures bad { (cause : ValueCause) → (result ≡ Err (MarkError.BadValue cause))
            ↔ (IsSome (map.get self.old id) × (change_cause name.now value ≡ Some cause)) }
        ensures err { OnErr result (self.new ≡ self.old) }
    {
        if self.get(id).is_none() {
            return Err(MarkError::MarkerUnknown);
        }
        match change_cause(name, &value) {
            Some(cause) => Err(MarkError::BadValue(cause)),
            None => {
                self.write(alloc, id, name, value)?;
                Ok(())
            }
        }
    }

    fn write(
        &mut self,
        alloc: Global,
        id: u64,
        name: &str,
        value: Option<RawValue>,
    ) -> Result<(), NoMemory>
        requires known { IsSome (map.get self.old id) }
        requires sound { change_cause name.now value ≡ None }
        ensures ok { OnOk result (IsSomeAnd (map.get self.old id) (λ marker.
            self.new ≡ map.insert self.old id (with_attribute marker name.now value))) }
        ensures err { OnErr result (self.new ≡ self.old) }
    {
        match &mut self.table {
            None => unreachable!(),
            Some(table) => table.set(alloc, id, name, value),
        }
    }

    /// Takes a marker away. Refused with MarkerUnknown where no marker has the id. Takes no memory.
    pub fn delete(&mut self, id: u64) -> Result<(), MarkError>
        ensures ok { OnOk result (self.new ≡ map.remove self.old id) }
        ensures unknown { (result ≡ Err MarkError.MarkerUnknown) ↔ (map.get self.old id ≡ None) }
        ensures only { IfErr result (λ e. e ≡ MarkError.MarkerUnknown) }
        ensures err { OnErr result (self.new ≡ self.old) }
    {
        if self.get(id).is_none() {
            return Err(MarkError::MarkerUnknown);
        }
        self.take(id);
        Ok(())
    }

    fn take(&mut self, id: u64)
        ensures { self.new ≡ map.remove self.old id }
    {
        match self.table.take() {
            None => {}
            Some(mut table) => {
                table.take(id);
                if !table.is_empty() {
                    self.table = Some(table);
                }
            }
        }
    }

    /// The ids in order.
    pub fn ids(&self, alloc: Global) -> Result<Vec<u64>, NoMemory>
        ensures { IfOk result (λ ids. ids.items ≡ map.keys self.now) }
    {
        match &self.table {
            None => Ok(Vec::new(alloc)),
            Some(table) => table.ids(alloc),
        }
    }

    /// The markers in the order of their ids. Takes no memory.
    pub fn iter(&self) -> MarkIter<'_>
        ensures { result ≡ map.values self.now }
    {
        MarkIter {
            rest: match &self.table {
                None => None,
                Some(table) => Some(table.walk()),
            },
        }
    }

    /// The ids of the markers of one type, in order. A marker of a subtype isn't of the type.
    pub fn by_type(&self, alloc: Global, mark_type: &str) -> Result<Vec<u64>, NoMemory>
        ensures { IfOk result (λ ids. ids.items ≡ ids_of_type mark_type.now self.now) }
    {
        let ids = self.ids(alloc)?;
        let mut found = Vec::new(alloc);
        for id in &ids {
            if self.has_type(*id, mark_type) {
                found.push(*id)?;
            }
        }
        Ok(found)
    }

    fn has_type(&self, id: u64, mark_type: &str) -> bool
        ensures { result ≡ has_type mark_type.now (map.get self.now id) }
    {
        match self.get(id) {
            None => false,
            Some(marker) => marker.mark_type.text() == mark_type,
        }
    }

    /// The markers whose attribute `transient` isn't the value true.
    pub fn durable(&self, alloc: Global) -> Result<MarkSet, NoMemory>
        ensures { IfOk result (λ set. set ≡ durable_marks self.now) }
    {
        match &self.table {
            None => Ok(MarkSet::empty()),
            Some(table) => boxed(alloc, table.durable(alloc)?),
        }
    }

    /// What became of each marker between two sets: one marker delta for each id at which they differ, in the order of ids.
    /// One pass over each set, with a look-up in the other for each marker.
    pub fn delta(alloc: Global, old: &MarkSet, new: &MarkSet) -> Result<Vec<MarkerDelta>, NoMemory>
        ensures deltas { IfOk result (λ deltas. deltas.items ≡ marker_deltas old.now new.now) }
        ensures none { IfOk result (λ deltas. (deltas.items ≡ []) ↔ (old.now ≡ new.now)) }
    {
        let none = IndexMap::new(alloc);
        differences_of(alloc, old.markers(&none), new.markers(&none))
    }

    fn markers<'a>(&'a self, none: &'a IndexMap<u64, Marker>) -> &'a IndexMap<u64, Marker>
        requires { none.now.entries ≡ [] }
        ensures { map.from_entries {R = nat_cmp} result.now.entries ≡ self.now }
    {
        match &self.table {
            None => none,
            Some(table) => table.markers(),
        }
    }

    fn is_same(&self, other: &MarkSet) -> bool
        ensures { IsTrue result ↔ (self.now ≡ other.now) }
    {
        match (&self.table, &other.table) {
            (None, None) => true,
            (Some(one), Some(two)) => one.is_same(two),
            _ => false,
        }
    }

    /// An equal set. A copy of an empty set takes no memory.
    pub fn copy(&self) -> Result<MarkSet, NoMemory>
        ensures same { IfOk result (λ copy. copy ≡ self.now) }
        ensures empty { self.now ≡ map.empty → IsOk result }
    {
        match &self.table {
            None => Ok(MarkSet::empty()),
            Some(table) => Ok(MarkSet {
                table: Some(table.clone()?),
            }),
        }
    }
}

fn boxed(alloc: Global, table: Table) -> Result<MarkSet, NoMemory>
    ensures { IfOk result (λ set. set ≡ table) }
{
    if table.is_empty() {
        Ok(MarkSet::empty())
    } else {
        Ok(MarkSet {
            table: Some(Box::new(alloc, table)?),
        })
    }
}

impl Clone for MarkSet {
    ghost is_clone = { λ set copy. copy ≡ set };

    fn clone(&self) -> Result<MarkSet, NoMemory> {
        self.copy()
    }
}

/// Sets are equal where they have equal markers under the same ids. Two empty sets are found equal at once.
impl PartialEq for MarkSet {
    ghost eq = { same_marks };

    ghost laws = { partial_equiv_from_equiv same_marks-IsEquivalence };

    fn eq(&self, other: &MarkSet) -> bool
        ensures value { result ≡ same_marks self.now other.now }
        ensures same { IsTrue result ↔ (self.now ≡ other.now) }
    {
        self.is_same(other)
    }
}

impl Eq for MarkSet {
    ghost laws = { same_marks-IsEquivalence };
}
