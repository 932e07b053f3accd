//! Bytes by partner number.

ghost use Rattle.std.specs.Prelude.{◌≡◌, ◌↔◌, IfOk, IsOk, IsTrue, OnOk, OnErr, option_copied, None, Some};
ghost use Rattle.std.specs.FinMap as map;
ghost use Rattle.sync_set.specs.Syncs.{with_bytes, same_syncs, same_syncs-IsEquivalence};
ghost use Rattle.std.specs.Cmp.{partial_equiv_from_equiv};

use crate::NoMemory;
use crate::iter::Iter;
use crate::table::Table;
use bytes::Bytes;
use std::alloc::Global;
use std::marker::Model;

/// The bytes that each partner keeps with one resource, by the partner's number. An empty set owns no memory.
#[derive(Debug, Drop)]
pub struct SyncSet {
    table: Option<Box<Table>>,
}

impl Model for SyncSet {
    ghost use Rattle.std.specs.Prelude.{◌≢◌, MatchOption, ⊤};
    ghost use Rattle.std.specs.Option.{option_map_or};
    ghost use Rattle.std.specs.FinMap as map;
    ghost use Rattle.std.specs.Coded.{coded_ℕ, coded_list};
    ghost use Rattle.sync_set.specs.Syncs.{Syncs};

    ghost Value = { Syncs };

    ghost coded = { map.code coded_ℕ (coded_list coded_ℕ) };

    ghost view = { λ set. option_map_or (λ table. table.value) set.table map.empty };

    ghost invariant = { λ set. MatchOption set.table ⊤ (λ table. table.value ≢ map.empty) };
}

impl SyncSet {
    /// No partner has bytes. Takes no memory.
    pub fn empty() -> SyncSet
        ensures { result ≡ map.empty }
    {
        SyncSet { table: None }
    }

    /// The bytes of a partner.
    pub fn get(&self, partner: u32) -> Option<&Bytes>
        ensures { option_copied result ≡ map.get self.now partner }
    {
        match &self.table {
            None => None,
            Some(table) => table.get(partner),
        }
    }

    /// Whether no partner has bytes.
    pub fn is_empty(&self) -> bool
        ensures { IsTrue result ↔ (self.now ≡ map.empty) }
    {
        self.table.is_none()
    }

    /// How many partners have bytes.
    pub fn len(&self) -> usize
        ensures { result ≡ map.len self.now }
    {
        match &self.table {
            None => 0,
            Some(table) => table.len(),
        }
    }

    /// The partners' numbers with their bytes, in the order of the numbers.
    pub fn iter(&self) -> Iter<'_>
        ensures { result ≡ map.entries self.now }
    {
        Iter {
            rest: match &self.table {
                None => None,
                Some(table) => Some(table.iter()),
            },
        }
    }

    /// Keeps these bytes for the partner in the place of those that it had, or none. Taking bytes away takes no memory.
    pub fn set(&mut self, alloc: Global, partner: u32, bytes: Option<Bytes>) -> Result<(), NoMemory>
        ensures ok { OnOk result (self.new ≡ with_bytes self.old partner bytes) }
        ensures err { OnErr result (self.new ≡ self.old) }
        ensures taken { bytes ≡ None → IsOk result }
    {
        match bytes {
            Some(bytes) => self.put(alloc, partner, bytes),
            None => {
                self.take(partner);
                Ok(())
            }
        }
    }

    fn put(&mut self, alloc: Global, partner: u32, bytes: Bytes) -> Result<(), NoMemory>
        ensures ok { OnOk result (self.new ≡ map.insert self.old partner bytes) }
        ensures err { OnErr result (self.new ≡ self.old) }
    {
        match &mut self.table {
            Some(table) => table.put(partner, bytes),
            None => {
                let mut table = Table::new(alloc);
                table.put(partner, bytes)?;
                self.table = Some(Box::new(alloc, table)?);
                Ok(())
            }
        }
    }

    fn take(&mut self, partner: u32)
        ensures { self.new ≡ map.remove self.old partner }
    {
        match self.table.take() {
            None => {}
            Some(mut table) => {
                table.take(partner);
                if !table.is_empty() {
                    self.table = Some(table);
                }
            }
        }
    }

    fn is_same(&self, other: &SyncSet) -> bool
        ensures { IsTrue result ↔ (self.now ≡ other.now) }
    {
        match (&self.table, &other.table) {
            (None, None) => true,
            (Some(one), Some(two)) => one.is_same(two),
            _ => false,
        }
    }

    /// A set with the same bytes, which it shares. A copy of an empty set takes no memory.
    pub fn copy(&self) -> Result<SyncSet, NoMemory>
        ensures same { IfOk result (λ copy. copy ≡ self.now) }
        ensures empty { self.now ≡ map.empty → IsOk result }
    {
        match &self.table {
            None => Ok(SyncSet::empty()),
            Some(table) => Ok(SyncSet {
                table: Some(table.clone()?),
            }),
        }
    }
}

impl Clone for SyncSet {
    ghost is_clone = { λ set copy. copy ≡ set };

    fn clone(&self) -> Result<SyncSet, NoMemory> {
        self.copy()
    }
}

/// Sets are equal where the same partners have the same bytes. Two empty sets are found equal at once.
impl PartialEq for SyncSet {
    ghost eq = { same_syncs };

    ghost laws = { partial_equiv_from_equiv same_syncs-IsEquivalence };

    fn eq(&self, other: &SyncSet) -> bool
        ensures value { result ≡ same_syncs self.now other.now }
        ensures same { IsTrue result ↔ (self.now ≡ other.now) }
    {
        self.is_same(other)
    }
}

impl Eq for SyncSet {
    ghost laws = { same_syncs-IsEquivalence };
}
