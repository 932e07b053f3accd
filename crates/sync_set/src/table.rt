//! The bytes of one partner or more.

ghost use Rattle.std.specs.Prelude.{◌≡◌, ◌↔◌, IsTrue, OnOk, OnErr, option_copied};
ghost use Rattle.std.specs.FinMap as map;

use crate::NoMemory;
use bytes::Bytes;
use std::alloc::Global;
use std::collections::BTreeMap;
use std::collections::btree_map::Iter;
use std::marker::Model;

#[derive(Debug, Drop)]
pub struct Table {
    entries: BTreeMap<u32, Bytes>,
}

impl Model for Table {
    ghost use Rattle.std.specs.FinMap as map;
    ghost use Rattle.std.specs.Coded.{coded_ℕ, coded_list};
    ghost use Rattle.sync_set.specs.Syncs.{Syncs};

    ghost Value = { Syncs };

    ghost coded = { map.code coded_ℕ (coded_list coded_ℕ) };

    ghost view = { λ table. map.from_entries table.entries.entries };
}

impl Table {
    pub fn new(alloc: Global) -> Table
        ensures { result ≡ map.empty }
    {
        Table {
            entries: BTreeMap::new(alloc),
        }
    }

    pub fn get(&self, partner: u32) -> Option<&Bytes>
        ensures { option_copied result ≡ map.get self.now partner }
    {
        self.entries.get(&partner)
    }

    pub fn put(&mut self, partner: u32, bytes: Bytes) -> Result<(), NoMemory>
        ensures ok { OnOk result (self.new ≡ map.insert self.old partner bytes) }
        ensures err { OnErr result (self.new ≡ self.old) }
    {
        self.entries.insert(partner, bytes)?;
        Ok(())
    }

    pub fn take(&mut self, partner: u32)
        ensures { self.new ≡ map.remove self.old partner }
    {
        self.entries.remove(&partner);
    }

    pub fn is_empty(&self) -> bool
        ensures { IsTrue result ↔ (self.now ≡ map.empty) }
    {
        self.entries.is_empty()
    }

    pub fn len(&self) -> usize
        ensures { result ≡ map.len self.now }
    {
        self.entries.len()
    }

    /// The entries in the order of the partners' numbers.
    pub fn iter(&self) -> Iter<'_, u32, Bytes>
        ensures { result ≡ map.entries self.now }
    {
        self.entries.iter()
    }

    pub fn is_same(&self, other: &Table) -> bool
        ensures { IsTrue result ↔ (self.now ≡ other.now) }
    {
        if self.entries.len() != other.entries.len() {
            return false;
        }
        self.entries == other.entries
    }
}

impl Clone for Table {
    ghost is_clone = { λ table copy. copy ≡ table };

    fn clone(&self) -> Result<Table, NoMemory> {
        Ok(Table {
            entries: self.entries.clone()?,
        })
    }
}
