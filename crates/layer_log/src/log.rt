//! A change for each of some paths.
ghost use Rattle.std.specs.Prelude.{◌≡◌, ◌≢◌, ◌↔◌, ◌+◌, ◌≤◌, false, Some, OnOk, OnErr};
ghost use Rattle.std.specs.Option.{option_copied};
ghost use Rattle.std.specs.FinMap as map;
ghost use Rattle.res_path.specs.Paths.{Names};
ghost use Rattle.layer_log.specs.Inside.Compositions.{Joined, Composed};

use crate::NoMemory;
use crate::change::{Change, one_of};
use res_path::Path;
use std::alloc::Global;
use std::collections::BTreeMap;
use std::collections::btree_map::Iter;
use std::marker::Model;

/// A change for each of some paths, in path order. A contract sees the finite map.
#[derive(Debug, Drop)]
pub struct Log {
    entries: BTreeMap<Path, Change>,
}

impl Model for Log {
    ghost use Rattle.std.specs.FinMap as map;
    ghost use Rattle.ws_elem.specs.RoomyTrees.{names_code};
    ghost use Rattle.layer_log.specs.Records.{Records};
    ghost use Rattle.layer_log.specs.contracts.change.Change as change;

    ghost Value = { Records };

    ghost coded = { map.code names_code change.the_row.coded };

    ghost view = { λ log. map.from_entries log.entries.entries };
}

impl Log {
    pub fn empty(alloc: Global) -> Log
        ensures { result ≡ map.empty }
    {
        Log {
            entries: BTreeMap::new(alloc),
        }
    }

    pub fn len(&self) -> usize
        ensures { result ≡ map.len self.now }
    {
        self.entries.len()
    }

    pub fn get(&self, path: &Path) -> Option<&Change>
        ensures { option_copied result ≡ map.get self.now path.now }
    {
        self.entries.get(path)
    }

    pub fn put(&mut self, path: Path, change: Change) -> Result<(), NoMemory>
        ensures ok { OnOk result (self.new ≡ map.insert self.old path change) }
        ensures err { OnErr result (self.new ≡ self.old) }
    {
        self.entries.insert(path, change)?;
        Ok(())
    }

    pub fn take(&mut self, path: &Path) -> Option<Change>
        ensures before { result ≡ map.get self.old path.now }
        ensures removed { self.new ≡ map.remove self.old path.now }
    {
        self.entries.remove(path)
    }

    /// The changes in path order.
    pub fn iter(&self) -> Iter<'_, Path, Change>
        ensures { result ≡ map.entries self.now }
    {
        self.entries.iter()
    }

    /// Takes one more change in. Where memory wants the path may have none.
    pub fn take_in(&mut self, path: &Path, next: &Change) -> Result<(), NoMemory>
        ensures at { OnOk result (Joined (map.get self.old path.now) (Some next.now) (map.get self.new path.now)) }
        ensures others { OnOk result ((q : Names) → q ≢ path.now → map.get self.new q ≡ map.get self.old q) }
        ensures most { OnOk result (map.len self.new ≤ map.len self.old + 1) }
    {
        let first = self.take(path);
        let change = one_of(first, next)?;
        if !change.is_idle() {
            self.put(path.copy()?, change)?;
        }
        Ok(())
    }

    /// Leaves the changes out whose entries are equal. It takes no memory.
    pub fn settle(&mut self)
        ensures composed { Composed map.empty self.old self.new }
        ensures most { map.len self.new ≤ map.len self.old }
    {
        self.entries.retain(
            |_path: &Path, change: &mut Change| -> bool
                ensures { ((result ≡ false) ↔ (change.old.before ≡ change.old.after)) × (change.new ≡ change.old) }
            { !change.is_idle() },
        );
    }
}
