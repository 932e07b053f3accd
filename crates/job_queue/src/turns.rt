//! The jobs that wait, in turn.
ghost use Rattle.std.specs.Prelude.{◌≡◌, IfOk, OnOk, OnErr};
ghost use Rattle.std.specs.FinMap as map;

use crate::{NoMemory, Turn};
use res_path::Name;
use std::alloc::Global;
use std::collections::BTreeMap;
use std::collections::btree_map::Iter;
use std::marker::Model;

/// Names of jobs by their turns. A contract sees the finite map.
#[derive(Debug, Drop)]
pub struct Turns {
    names: BTreeMap<Turn, Name>,
}

impl Model for Turns {
    ghost use Rattle.std.specs.FinMap as map;
    ghost use Rattle.std.specs.Coded.{coded_ℕ, coded_list};
    ghost use Rattle.job_queue.specs.Inside.Kept.{Turns};
    ghost use Rattle.job_queue.specs.Inside.Codes.{turn_code};

    ghost Value = { Turns };

    ghost coded = { map.code turn_code (coded_list coded_ℕ) };

    ghost view = { λ t. map.from_entries t.names.entries };
}

impl Turns {
    /// No turns. It takes no memory.
    pub fn empty(alloc: Global) -> Turns
        ensures { result ≡ map.empty }
    {
        Turns {
            names: BTreeMap::new(alloc),
        }
    }

    pub fn add(&mut self, turn: Turn, name: Name) -> Result<(), NoMemory>
        ensures ok { OnOk result (self.new ≡ map.insert self.old turn name) }
        ensures err { OnErr result (self.new ≡ self.old) }
    {
        self.names.insert(turn, name)?;
        Ok(())
    }

    pub fn remove(&mut self, turn: &Turn)
        ensures { self.new ≡ map.remove self.old turn.now }
    {
        self.names.remove(turn);
    }

    /// The names, in turn.
    pub fn iter(&self) -> Iter<'_, Turn, Name>
        ensures { result ≡ map.entries self.now }
    {
        self.names.iter()
    }

    pub fn copy(&self) -> Result<Turns, NoMemory>
        ensures { IfOk result (λ copy. copy ≡ self.now) }
    {
        Ok(Turns {
            names: self.names.clone()?,
        })
    }
}
