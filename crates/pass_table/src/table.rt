//! Passes by their numbers.
ghost use Rattle.std.specs.Prelude.{◌≡◌, IfOk, IsSome, OnOk, OnErr, Some, option_copied};
ghost use Rattle.std.specs.BTreeMap.{get, Updates};
ghost use Rattle.std.specs.FinMap as map;
ghost use Rattle.std.specs.Option.{option_map};
ghost use Rattle.std.specs.Ordering.{nat_cmp};
ghost use Rattle.pass_table.specs.Passes.{idle};
ghost use Rattle.job_queue.specs.Changed.{changed};
ghost use Rattle.pass_table.specs.Rows.{with_batches, with_job};

use crate::{NoMemory, Pass};
use res_path::Name;
use std::alloc::Global;
use std::collections::BTreeMap;
use std::marker::Model;
use std::mem;

/// Passes by their numbers. A contract sees the finite map.
#[derive(Debug, Drop)]
pub(crate) struct Table {
    passes: BTreeMap<u64, Pass>,
}

impl Model for Table {
    ghost use Rattle.std.specs.FinMap as map;
    ghost use Rattle.pass_table.specs.Passes.{Table};
    ghost use Rattle.pass_table.specs.Inside.Codes.{table_code};

    ghost Value = { Table };

    ghost coded = { table_code };

    ghost view = { λ t. map.from_entries t.passes.entries };
}

impl Table {
    /// No passes. It takes no memory.
    pub(crate) fn empty(alloc: Global) -> Table
        ensures { result ≡ map.empty }
    {
        Table {
            passes: BTreeMap::new(alloc),
        }
    }

    pub(crate) fn get(&self, number: u64) -> Option<&Pass>
        ensures { option_copied result ≡ map.get self.now number }
    {
        self.passes.get(&number)
    }

    pub(crate) fn put(&mut self, number: u64, pass: Pass) -> Result<(), NoMemory>
        ensures ok { OnOk result (self.new ≡ map.insert self.old number pass) }
        ensures err { OnErr result (self.new ≡ self.old) }
    {
        self.passes.insert(number, pass)?;
        Ok(())
    }

    pub(crate) fn remove(&mut self, number: u64)
        ensures { self.new ≡ map.remove self.old number }
    {
        self.passes.remove(&number);
    }

    /// The pass has so many batches open.
    pub(crate) fn set_batches(&mut self, number: u64, batches: u64)
        requires { IsSome (map.get self.old number) }
        ensures { self.new ≡ changed (with_batches batches) number self.old }
    {
        set_batches(&mut self.passes, number, batches);
    }

    /// The pass runs the job, or none.
    pub(crate) fn set_job(&mut self, number: u64, job: Option<Name>)
        requires { IsSome (map.get self.old number) }
        ensures { self.new ≡ changed (with_job job) number self.old }
    {
        set_job(&mut self.passes, number, job);
    }

    /// The pass has neither a job nor an open batch any more. Gives what it was.
    pub(crate) fn reset(&mut self, number: u64) -> Pass
        requires { IsSome (map.get self.old number) }
        ensures was { map.get self.old number ≡ Some result }
        ensures reset { self.new ≡ changed (λ _. idle) number self.old }
    {
        reset(&mut self.passes, number)
    }

    pub(crate) fn copy(&self) -> Result<Table, NoMemory>
        ensures { IfOk result (λ copy. copy ≡ self.now) }
    {
        Ok(Table {
            passes: self.passes.clone()?,
        })
    }
}

fn set_batches(passes: &mut BTreeMap<u64, Pass>, number: u64, batches: u64)
    requires { IsSome (get nat_cmp passes.old number) }
    ensures { Updates nat_cmp passes.old passes.new number (option_map (with_batches batches) (get nat_cmp passes.old number)) }
{
    match passes.get_mut(&number) {
        Some(pass) => pass.batches = batches,
        None => {}
    }
}

fn set_job(passes: &mut BTreeMap<u64, Pass>, number: u64, job: Option<Name>)
    requires { IsSome (get nat_cmp passes.old number) }
    ensures { Updates nat_cmp passes.old passes.new number (option_map (with_job job) (get nat_cmp passes.old number)) }
{
    match passes.get_mut(&number) {
        Some(pass) => pass.job = job,
        None => drop(job),
    }
}

fn reset(passes: &mut BTreeMap<u64, Pass>, number: u64) -> Pass
    requires { IsSome (get nat_cmp passes.old number) }
    ensures was { get nat_cmp passes.old number ≡ Some result }
    ensures reset { Updates nat_cmp passes.old passes.new number (option_map (λ _. idle) (get nat_cmp passes.old number)) }
{
    match passes.get_mut(&number) {
        Some(pass) => mem::replace(pass, Pass::idle()),
        None => Pass::idle(),
    }
}
