//! Jobs by name.
ghost use Rattle.std.specs.Prelude.{◌≡◌, IfOk, IsSome, OnOk, OnErr, option_copied};
ghost use Rattle.std.specs.BTreeMap.{get, Updates};
ghost use Rattle.std.specs.FinMap as map;
ghost use Rattle.std.specs.Option.{option_map};
ghost use Rattle.job_queue.specs.Changed.{changed};
ghost use Rattle.job_queue.specs.Queues.{name_cmp, in_state, over};

use crate::{Job, JobState, NoMemory};
use res_path::Name;
use sched_rules::{Atom, Rule};
use std::alloc::Global;
use std::collections::BTreeMap;
use std::marker::Model;

/// Jobs by name. A contract sees the finite map.
#[derive(Debug, Drop)]
pub struct Jobs<A: Atom> {
    jobs: BTreeMap<Name, Job<A>>,
}

impl<A: Atom> Model for Jobs<A> {
    ghost use Rattle.std.specs.FinMap as map;
    ghost use Rattle.std.specs.Coded.{coded_ℕ, coded_list};
    ghost use Rattle.job_queue.specs.Queues.{Jobs};
    ghost use Rattle.job_queue.specs.Inside.Codes.{job_code};
    ghost use Rattle.job_queue.specs.contracts.state.JobState as state;

    ghost Value = { Jobs A };

    ghost coded = { map.code (coded_list coded_ℕ) (job_code state.the_row.coded A.code) };

    ghost view = { λ j. map.from_entries j.jobs.entries };
}

impl<A: Atom> Jobs<A> {
    /// No jobs. It takes no memory.
    pub fn empty(alloc: Global) -> Jobs<A>
        ensures { result ≡ map.empty }
    {
        Jobs {
            jobs: BTreeMap::new(alloc),
        }
    }

    pub fn get(&self, name: &Name) -> Option<&Job<A>>
        ensures { option_copied result ≡ map.get self.now name.now }
    {
        self.jobs.get(name)
    }

    /// Puts the job in the place of the one of its name.
    pub fn put(&mut self, name: Name, job: Job<A>) -> Result<(), NoMemory>
        ensures ok { OnOk result (self.new ≡ map.insert self.old name job) }
        ensures err { OnErr result (self.new ≡ self.old) }
    {
        self.jobs.insert(name, job)?;
        Ok(())
    }

    /// The job of this name is in this state.
    pub fn set_state(&mut self, name: &Name, state: JobState)
        requires { IsSome (map.get self.old name.now) }
        ensures { self.new ≡ changed (in_state state) name.now self.old }
    {
        set_state(&mut self.jobs, name, state);
    }

    /// The job of this name is over, and its rule is let go.
    pub fn end(&mut self, alloc: Global, name: &Name)
        requires { IsSome (map.get self.old name.now) }
        ensures { self.new ≡ changed over name.now self.old }
    {
        end(&mut self.jobs, alloc, name);
    }

    pub fn copy(&self) -> Result<Jobs<A>, NoMemory>
        ensures { IfOk result (λ copy. copy ≡ self.now) }
    {
        Ok(Jobs {
            jobs: self.jobs.clone()?,
        })
    }
}

fn set_state<A: Atom>(jobs: &mut BTreeMap<Name, Job<A>>, name: &Name, state: JobState)
    requires { IsSome (get name_cmp jobs.old name.now) }
    ensures { Updates name_cmp jobs.old jobs.new name.now (option_map (in_state state) (get name_cmp jobs.old name.now)) }
{
    match jobs.get_mut(name) {
        Some(job) => job.state = state,
        None => {}
    }
}

fn end<A: Atom>(jobs: &mut BTreeMap<Name, Job<A>>, alloc: Global, name: &Name)
    requires { IsSome (get name_cmp jobs.old name.now) }
    ensures { Updates name_cmp jobs.old jobs.new name.now (option_map over (get name_cmp jobs.old name.now)) }
{
    match jobs.get_mut(name) {
        Some(job) => {
            job.state = JobState::None;
            job.rule = Rule::null(alloc);
        }
        None => {}
    }
}
