//! The jobs of a phase, by name.
ghost use Rattle.std.specs.Prelude.{◌≡◌, Some, IfOk, OnOk, option_copied};
ghost use Rattle.std.specs.FinMap as map;
ghost use Rattle.run_order.specs.Plans.{commands_of};
ghost use Rattle.script_plan.specs.Plans.{jobs_plan};
ghost use Rattle.script_plan.specs.Inside.Books.{commands_at, FindsFrom};

use crate::NoMemory;
use res_path::Name;
use script_lang::{Command, Job, Jobs, Phase};
use std::alloc::Global;
use std::collections::BTreeMap;
use std::marker::Model;

/// Places in a list, by name. A contract sees the finite map.
#[derive(Drop)]
pub struct Places {
    places: BTreeMap<Name, usize>,
}

impl Model for Places {
    ghost use Rattle.std.specs.FinMap as map;
    ghost use Rattle.std.specs.Coded.{coded_ℕ, coded_list};
    ghost use Rattle.script_plan.specs.Inside.Books.{Places};

    ghost Value = { Places };

    ghost coded = { map.code (coded_list coded_ℕ) coded_ℕ };

    ghost view = { λ p. map.from_entries p.places.entries };
}

impl Places {
    /// No place. It takes no memory.
    fn empty(alloc: Global) -> Places
        ensures { result ≡ map.empty }
    {
        Places {
            places: BTreeMap::new(alloc),
        }
    }

    fn get(&self, name: &Name) -> Option<&usize>
        ensures { option_copied result ≡ map.get self.now name.now }
    {
        self.places.get(name)
    }

    /// Puts the place in the stead of the one of its name.
    fn put(&mut self, name: Name, place: usize) -> Result<(), NoMemory>
        ensures { OnOk result (self.new ≡ map.insert self.old name place) }
    {
        self.places.insert(name, place)?;
        Ok(())
    }
}

/// Some jobs, found by name. A contract sees the list.
#[derive(Drop)]
pub struct JobBook<'a> {
    jobs: &'a [Job],
    places: Places,
}

impl<'a> Model for JobBook<'a> {
    ghost use Rattle.std.specs.Prelude.{List};
    ghost use Rattle.script_lang.specs.declared.script.Job.{Job};
    ghost use Rattle.script_plan.specs.Inside.Books.{FindsFrom};

    ghost Value = { List Job };

    ghost view = { λ b. b.jobs.now };

    ghost invariant = { λ b. FindsFrom 0 b.places b.jobs.now };
}

impl<'a> JobBook<'a> {
    /// These jobs. Costs n log n steps for n jobs.
    pub fn of(alloc: Global, jobs: &'a [Job]) -> Result<JobBook<'a>, NoMemory>
        ensures { IfOk result (λ book. book ≡ jobs.now) }
    {
        let places = places_of(alloc, jobs)?;
        Ok(JobBook { jobs, places })
    }

    /// The commands of the first job of this name; none where no job has it. Costs log n steps.
    pub fn commands(&self, name: &Name) -> &[Command]
        ensures { result.now ≡ commands_of (jobs_plan self.now) name.now }
    {
        match self.places.get(name) {
            Some(place) => commands_at(self.jobs, *place),
            None => &[],
        }
    }
}

/// The jobs of a phase, found by name. Their names differ. A contract sees the list.
#[derive(Drop)]
pub struct PhaseBook {
    jobs: Jobs,
    places: Places,
}

impl Model for PhaseBook {
    ghost use Rattle.std.specs.Prelude.{List};
    ghost use Rattle.script_lang.specs.declared.script.Job.{Job};
    ghost use Rattle.script_plan.specs.Inside.Books.{FindsFrom};

    ghost Value = { List Job };

    ghost view = { λ b. b.jobs };

    ghost invariant = { λ b. FindsFrom 0 b.places b.jobs };
}

impl PhaseBook {
    /// The jobs of this phase. Costs n log n steps for n jobs.
    pub fn of(alloc: Global, phase: Phase) -> Result<PhaseBook, NoMemory>
        ensures { IfOk result (λ book. book ≡ phase.jobs) }
    {
        let Phase { jobs } = phase;
        let places = places_of(alloc, jobs.as_slice())?;
        Ok(PhaseBook { jobs, places })
    }

    /// The jobs, in order.
    pub fn jobs(&self) -> &[Job]
        ensures { result.now ≡ self.now }
    {
        self.jobs.as_slice()
    }

    /// The commands of the job of this name; none where no job has it. Costs log n steps.
    pub fn commands(&self, name: &Name) -> &[Command]
        ensures { result.now ≡ commands_of (jobs_plan self.now) name.now }
    {
        match self.places.get(name) {
            Some(place) => commands_at(self.jobs.as_slice(), *place),
            None => &[],
        }
    }
}

/// The place of the first job of each name.
fn places_of(alloc: Global, jobs: &[Job]) -> Result<Places, NoMemory>
    ensures { IfOk result (λ places. FindsFrom 0 places jobs.now) }
{
    let mut places = Places::empty(alloc);
    let mut from = jobs.len();
    // From the last job on, so that the first of a name stays.
    while from > 0 {
        from -= 1;
        places.put(jobs[from].name.copy()?, from)?;
    }
    Ok(places)
}

/// The commands of the job at the place.
fn commands_at(jobs: &[Job], place: usize) -> &[Command]
    ensures { result.now ≡ commands_at jobs.now (Some place) }
{
    match jobs.get(place) {
        Some(job) => job.commands.as_slice(),
        None => &[],
    }
}
