//! A phase that is being read.
ghost use Rattle.std.specs.Prelude.{◌≡◌, [], IfOk};
ghost use Rattle.script_lang.specs.Inside.Ordered.{has_job};
ghost use Rattle.script_lang.specs.Inside.Reading.{with_job};

use crate::NoMemory;
use crate::script::{Job, Jobs};
use res_path::Name;
use std::alloc::Global;
use std::collections::BTreeSet;
use std::marker::Model;

/// The jobs of a phase that isn't closed, in order. Their names differ. A contract sees the list.
#[derive(Drop)]
pub struct OpenPhase {
    jobs: Vec<Job>,
    // the names of the jobs
    names: BTreeSet<Name>,
}

impl Model for OpenPhase {
    ghost use Rattle.std.specs.Prelude.{List};
    ghost use Rattle.script_lang.specs.declared.script.Job.{Job};
    ghost use Rattle.script_lang.specs.Names.{HaveOwnNames};
    ghost use Rattle.script_lang.specs.Inside.Ordered.{AreTheirNames};

    ghost Value = { List Job };

    ghost view = { λ p. p.jobs.items };

    ghost invariant = { λ p. HaveOwnNames p.jobs.items × AreTheirNames p.names.keys p.jobs.items };
}

impl OpenPhase {
    /// No jobs. It takes no memory.
    pub fn new(alloc: Global) -> OpenPhase
        ensures { result ≡ [] }
    {
        OpenPhase {
            jobs: Vec::new(alloc),
            names: BTreeSet::new(alloc),
        }
    }

    /// Whether a job has this name.
    pub fn has(&self, name: &Name) -> bool
        ensures { result ≡ has_job self.now name.now }
    {
        self.names.contains(name)
    }

    /// The jobs and one more, unless one of them has its name.
    pub fn with(self, job: Job) -> Result<Option<OpenPhase>, NoMemory>
        ensures { IfOk result (λ more. more ≡ with_job self job) }
    {
        let OpenPhase {
            mut jobs,
            mut names,
        } = self;
        if !names.insert(job.name.copy()?)? {
            return Ok(None);
        }
        jobs.push(job)?;
        Ok(Some(OpenPhase { jobs, names }))
    }

    /// The jobs.
    pub fn close(self) -> Jobs
        ensures { result ≡ self }
    {
        let OpenPhase { jobs, .. } = self;
        Jobs::of(jobs)
    }
}
