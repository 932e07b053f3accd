//! The events that concern jobs.
ghost use Rattle.std.specs.Prelude.{◌≡◌, true, false, Some, IfOk, OnErr};
ghost use Rattle.core_event.specs.declared.event.Event.TheVariants.{Schedule, Sleep, Wake, Cancel, Take, Finish};
ghost use Rattle.core_event.specs.declared.reply.Refusal.{Refusal};
ghost use Rattle.core_event.specs.declared.reply.Answer.{Answer};
ghost use Rattle.sched_rules.specs.Atoms.{atom_conflicts};
ghost use Rattle.job_queue.specs.Queues.{ComesNext};
ghost use Rattle.pass_table.specs.Passes.{has_pass, is_busy, is_quiet};
ghost use Rattle.job_manager.specs.Refusals.{by_job};
ghost use Rattle.core_event.specs.Twice.{twice, doubled};
ghost use Rattle.job_manager.specs.Effects.{outcome, taken};

use crate::{JobManager, NoMemory};
use core_event::{
    Answer, Refusal, Twice, WsRule, done_twice, job_twice, no_job_twice, refused_twice,
};
use job_queue::{JobError, JobState};
use res_path::Name;
use std::alloc::{AllocError, Global};

impl JobManager {
    /// The job waits or sleeps.
    pub(crate) fn schedule(
        &mut self,
        alloc: Global,
        pass: u64,
        name: &Name,
        priority: u8,
        rule: &WsRule,
        asleep: bool,
        wants_copy: bool,
    ) -> Result<Twice<Answer>, NoMemory>
        ensures ok { IfOk result (λ answer. (self.new, answer) ≡ doubled wants_copy (outcome self.old pass (Schedule name.now priority rule.now asleep))) }
        ensures err { OnErr result (self.new ≡ self.old) }
        ensures quiet { is_quiet self.new.passes ≡ is_quiet self.old.passes }
    {
        let name = name.copy()?;
        let rule = rule.copy()?;
        match self.jobs.schedule(name, priority, rule, asleep) {
            Ok(()) => Ok(done_twice(wants_copy)),
            Err(error) => refused(alloc, error, wants_copy),
        }
    }

    /// The job that waits sleeps.
    pub(crate) fn sleep(
        &mut self,
        alloc: Global,
        pass: u64,
        name: &Name,
        wants_copy: bool,
    ) -> Result<Twice<Answer>, NoMemory>
        ensures ok { IfOk result (λ answer. (self.new, answer) ≡ doubled wants_copy (outcome self.old pass (Sleep name.now))) }
        ensures err { OnErr result (self.new ≡ self.old) }
        ensures quiet { is_quiet self.new.passes ≡ is_quiet self.old.passes }
    {
        match self.jobs.sleep(name) {
            Ok(()) => Ok(done_twice(wants_copy)),
            Err(error) => refused(alloc, error, wants_copy),
        }
    }

    /// The job that sleeps waits.
    pub(crate) fn wake(
        &mut self,
        alloc: Global,
        pass: u64,
        name: &Name,
        wants_copy: bool,
    ) -> Result<Twice<Answer>, NoMemory>
        ensures ok { IfOk result (λ answer. (self.new, answer) ≡ doubled wants_copy (outcome self.old pass (Wake name.now))) }
        ensures err { OnErr result (self.new ≡ self.old) }
        ensures quiet { is_quiet self.new.passes ≡ is_quiet self.old.passes }
    {
        match self.jobs.wake(name) {
            Ok(()) => Ok(done_twice(wants_copy)),
            Err(error) => refused(alloc, error, wants_copy),
        }
    }

    /// The job that waits or sleeps is over.
    pub(crate) fn cancel(
        &mut self,
        alloc: Global,
        pass: u64,
        name: &Name,
        wants_copy: bool,
    ) -> Result<Twice<Answer>, NoMemory>
        ensures ok { IfOk result (λ answer. (self.new, answer) ≡ doubled wants_copy (outcome self.old pass (Cancel name.now))) }
        ensures err { OnErr result (self.new ≡ self.old) }
        ensures quiet { is_quiet self.new.passes ≡ is_quiet self.old.passes }
    {
        match self.jobs.cancel(name) {
            Ok(()) => Ok(done_twice(wants_copy)),
            Err(error) => refused(alloc, error, wants_copy),
        }
    }

    /// The pass runs the job that comes next, if there is one. Refused where it has a rule, an open batch or a job.
    pub(crate) fn take(
        &mut self,
        alloc: Global,
        pass: u64,
        wants_copy: bool,
    ) -> Result<Twice<Answer>, NoMemory>
        requires { has_pass self.old.passes pass ≡ true }
        ensures ok { IfOk result (λ answer. (self.new, answer) ≡ doubled wants_copy (outcome self.old pass Take)) }
        ensures err { OnErr result (self.new ≡ self.old) }
        ensures quiet { is_quiet self.new.passes ≡ is_quiet self.old.passes }
    {
        if self.passes.is_busy(pass) {
            return refused_twice(alloc, Refusal::PassBusy, wants_copy);
        }
        match self.jobs.next(self.passes.rules()) {
            None => Ok(no_job_twice(wants_copy)),
            Some(name) => {
                let name = name.copy()?;
                self.run(alloc, pass, name, wants_copy)
            }
        }
    }

    /// The pass, which is not busy, runs the job of this name, which waits and whose rule is free.
    fn run(
        &mut self,
        alloc: Global,
        pass: u64,
        name: Name,
        wants_copy: bool,
    ) -> Result<Twice<Answer>, NoMemory>
        requires there { has_pass self.old.passes pass ≡ true }
        requires idle { is_busy self.old.passes pass ≡ false }
        requires next { ComesNext atom_conflicts self.old.passes.rules self.old.jobs.jobs name }
        ensures ok { IfOk result (λ answer. (self.new, answer) ≡ doubled wants_copy (taken self.old pass (Some name))) }
        ensures err { OnErr result (self.new ≡ self.old) }
        ensures quiet { is_quiet self.new.passes ≡ is_quiet self.old.passes }
    {
        let answer = job_twice(alloc, &name, wants_copy)?;
        let rule = match self.jobs.get(&name) {
            Some(job) => job.rule.copy()?,
            None => unreachable!(),
        };
        self.passes.run(pass, name.copy()?, rule)?;
        match self.jobs.begin(&name) {
            Ok(()) => Ok(answer),
            Err(_) => unreachable!(),
        }
    }

    /// The pass's job is over, with its batches and rules. Refused where it runs none.
    pub(crate) fn finish(
        &mut self,
        alloc: Global,
        pass: u64,
        wants_copy: bool,
    ) -> Result<Twice<Answer>, NoMemory>
        ensures ok { IfOk result (λ answer. (self.new, answer) ≡ doubled wants_copy (outcome self.old pass Finish)) }
        ensures err { OnErr result (self.new ≡ self.old) }
    {
        let Some(name) = self.passes.job(pass) else {
            return refused_twice(alloc, Refusal::WrongState(JobState::None), wants_copy);
        };
        // A job that a pass runs is one that the queue knows as running; were it none, nothing would be done.
        if self.jobs.finish(name).is_err() {
            return Err(AllocError);
        }
        self.passes.finish(pass);
        Ok(done_twice(wants_copy))
    }
}

/// The answer to an event that is refused for what a job is.
fn refused(alloc: Global, error: JobError, wants_copy: bool) -> Result<Twice<Answer>, NoMemory>
    ensures { IfOk result (λ answer. (r : Refusal) × (by_job (Some error) ≡ Some r) × (answer ≡ twice wants_copy (Answer.Refused r))) }
{
    match error {
        JobError::UnknownJob => refused_twice(alloc, Refusal::UnknownJob, wants_copy),
        JobError::WrongState(state) => refused_twice(alloc, Refusal::WrongState(state), wants_copy),
        JobError::NumbersUsed => refused_twice(alloc, Refusal::NumbersUsed, wants_copy),
        JobError::Memory => Err(AllocError),
    }
}
