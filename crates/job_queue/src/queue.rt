//! The queue of jobs.
ghost use Rattle.std.specs.Prelude.{ℕ, List, find, ◌≡◌, ◌⊎◌, ◌<◌, ◌-◌, if◌then◌else◌, None, Some, true, false, IfErr, IfNone, IfOk, IfSome, OnErr, OnOk, option_copied};
ghost use Rattle.std.specs.Option.{IsSomeAnd, option_map};
ghost use Rattle.std.specs.FinMap as map;
ghost use Rattle.job_queue.specs.States.{may_be_cancelled, is_sleeping, is_waiting, is_running, is_live};
ghost use Rattle.job_queue.specs.Queues.{no_jobs, state_of, live, refusal, schedule_refusal, number_refusal, scheduled, moved, cancelled, finished, may_start, next_name, ComesNext};
ghost use Rattle.job_queue.specs.Inside.Kept.{has_free};
ghost use Rattle.job_queue.specs.declared.job.Job.{Job};
ghost use Rattle.job_queue.specs.declared.state.JobState.{JobState};
ghost use Rattle.job_queue.specs.declared.state.JobState.TheVariants.{Sleeping, Waiting, Running};

use crate::jobs::Jobs;
use crate::turns::Turns;
use crate::{Job, JobError, JobState, NoMemory, Turn};
use res_path::Name;
use rule_table::RuleTable;
use sched_rules::{Atom, Rule};
use std::alloc::Global;
use std::marker::Model;

/// The greatest number of a job.
const MAX_NUMBER: u64 = (1 << 63) - 1;

/// Which jobs were scheduled, what becomes of each, and which comes next, as the platform's job manager has them. A
/// contract sees the jobs by name, the number that the next job gets, and how many were finished.
///
/// The name of a job that is over stays known. Where a call is refused, or wants memory, the queue is as before.
#[derive(Debug, Drop)]
pub struct JobQueue<A: Atom> {
    jobs: Jobs<A>,
    // The jobs that wait.
    turns: Turns,
    next_number: u64,
    finished: u64,
    // How many wait or are run.
    live: u64,
    alloc: Global,
}

impl<A: Atom> Model for JobQueue<A> {
    ghost use Rattle.job_queue.specs.Queues.{Queue};
    ghost use Rattle.job_queue.specs.Inside.Codes.{queue_code};
    ghost use Rattle.job_queue.specs.Inside.Kept.{IsKept};
    ghost use Rattle.job_queue.specs.contracts.state.JobState as state;

    ghost Value = { Queue A };

    ghost coded = { queue_code state.the_row.coded A.code };

    ghost view = { λ q. record { jobs = q.jobs; next_number = q.next_number; finished = q.finished } };

    ghost invariant = { λ q. IsKept q.jobs q.turns q.next_number q.finished q.live };
}

impl<A: Atom> JobQueue<A> {
    /// The queue in which no job was ever scheduled. It takes no memory.
    pub fn empty(alloc: Global) -> JobQueue<A>
        ensures { result ≡ no_jobs }
    {
        JobQueue {
            jobs: Jobs::empty(alloc),
            turns: Turns::empty(alloc),
            next_number: 0,
            finished: 0,
            live: 0,
            alloc,
        }
    }

    /// The job of this name; none where no job of the name was ever scheduled.
    pub fn get(&self, name: &Name) -> Option<&Job<A>>
        ensures { option_copied result ≡ map.get self.now.jobs name.now }
    {
        self.jobs.get(name)
    }

    /// What becomes of the job of this name; none where no job of the name was ever scheduled.
    pub fn state(&self, name: &Name) -> Option<JobState>
        ensures { result ≡ state_of self.now name.now }
    {
        match self.jobs.get(name) {
            Some(job) => Some(job.state),
            None => None,
        }
    }

    /// Whether the job of this name is run.
    pub fn is_running(&self, name: &Name) -> bool
        ensures { result ≡ true → refusal is_running (state_of self.now name.now) ≡ None }
    {
        match self.state(name) {
            Some(state) => state.is_running(),
            None => false,
        }
    }

    /// How many jobs wait or are run.
    pub fn live(&self) -> u64
        ensures { result ≡ live self.now }
    {
        self.live
    }

    /// How many jobs were finished.
    pub fn finished(&self) -> u64
        ensures { result ≡ self.now.finished }
    {
        self.finished
    }

    /// The job waits, or sleeps where that is asked, after all of its priority that were scheduled before. Refused with
    /// `WrongState` where the job of this name isn't over, else with `NumbersUsed` where its number would pass 2^63 - 1.
    /// A refused job is let go.
    pub fn schedule(
        &mut self,
        name: Name,
        priority: u8,
        rule: Rule<A>,
        asleep: bool,
    ) -> Result<(), JobError>
        ensures scheduled { OnOk result (self.new ≡ scheduled self.old name priority rule asleep) }
        ensures allowed { OnOk result (schedule_refusal self.old.next_number (state_of self.old name) ≡ None) }
        ensures refused { IfErr result (λ e. (e ≡ JobError.Memory) ⊎ (schedule_refusal self.old.next_number (state_of self.old name) ≡ Some e)) }
        ensures same { OnErr result (self.new ≡ self.old) }
    {
        may_schedule(self.state(&name), self.next_number)?;
        let turn = Turn {
            priority,
            number: self.next_number,
        };
        if asleep {
            self.add_sleeping(name, turn, rule)?;
        } else {
            self.add_waiting(name, turn, rule)?;
        }
        Ok(())
    }

    fn add_sleeping(&mut self, name: Name, turn: Turn, rule: Rule<A>) -> Result<(), NoMemory>
        requires number { turn.number ≡ self.old.next_number }
        requires allowed { schedule_refusal self.old.next_number (state_of self.old name) ≡ None }
        ensures ok { OnOk result (self.new ≡ scheduled self.old name turn.priority rule true) }
        ensures err { OnErr result (self.new ≡ self.old) }
    {
        let job = Job {
            state: JobState::Sleeping,
            turn,
            rule,
        };
        self.jobs.put(name, job)?;
        self.next_number += 1;
        Ok(())
    }

    fn add_waiting(&mut self, name: Name, turn: Turn, rule: Rule<A>) -> Result<(), NoMemory>
        requires number { turn.number ≡ self.old.next_number }
        requires allowed { schedule_refusal self.old.next_number (state_of self.old name) ≡ None }
        ensures ok { OnOk result (self.new ≡ scheduled self.old name turn.priority rule false) }
        ensures err { OnErr result (self.new ≡ self.old) }
    {
        self.turns.add(turn, name.copy()?)?;
        let job = Job {
            state: JobState::Waiting,
            turn,
            rule,
        };
        match self.jobs.put(name, job) {
            Ok(()) => {
                self.next_number += 1;
                self.live += 1;
                Ok(())
            }
            Err(wanted) => {
                self.turns.remove(&turn);
                Err(wanted)
            }
        }
    }

    /// The job that waited sleeps; its turn stays. Refused with `UnknownJob` where no job of the name was ever
    /// scheduled, else with `WrongState` where it doesn't wait. Takes no memory.
    pub fn sleep(&mut self, name: &Name) -> Result<(), JobError>
        ensures sleeps { OnOk result (self.new ≡ moved self.old name.now Sleeping) }
        ensures allowed { OnOk result (refusal is_waiting (state_of self.old name.now) ≡ None) }
        ensures refused { IfErr result (λ e. refusal is_waiting (state_of self.old name.now) ≡ Some e) }
        ensures same { OnErr result (self.new ≡ self.old) }
    {
        let job = self.known(name)?;
        expect(job.state.is_waiting(), job.state)?;
        let turn = job.turn;
        self.turns.remove(&turn);
        self.jobs.set_state(name, JobState::Sleeping);
        self.live -= 1;
        Ok(())
    }

    /// The job that slept waits; its turn is the one that it had. Refused with `UnknownJob` where no job of the name
    /// was ever scheduled, else with `WrongState` where it doesn't sleep.
    pub fn wake(&mut self, name: &Name) -> Result<(), JobError>
        ensures wakes { OnOk result (self.new ≡ moved self.old name.now Waiting) }
        ensures allowed { OnOk result (refusal is_sleeping (state_of self.old name.now) ≡ None) }
        ensures refused { IfErr result (λ e. (e ≡ JobError.Memory) ⊎ (refusal is_sleeping (state_of self.old name.now) ≡ Some e)) }
        ensures same { OnErr result (self.new ≡ self.old) }
    {
        let job = self.known(name)?;
        expect(job.state.is_sleeping(), job.state)?;
        let turn = job.turn;
        self.turns.add(turn, name.copy()?)?;
        self.jobs.set_state(name, JobState::Waiting);
        self.live += 1;
        Ok(())
    }

    /// The job that waited or slept is over. Refused with `UnknownJob` where no job of the name was ever scheduled, else
    /// with `WrongState` where it neither waits nor sleeps. Takes no memory.
    pub fn cancel(&mut self, name: &Name) -> Result<(), JobError>
        ensures cancelled { OnOk result (self.new ≡ cancelled self.old name.now) }
        ensures allowed { OnOk result (refusal may_be_cancelled (state_of self.old name.now) ≡ None) }
        ensures refused { IfErr result (λ e. refusal may_be_cancelled (state_of self.old name.now) ≡ Some e) }
        ensures same { OnErr result (self.new ≡ self.old) }
    {
        let job = self.known(name)?;
        expect(job.state.may_be_cancelled(), job.state)?;
        let turn = job.turn;
        self.live = without(self.live, job.state);
        self.turns.remove(&turn);
        self.jobs.end(self.alloc, name);
        Ok(())
    }

    /// The job that waited is run. Gives a copy of its rule. Refused with `UnknownJob` where no job of the name was ever
    /// scheduled, else with `WrongState` where it doesn't wait.
    pub fn start(&mut self, name: &Name) -> Result<Rule<A>, JobError>
        ensures runs { OnOk result (self.new ≡ moved self.old name.now Running) }
        ensures rule { IfOk result (λ rule. IsSomeAnd (map.get self.old.jobs name.now) (λ job. rule ≡ job.rule)) }
        ensures allowed { OnOk result (refusal is_waiting (state_of self.old name.now) ≡ None) }
        ensures refused { IfErr result (λ e. (e ≡ JobError.Memory) ⊎ (refusal is_waiting (state_of self.old name.now) ≡ Some e)) }
        ensures same { OnErr result (self.new ≡ self.old) }
    {
        let rule = self.known(name)?.rule.copy()?;
        self.begin(name)?;
        Ok(rule)
    }

    /// As `start`, for who has the job's rule already. Takes no memory.
    pub fn begin(&mut self, name: &Name) -> Result<(), JobError>
        ensures runs { OnOk result (self.new ≡ moved self.old name.now Running) }
        ensures allowed { OnOk result (refusal is_waiting (state_of self.old name.now) ≡ None) }
        ensures refused { IfErr result (λ e. refusal is_waiting (state_of self.old name.now) ≡ Some e) }
        ensures same { OnErr result (self.new ≡ self.old) }
    {
        let job = self.known(name)?;
        expect(job.state.is_waiting(), job.state)?;
        let turn = job.turn;
        self.turns.remove(&turn);
        self.jobs.set_state(name, JobState::Running);
        Ok(())
    }

    /// The job that was run is over, and counted as finished. Refused with `UnknownJob` where no job of the name was
    /// ever scheduled, else with `WrongState` where it isn't run. Takes no memory.
    pub fn finish(&mut self, name: &Name) -> Result<(), JobError>
        ensures finished { OnOk result (self.new ≡ finished self.old name.now) }
        ensures allowed { OnOk result (refusal is_running (state_of self.old name.now) ≡ None) }
        ensures refused { IfErr result (λ e. refusal is_running (state_of self.old name.now) ≡ Some e) }
        ensures same { OnErr result (self.new ≡ self.old) }
    {
        let job = self.known(name)?;
        expect(job.state.is_running(), job.state)?;
        self.jobs.end(self.alloc, name);
        self.live -= 1;
        self.finished += 1;
        Ok(())
    }

    /// The name of the job that is to be started next: of those that wait and whose rule conflicts with none that is held,
    /// the one with the first turn; none where there is no such job. Looks at the jobs that wait, in turn, and for each at
    /// the held rules. Takes no memory.
    pub fn next(&self, held: &RuleTable<A>) -> Option<&Name>
        ensures next { option_copied result ≡ next_name A.conflicts held.now self.now }
        ensures none { IfNone result ((n : List ℕ) (job : Job A) → map.get self.now.jobs n ≡ Some job → may_start A.conflicts held.now job ≡ false) }
        ensures first { IfSome result (λ n. ComesNext A.conflicts held.now self.now.jobs n.now) }
    {
        first_free(&self.jobs, &self.turns, held)
    }

    /// An equal queue.
    pub fn copy(&self) -> Result<JobQueue<A>, NoMemory>
        ensures { IfOk result (λ copy. copy ≡ self.now) }
    {
        Ok(JobQueue {
            jobs: self.jobs.copy()?,
            turns: self.turns.copy()?,
            next_number: self.next_number,
            finished: self.finished,
            live: self.live,
            alloc: self.alloc,
        })
    }

    fn known(&self, name: &Name) -> Result<&Job<A>, JobError>
        ensures ok { IfOk result (λ job. map.get self.now.jobs name.now ≡ Some job.now) }
        ensures err { IfErr result (λ e. (e ≡ JobError.UnknownJob) × (map.get self.now.jobs name.now ≡ None)) }
    {
        match self.jobs.get(name) {
            Some(job) => Ok(job),
            None => Err(JobError::UnknownJob),
        }
    }
}

/// Whether the call is for a job in this state.
fn expect(is: bool, state: JobState) -> Result<(), JobError>
    ensures ok { OnOk result (is ≡ true) }
    ensures err { IfErr result (λ e. (e ≡ JobError.WrongState state) × (is ≡ false)) }
{
    if is {
        return Ok(());
    }
    Err(JobError::WrongState(state))
}

/// Whether a job may be scheduled where the one of its name is in this state.
fn may_schedule(state: Option<JobState>, next_number: u64) -> Result<(), JobError>
    ensures ok { OnOk result (schedule_refusal next_number state ≡ None) }
    ensures err { IfErr result (λ e. schedule_refusal next_number state ≡ Some e) }
{
    match state {
        Some(state) => {
            expect(state.is_over(), state)?;
            has_number(next_number)
        }
        None => has_number(next_number),
    }
}

/// Whether there is a number for one more job.
fn has_number(next_number: u64) -> Result<(), JobError>
    ensures ok { OnOk result (number_refusal next_number ≡ None) }
    ensures err { IfErr result (λ e. number_refusal next_number ≡ Some e) }
{
    if next_number >= MAX_NUMBER {
        return Err(JobError::NumbersUsed);
    }
    Ok(())
}

/// How many wait or are run without one that was in this state.
fn without(live: u64, state: JobState) -> u64
    requires { is_live state ≡ true → 0 < live }
    ensures { result ≡ (if is_live state then live - 1 else live) }
{
    if state.is_live() { live - 1 } else { live }
}

/// The first name, in turn, of a job whose rule is free.
fn first_free<'a, A: Atom>(
    jobs: &Jobs<A>,
    turns: &'a Turns,
    held: &RuleTable<A>,
) -> Option<&'a Name>
    ensures { option_copied result ≡ option_map (λ e. e.1) (find (λ e. has_free A.conflicts held.now (map.get jobs.now e.1)) (map.entries turns.now)) }
{
    for (_, name) in turns.iter() {
        if has_free(jobs.get(name), held) {
            return Some(name);
        }
    }
    None
}

/// Whether there is a job, and its rule conflicts with none that is held.
fn has_free<A: Atom>(job: Option<&Job<A>>, held: &RuleTable<A>) -> bool
    ensures { result ≡ has_free A.conflicts held.now (option_copied job.entry) }
{
    match job {
        Some(job) => held.is_free(&job.rule),
        None => false,
    }
}
