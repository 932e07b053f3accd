//! Any event but an operation.
ghost use Rattle.std.specs.Prelude.{◌≡◌, true, false, None, IfOk, IsOk, OnOk, OnErr};
ghost use Rattle.job_manager.specs.Ends.{EndsLast};
ghost use Rattle.core_event.specs.declared.event.Event.TheVariants.{EndBatch, Finish};
ghost use Rattle.pass_table.specs.Passes.{has_pass, is_quiet};
ghost use Rattle.job_manager.specs.Batches.{closes, IsRun};
ghost use Rattle.job_manager.specs.Refusals.{refusal};
ghost use Rattle.core_event.specs.Twice.{twice, doubled};
ghost use Rattle.job_manager.specs.Effects.{effect, outcome};

use crate::{JobManager, NoMemory};
use core_event::{Answer, Event, Refusal, Twice, done_twice};
use job_queue::JobState;
use std::alloc::{AllocError, Global};

impl JobManager {
    /// Does the event of the pass, or refuses it with the first cause in the order of its list, and gives the answer. A
    /// refused event changes nothing; an operation is none of these events, nor is what concerns the services, and neither
    /// changes anything. Where memory wants, all is as before; it never wants where the pass ends the rule that it began last.
    ///
    /// Costs a look at the held rules, and for `Take` one at the jobs that wait, in turn.
    pub fn act(
        &mut self,
        alloc: Global,
        pass: u64,
        event: &Event,
        wants_copy: bool,
    ) -> Result<Twice<Answer>, NoMemory>
        requires { has_pass self.old.passes pass ≡ true }
        ensures ok { IfOk result (λ answer. (self.new, answer) ≡ doubled wants_copy (outcome self.old pass event.now)) }
        ensures err { OnErr result (self.new ≡ self.old) }
        ensures never { EndsLast self.old.passes.rules pass event.now → IsOk result }
        ensures busy { OnOk result (closes event.now ≡ false → is_quiet self.old.passes ≡ false → is_quiet self.new.passes ≡ false) }
    {
        match event {
            Event::Enter => self.enter(wants_copy),
            Event::Leave => self.leave(alloc, pass, wants_copy),
            Event::Schedule(name, priority, rule, asleep) => {
                self.schedule(alloc, pass, name, *priority, rule, *asleep, wants_copy)
            }
            Event::Sleep(name) => self.sleep(alloc, pass, name, wants_copy),
            Event::Wake(name) => self.wake(alloc, pass, name, wants_copy),
            Event::Cancel(name) => self.cancel(alloc, pass, name, wants_copy),
            Event::Take => self.take(alloc, pass, wants_copy),
            Event::Finish => self.finish(alloc, pass, wants_copy),
            Event::Begin(rule) | Event::TryBegin(rule) => self.begin(alloc, pass, rule, wants_copy),
            Event::End(rule) => self.end(alloc, pass, rule, wants_copy),
            Event::Transfer(to) => self.transfer(alloc, pass, *to, wants_copy),
            Event::Batch => self.begin_batch(pass, wants_copy),
            Event::EndBatch => self.end_batch(alloc, pass, wants_copy),
            Event::Checkpoint | Event::Operation(_) | Event::Service(_) => {
                Ok(done_twice(wants_copy))
            }
        }
    }

    /// Whether no batch is open once the event is done, or refused, which may close batches of the pass.
    pub fn will_be_quiet(&self, pass: u64, event: &Event) -> bool
        requires { closes event.now ≡ true }
        ensures { result ≡ is_quiet (outcome self.now pass event.now).0.passes }
    {
        match event {
            Event::EndBatch => self.is_quiet_after_batch(pass),
            Event::Finish => self.is_quiet_after_job(pass),
            Event::Enter
            | Event::Leave
            | Event::Schedule(_, _, _, _)
            | Event::Sleep(_)
            | Event::Wake(_)
            | Event::Cancel(_)
            | Event::Take
            | Event::Begin(_)
            | Event::TryBegin(_)
            | Event::End(_)
            | Event::Transfer(_)
            | Event::Batch
            | Event::Checkpoint
            | Event::Operation(_)
            | Event::Service(_) => unreachable!(),
        }
    }

    /// Why an event that closes batches is refused, if it is. It is want of memory where the pass's job isn't one that is
    /// run, which no event brings about.
    pub fn closing_refusal(&self, pass: u64, event: &Event) -> Result<Option<Refusal>, NoMemory>
        requires { closes event.now ≡ true }
        ensures refusal { IfOk result (λ r. r ≡ refusal self.now pass event.now) }
        ensures runs { OnOk result (IsRun self.now pass) }
    {
        if !self.is_run(pass) {
            return Err(AllocError);
        }
        if matches!(event, Event::EndBatch) {
            return Ok(self.batch_refusal(pass));
        }
        Ok(self.finish_refusal(pass))
    }

    /// Whether the job that the pass runs, if it runs one, is one that is run.
    fn is_run(&self, pass: u64) -> bool
        ensures { result ≡ true → IsRun self.now pass }
    {
        match self.passes.job(pass) {
            None => true,
            Some(name) => self.jobs.is_running(name),
        }
    }

    fn batch_refusal(&self, pass: u64) -> Option<Refusal>
        ensures { result ≡ refusal self.now pass EndBatch }
    {
        if self.passes.batches(pass) == 0 {
            return Some(Refusal::NoBatch);
        }
        None
    }

    fn finish_refusal(&self, pass: u64) -> Option<Refusal>
        ensures { result ≡ refusal self.now pass Finish }
    {
        if self.passes.job(pass).is_none() {
            return Some(Refusal::WrongState(JobState::None));
        }
        None
    }

    /// Does an event that closes batches and isn't refused. It takes no memory.
    pub fn close(&mut self, pass: u64, event: &Event)
        requires closes { closes event.now ≡ true }
        requires allowed { refusal self.old pass event.now ≡ None }
        requires runs { IsRun self.old pass }
        ensures { self.new ≡ (effect self.old pass event.now).0 }
    {
        if matches!(event, Event::EndBatch) {
            self.close_batch(pass);
        } else {
            self.close_job(pass);
        }
    }

    fn close_batch(&mut self, pass: u64)
        requires { refusal self.old pass EndBatch ≡ None }
        ensures { self.new ≡ (effect self.old pass EndBatch).0 }
    {
        match self.passes.end_batch(pass) {
            Ok(()) => {}
            Err(_) => unreachable!(),
        }
    }

    fn close_job(&mut self, pass: u64)
        requires allowed { refusal self.old pass Finish ≡ None }
        requires runs { IsRun self.old pass }
        ensures { self.new ≡ (effect self.old pass Finish).0 }
    {
        let Some(name) = self.passes.job(pass) else {
            unreachable!();
        };
        match self.jobs.finish(name) {
            Ok(()) => {
                self.passes.finish(pass);
            }
            Err(_) => unreachable!(),
        }
    }

    fn is_quiet_after_batch(&self, pass: u64) -> bool
        ensures { result ≡ is_quiet (outcome self.now pass EndBatch).0.passes }
    {
        if self.passes.batches(pass) == 0 {
            return self.passes.is_quiet();
        }
        self.passes.is_last_batch(pass)
    }

    fn is_quiet_after_job(&self, pass: u64) -> bool
        ensures { result ≡ is_quiet (outcome self.now pass Finish).0.passes }
    {
        if self.passes.job(pass).is_none() {
            return self.passes.is_quiet();
        }
        self.passes.is_quiet_beside(pass)
    }
}

/// Whether the event closes batches of its pass, where it isn't refused.
pub fn closes(event: &Event) -> bool
    ensures { result ≡ closes event.now }
{
    matches!(event, Event::Finish | Event::EndBatch)
}
