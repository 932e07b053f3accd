//! What a pass asks of the jobs, in one turn.
ghost use Rattle.std.specs.Prelude.{◌≡◌, ◌++◌, List, filter, true};
ghost use Rattle.core_event.specs.declared.entry.Entry.{Entry};
ghost use Rattle.job_queue.specs.Queues.{state_of};
ghost use Rattle.run_order.specs.Orders.{is_asleep, sleeps};
ghost use Rattle.ws_locked.specs.Jobs.{job_given};

use crate::Locked;
use crate::vow::Vow;
use builder_api::Builder;
use core_event::{Answer, Event};
use job_manager::JobManager;
use job_queue::JobQueue;
use pass_turns::Deed;
use res_path::{Name, NoMemory};
use save_round::Participant;
use sched_rules::WsAtom;
use std::alloc::Global;
use std::mem;
use ws_outside::Disk;

/// The job that comes next is to be taken, if the pass may take one and one may be run now.
#[derive(Drop)]
pub struct TakeJob;

impl<D: Disk, B: Builder, P: Participant, V: Vow> Deed<Locked<D, B, P, V>> for TakeJob {
    ghost use Rattle.ws_locked.specs.Jobs.{HasTakenJob};

    type Answer = Result<Option<Name>, NoMemory>;

    ghost may = { λ a o n found. Unit {0} };

    ghost did = { λ a b o n found added answer. HasTakenJob o.core.value.opened n found added answer };

    fn make(
        &mut self,
        alloc: Global,
        machine: &mut Locked<D, B, P, V>,
        pass: u64,
    ) -> Result<Option<Name>, NoMemory> {
        machine.take_job(alloc, pass)
    }
}

/// Of these names those of jobs that sleep are asked, in their order.
#[derive(Drop)]
pub struct Asleep {
    pub names: Vec<Name>,
}

impl<D: Disk, B: Builder, P: Participant, V: Vow> Deed<Locked<D, B, P, V>> for Asleep {
    ghost use Rattle.ws_locked.specs.Jobs.{WereAsleep};

    type Answer = Vec<Name>;

    ghost may = { λ a o n found. Unit {0} };

    ghost did = { λ a b o n found added answer. WereAsleep a.names.items o.core.value.opened n found added answer.items };

    fn make(&mut self, alloc: Global, machine: &mut Locked<D, B, P, V>, pass: u64) -> Vec<Name> {
        let _ = pass;
        machine.keep_asleep(&mut self.names);
        mem::replace(&mut self.names, Vec::new(alloc))
    }
}

impl<D: Disk, B: Builder, P: Participant, V: Vow> Locked<D, B, P, V> {
    ghost use Rattle.pass_history.specs.There.{is_there};
    ghost use Rattle.ws_core.specs.Histories.{replay};
    ghost use Rattle.ws_locked.specs.Halls.{opened_in};
    ghost use Rattle.ws_locked.specs.Jobs.{HasTakenJob};

    /// The pass takes the job that comes next, if it isn't busy and one may be run now. Else nothing is done, nor where memory
    /// wants.
    fn take_job(&mut self, alloc: Global, pass: u64) -> Result<Option<Name>, NoMemory>
        requires there { is_there (opened_in self.old) self.old.core.history pass ≡ true }
        ensures opening { self.new.opening ≡ self.old.opening }
        ensures taken { (added : List Entry) × (self.new.core.history ≡ self.old.core.history ++ added) × HasTakenJob (opened_in self.old) pass self.old.core.history added result }
    {
        if self.manager().passes.is_busy(pass) {
            return Ok(None);
        }
        let reply = self.ask(alloc, pass, Event::Take)?;
        Ok(job_in(reply.answer))
    }

    /// Of the names those of jobs that sleep are left, in their order. It takes no memory.
    fn keep_asleep(&self, names: &mut Vec<Name>)
        ensures { names.new.items ≡ filter (λ name. sleeps (replay (opened_in self.now) self.now.core.history) name) names.old.items }
    {
        let jobs = &self.manager().jobs;
        names.retain(|name| is_asleep(jobs, name));
    }

    /// The jobs, and the passes with what each has.
    fn manager(&self) -> &JobManager
        ensures { result.now ≡ (replay (opened_in self.now) self.now.core.history).manager }
    {
        self.hold.core.state().manager()
    }
}

/// Whether the job of this name sleeps.
fn is_asleep(jobs: &JobQueue<WsAtom>, name: &Name) -> bool
    ensures { result ≡ is_asleep (state_of jobs.now name.now) }
{
    match jobs.state(name) {
        Some(state) => state.is_sleeping(),
        None => false,
    }
}

/// The name of the job that the answer gives, if it gives one.
fn job_in(answer: Answer) -> Option<Name>
    ensures { result ≡ job_given answer }
{
    match answer {
        Answer::Job(name) => Some(name.into_value()),
        other => {
            drop(other);
            None
        }
    }
}
