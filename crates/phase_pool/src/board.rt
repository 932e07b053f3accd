//! A phase, as the board of its workers.
ghost use Rattle.std.specs.Prelude.{◌≡◌, false, true};

use crate::host::Host;
use crate::worker::Worker;
use job_pool::Board;
use std::alloc::Global;
use std::sync::Wait;
use std::sync::atomic::{AtomicBool, Ordering};

/// The board of a phase.
#[derive(Drop)]
pub(crate) struct PhaseBoard<'a, H: Host> {
    pub(crate) host: &'a H,
    pub(crate) phase: &'a H::Phase,
    pub(crate) alloc: Global,
    /// Memory wanted for one of the workers.
    pub(crate) wanting: AtomicBool,
}

impl<'a, H: Host> PhaseBoard<'a, H> {
    /// The worker stops, and the board is told, so that the others stop too.
    fn stop(&self, worker: &mut Worker<H::Pass>)
        ensures pass { worker.new.pass ≡ worker.old.pass }
        ensures stopped { worker.new.stopped ≡ true }
    {
        worker.stopped = true;
        self.wanting.store(true, Ordering::SeqCst);
    }
}

impl<'a, H: Host> Board for PhaseBoard<'a, H>
where
    H::Pass: Send,
{
    ghost use Rattle.std.specs.Prelude.{◌≡◌, false};
    ghost use Rattle.job_queue.specs.Queues.{live};
    ghost use Rattle.ws_core.specs.Histories.{replay};
    ghost use Rattle.phase_pool.specs.Passes.{Makes};
    ghost use Rattle.phase_pool.specs.Parts.{IsTake};
    ghost use Rattle.phase_pool.specs.Inside.Going.{Went};
    ghost use Rattle.phase_pool.specs.Inside.Laws.{goes_itself, goes_further};

    type Worker = Worker<H::Pass>;

    type Job = H::Job;

    ghost ready = { λ b w. H.here b.host.now w.pass };

    ghost goes = { λ b v w. Makes (Went (H.makes b.host.now) (H.plan b.phase.now) (H.knows v.pass).number v.stopped w.stopped) (H.knows v.pass) (H.knows w.pass) };

    ghost took = { λ b v job w. (v.stopped ≡ false) × (w.stopped ≡ false) × Makes (IsTake (H.knows v.pass).number (H.name job)) (H.knows v.pass) (H.knows w.pass) };

    ghost over = { λ b w. w.stopped ≡ false → live (replay (H.opened b.host.now) (H.knows w.pass).seen).manager.jobs ≡ 0 };

    fn take<R: Wait>(&self, rt: &R, worker: &mut Worker<H::Pass>) -> Option<H::Job> {
        if worker.stopped {
            return None;
        }
        if self.wanting.load(Ordering::SeqCst) {
            worker.stopped = true;
            return None;
        }
        match self.host.take(rt, self.alloc, &mut worker.pass) {
            Ok(found) => found,
            Err(_) => {
                self.stop(worker);
                None
            }
        }
    }

    fn run<R: Wait>(&self, rt: &R, worker: &mut Worker<H::Pass>, job: H::Job) {
        match self.host.perform(
            rt,
            self.alloc,
            &mut worker.pass,
            self.phase,
            job,
            &self.wanting,
        ) {
            Ok(()) => {}
            Err(_) => self.stop(worker),
        }
    }

    fn ended<R: Wait>(&self, rt: &R, worker: &mut Worker<H::Pass>) -> bool {
        if worker.stopped {
            return true;
        }
        self.host.live_jobs(rt, self.alloc, &mut worker.pass) == 0
    }

    ghost stays = { λ b w. goes_itself (H.makes b.host.now) (H.plan b.phase.now) w.stopped (H.knows w.pass) };

    ghost goes_on = { λ b u v w p q. goes_further (H.makes b.host.now) (H.plan b.phase.now) u.stopped v.stopped w.stopped (H.knows u.pass) (H.knows v.pass) (H.knows w.pass) p q };
}
