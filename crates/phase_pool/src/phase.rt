//! A phase by many workers.
ghost use Rattle.std.specs.Prelude.{◌≡◌, ◌<◌, length, map, OnErr, OnOk};
ghost use Rattle.std.specs.List.{AllByRecursion, list_any};
ghost use Rattle.job_pool.specs.Workers.{Pairs};
ghost use Rattle.ws_core.specs.Histories.{replay};
ghost use Rattle.run_order.specs.Orders.{IsCutPhase, IsPhase};
ghost use Rattle.phase_pool.specs.Workers.{AllGoOn, Together, hand};
ghost use Rattle.phase_pool.specs.Phases.{Came};
ghost use Rattle.phase_pool.specs.Inside.Going.{Works};

use crate::NoMemory;
use crate::board::PhaseBoard;
use crate::host::Host;
use crate::meeting::gather;
use crate::worker::Worker;
use std::alloc::{AllocError, Global};
use std::sync::Wait;
use std::sync::atomic::AtomicBool;
use std::thread::Threads;

/// The workers take jobs of the phase, do them and finish them, until no job waits or is run, or one of them finds no memory.
fn work<R: Threads + Wait + Sync, H: Host + Sync>(
    rt: &R,
    alloc: Global,
    host: &H,
    workers: Vec<Worker<H::Pass>>,
    phase: &H::Phase,
) -> Vec<Worker<H::Pass>>
where
    H::Pass: Send,
    H::Phase: Sync,
    requires { AllByRecursion (λ w. H.here host.now w.pass) workers.items }
    ensures here { AllByRecursion (λ w. H.here host.now w.pass) result.items }
    ensures worked { Pairs (Works (H.makes host.now) (H.plan phase.now) (H.opened host.now)) (map (hand H.knows) workers.items) (map (hand H.knows) result.items) }
{
    let board = PhaseBoard {
        host,
        phase,
        alloc,
        wanting: AtomicBool::new(false),
    };
    job_pool::run_phase(rt, &board, workers)
}

/// Whether one of the workers has stopped.
fn has_stopped<P>(workers: &Vec<Worker<P>>) -> bool
    ensures { result ≡ list_any (λ w. w.stopped) workers.now.items }
{
    workers.iter().any(|worker| worker.stopped)
}

/// Runs a phase, where all passes have met: pass 0 schedules its jobs, the workers take, do and finish them until no job
/// waits or is run, and pass 0 cancels those that sleep. Between these, and at the end, all passes meet, both ways. The
/// workers are given back, each in its place.
///
/// Where memory wants, pass 0 or the worker for which it does stops where it is, and each other worker at the latest before it
/// takes the next job. The passes have met then too.
///
/// Nothing is said of how long it takes, nor that it ends.
pub fn run_phase<R: Threads + Wait + Sync, H: Host + Sync>(
    rt: &R,
    alloc: Global,
    host: &H,
    first: &mut H::Pass,
    workers: Vec<Worker<H::Pass>>,
    phase: &H::Phase,
) -> (Vec<Worker<H::Pass>>, Result<(), NoMemory>)
where
    H::Pass: Send,
    H::Phase: Sync,
    requires some { 0 < length workers.items }
    requires here { H.here host.now first.old × AllByRecursion (λ w. H.here host.now w.pass) workers.items }
    requires together { Together (H.opened host.now) (H.knows first.old) (map (hand H.knows) workers.items) }
    requires all_go_on { AllGoOn (map (hand H.knows) workers.items) }
    ensures here { H.here host.now first.new × AllByRecursion (λ w. H.here host.now w.pass) result.0.items }
    ensures whole { OnOk result.1 (Came (H.opened host.now) (IsPhase (H.makes host.now) (length workers.items) (H.plan phase.now) (replay (H.opened host.now) (H.knows first.old).seen)) (H.knows first.old) (map (hand H.knows) workers.items) (H.knows first.new) (map (hand H.knows) result.0.items)) }
    ensures all_go_on { OnOk result.1 (AllGoOn (map (hand H.knows) result.0.items)) }
    ensures cut { OnErr result.1 (Came (H.opened host.now) (IsCutPhase (H.makes host.now) (length workers.items) (H.plan phase.now) (replay (H.opened host.now) (H.knows first.old).seen)) (H.knows first.old) (map (hand H.knows) workers.items) (H.knows first.new) (map (hand H.knows) result.0.items)) }
{
    let mut workers = workers;
    match host.schedule(rt, alloc, first, phase) {
        Ok(()) => {}
        Err(error) => {
            gather(host, first, &mut workers);
            return (workers, Err(error));
        }
    }
    gather(host, first, &mut workers);
    let mut workers = work(rt, alloc, host, workers, phase);
    gather(host, first, &mut workers);
    if has_stopped(&workers) {
        return (workers, Err(AllocError));
    }
    let cancelled = host.cancel(rt, alloc, first, phase);
    gather(host, first, &mut workers);
    (workers, cancelled)
}
