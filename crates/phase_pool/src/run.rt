//! Phases by many workers, one after another.
ghost use Rattle.std.specs.Prelude.{◌≡◌, ◌<◌, ◌≤◌, ℕ, length, map, OnErr, OnOk};
ghost use Rattle.std.specs.List.{AllByRecursion};
ghost use Rattle.run_order.specs.Lists.{own};
ghost use Rattle.run_order.specs.Orders.{Phases};
ghost use Rattle.phase_pool.specs.Workers.{AllGoOn, LetIn, Together, hand};
ghost use Rattle.phase_pool.specs.Phases.{CutPhases};

use crate::NoMemory;
use crate::host::Host;
use crate::meeting::gather;
use crate::phase::run_phase;
use crate::worker::Worker;
use std::alloc::Global;
use std::sync::Wait;
use std::thread::Threads;

/// Runs the phases one after another, where all passes have met.
fn run_each<R: Threads + Wait + Sync, H: Host + Sync>(
    rt: &R,
    alloc: Global,
    host: &H,
    first: &mut H::Pass,
    workers: Vec<Worker<H::Pass>>,
    phases: &[H::Phase],
) -> (Vec<Worker<H::Pass>>, Result<(), NoMemory>)
where
    H::Pass: Send,
    H::Phase: Sync,
    requires some { 0 < length workers.items }
    requires here { H.here host.now first.old × AllByRecursion (λ w. H.here host.now w.pass) workers.items }
    requires together { Together (H.opened host.now) (H.knows first.old) (map (hand H.knows) workers.items) }
    requires all_go_on { AllGoOn (map (hand H.knows) workers.items) }
    ensures here { H.here host.now first.new × AllByRecursion (λ w. H.here host.now w.pass) result.0.items }
    ensures together { Together (H.opened host.now) (H.knows first.new) (map (hand H.knows) result.0.items) }
    ensures len { length result.0.items ≡ length workers.items }
    ensures whole { OnOk result.1 (Phases (H.makes host.now) (length workers.items) (H.opened host.now) (map (λ p. H.plan p) phases.now) (H.knows first.old).seen (H.knows first.new).seen) }
    ensures all_go_on { OnOk result.1 (AllGoOn (map (hand H.knows) result.0.items)) }
    ensures cut { OnErr result.1 (CutPhases (H.makes host.now) (length workers.items) (H.opened host.now) (map (λ p. H.plan p) phases.now) (H.knows first.old).seen (H.knows first.new).seen) }
{
    let mut workers = workers;
    for phase in phases {
        let (back, ran) = run_phase(rt, alloc, host, first, workers, phase);
        workers = back;
        match ran {
            Ok(()) => {}
            Err(error) => return (workers, Err(error)),
        }
    }
    (workers, Ok(()))
}

/// Runs the phases of a script one after another, by the workers whose passes pass 0 let in. Before and after each phase, and
/// in it after its jobs are scheduled, after the workers are done and after those that sleep are cancelled, pass 0 and each
/// worker's pass meet, both ways. The workers are given back, each in its place, and all passes have seen the same then.
///
/// Where memory wants in a phase that one is cut, and no other is begun. Then too all passes have seen the same, and each is
/// still one of the workspace's. What holds of a pass and what it has seen, and what it tells of its own entries, the passes
/// have at the end, whether the phases came to their end or not.
///
/// Nothing is said of how long it takes, nor that it ends.
pub fn run_phases<R: Threads + Wait + Sync, H: Host + Sync>(
    rt: &R,
    alloc: Global,
    host: &H,
    first: &mut H::Pass,
    workers: Vec<Worker<H::Pass>>,
    phases: &[H::Phase],
) -> (Vec<Worker<H::Pass>>, Result<(), NoMemory>)
where
    H::Pass: Send,
    H::Phase: Sync,
    requires some { 0 < length workers.items }
    requires here { H.here host.now first.old × AllByRecursion (λ w. H.here host.now w.pass) workers.items }
    requires let_in { LetIn (H.opened host.now) (H.knows first.old) (map (hand H.knows) workers.items) }
    requires all_go_on { AllGoOn (map (hand H.knows) workers.items) }
    ensures here { H.here host.now first.new × AllByRecursion (λ w. H.here host.now w.pass) result.0.items }
    ensures together { Together (H.opened host.now) (H.knows first.new) (map (hand H.knows) result.0.items) }
    ensures len { length result.0.items ≡ length workers.items }
    ensures whole { OnOk result.1 (Phases (H.makes host.now) (length workers.items) (H.opened host.now) (map (λ p. H.plan p) phases.now) (H.knows first.old).seen (H.knows first.new).seen) }
    ensures cut { OnErr result.1 (CutPhases (H.makes host.now) (length workers.items) (H.opened host.now) (map (λ p. H.plan p) phases.now) (H.knows first.old).seen (H.knows first.new).seen) }
    ensures good { (k : ℕ) → k ≤ length workers.items → H.good host.now k (H.knows first.new).seen }
    ensures zeroth_tells { H.tells host.now first.new (own 0 (H.knows first.new).seen) }
    ensures workers_tell { AllByRecursion (λ w. H.tells host.now w.pass (own (H.knows w.pass).number (H.knows first.new).seen)) result.0.items }
{
    let mut workers = workers;
    gather(host, first, &mut workers);
    run_each(rt, alloc, host, first, workers, phases)
}
