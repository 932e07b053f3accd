//! Phases are run, one after another, and told.
ghost use Rattle.std.specs.Prelude.{◌≡◌, ◌<◌, length, map, IfOk, OnErr, OnOk};
ghost use Rattle.std.specs.List.{AllByRecursion};
ghost use Rattle.ws_core.specs.Histories.{replay};
ghost use Rattle.run_order.specs.Orders.{IsCutPhase, IsPhase, Phases};
ghost use Rattle.phase_pool.specs.Phases.{Came, CutPhases};
ghost use Rattle.phase_pool.specs.Workers.{AllGoOn, Together, hand};
ghost use Rattle.pass_crew.specs.Inside.Telling.{Tells, TellsFront};

use crate::NoMemory;
use crate::crew::Crew;
use crate::telling::tell;
use phase_pool::{Worker, run_phase};
use save_parts::{Listener, Listeners};
use std::alloc::Global;
use std::sync::Wait;
use std::thread::Threads;

/// A phase is run, and then what it told is told: all that was told before are so many entries. Answers how many there are then.
fn run_and_tell<R: Threads + Wait + Sync, C: Crew + Sync, L: Listener>(
    rt: &R,
    alloc: Global,
    crew: &C,
    first: &mut C::Pass,
    workers: Vec<Worker<C::Pass>>,
    listeners: &mut Listeners<L>,
    phase: &C::Phase,
    from: u64,
) -> (Vec<Worker<C::Pass>>, Result<u64, NoMemory>)
where
    C::Pass: Send,
    C::Phase: Sync,
    requires some { 0 < length workers.items }
    requires here { C.here crew.now first.old × AllByRecursion (λ w. C.here crew.now w.pass) workers.items }
    requires together { Together (C.opened crew.now) (C.knows first.old) (map (hand C.knows) workers.items) }
    requires all_go_on { AllGoOn (map (hand C.knows) workers.items) }
    requires from { from ≡ length (C.knows first.old).seen }
    ensures here { C.here crew.now first.new × AllByRecursion (λ w. C.here crew.now w.pass) result.0.items }
    ensures whole { OnOk result.1 (Came (C.opened crew.now) (IsPhase (C.makes crew.now) (length workers.items) (C.plan phase.now) (replay (C.opened crew.now) (C.knows first.old).seen)) (C.knows first.old) (map (hand C.knows) workers.items) (C.knows first.new) (map (hand C.knows) result.0.items)) }
    ensures all_go_on { OnOk result.1 (AllGoOn (map (hand C.knows) result.0.items)) }
    ensures told { OnOk result.1 (Tells (C.knows first.old).seen (C.knows first.new).seen (map (λ l. L.heard l) listeners.old) (map (λ l. L.heard l) listeners.new)) }
    ensures counted { IfOk result.1 (λ count. count ≡ length (C.knows first.new).seen) }
    ensures cut { OnErr result.1 (Came (C.opened crew.now) (IsCutPhase (C.makes crew.now) (length workers.items) (C.plan phase.now) (replay (C.opened crew.now) (C.knows first.old).seen)) (C.knows first.old) (map (hand C.knows) workers.items) (C.knows first.new) (map (hand C.knows) result.0.items)) }
    ensures quiet { OnErr result.1 (listeners.new ≡ listeners.old) }
{
    let (mut workers, ran) = run_phase(rt, alloc, crew, first, workers, phase);
    match ran {
        Ok(()) => {
            let count = tell(rt, alloc, crew, first, &mut workers, listeners, from);
            (workers, Ok(count))
        }
        Err(error) => (workers, Err(error)),
    }
}

/// The phases are run, one after another, and each is told behind it: all that was told before are so many entries. Answers how
/// many there are at the end.
pub(crate) fn run_each<R: Threads + Wait + Sync, C: Crew + Sync, L: Listener>(
    rt: &R,
    alloc: Global,
    crew: &C,
    first: &mut C::Pass,
    workers: Vec<Worker<C::Pass>>,
    listeners: &mut Listeners<L>,
    phases: &[C::Phase],
    from: u64,
) -> (Vec<Worker<C::Pass>>, Result<u64, NoMemory>)
where
    C::Pass: Send,
    C::Phase: Sync,
    requires some { 0 < length workers.items }
    requires here { C.here crew.now first.old × AllByRecursion (λ w. C.here crew.now w.pass) workers.items }
    requires together { Together (C.opened crew.now) (C.knows first.old) (map (hand C.knows) workers.items) }
    requires all_go_on { AllGoOn (map (hand C.knows) workers.items) }
    requires from { from ≡ length (C.knows first.old).seen }
    ensures here { C.here crew.now first.new × AllByRecursion (λ w. C.here crew.now w.pass) result.0.items }
    ensures together { Together (C.opened crew.now) (C.knows first.new) (map (hand C.knows) result.0.items) }
    ensures len { length result.0.items ≡ length workers.items }
    ensures whole { OnOk result.1 (Phases (C.makes crew.now) (length workers.items) (C.opened crew.now) (map (λ p. C.plan p) phases.now) (C.knows first.old).seen (C.knows first.new).seen) }
    ensures told { OnOk result.1 (Tells (C.knows first.old).seen (C.knows first.new).seen (map (λ l. L.heard l) listeners.old) (map (λ l. L.heard l) listeners.new)) }
    ensures counted { IfOk result.1 (λ count. count ≡ length (C.knows first.new).seen) }
    ensures cut { OnErr result.1 (CutPhases (C.makes crew.now) (length workers.items) (C.opened crew.now) (map (λ p. C.plan p) phases.now) (C.knows first.old).seen (C.knows first.new).seen) }
    ensures told_some { OnErr result.1 (TellsFront (C.knows first.old).seen (C.knows first.new).seen (map (λ l. L.heard l) listeners.old) (map (λ l. L.heard l) listeners.new)) }
{
    let mut workers = workers;
    let mut count = from;
    for phase in phases {
        let (back, ran) = run_and_tell(rt, alloc, crew, first, workers, listeners, phase, count);
        workers = back;
        match ran {
            Ok(told) => count = told,
            Err(error) => return (workers, Err(error)),
        }
    }
    (workers, Ok(count))
}
