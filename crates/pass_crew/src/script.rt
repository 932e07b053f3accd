//! A script is run.
ghost use Rattle.std.specs.Prelude.{◌≡◌, ◌⊎◌, ◌<◌, ◌≤◌, ℕ, [], true, length, map, IfErr, OnErr, OnOk};
ghost use Rattle.std.specs.List.{AllByRecursion};
ghost use Rattle.pass_table.specs.Passes.{first_pass};
ghost use Rattle.ws_core.specs.Histories.{has_entered, replay};
ghost use Rattle.run_order.specs.Fronts.{enters};
ghost use Rattle.run_order.specs.Lists.{own};
ghost use Rattle.run_order.specs.Orders.{CutShuffle, IsCutRun, IsRun, Shuffle};
ghost use Rattle.phase_pool.specs.Workers.{AllGoOn, Together, hand};
ghost use Rattle.pass_crew.specs.Ends.{NoneIsThere, OneIsThere};
ghost use Rattle.pass_crew.specs.Heard.{HeardAll, HeardFront};
ghost use Rattle.pass_crew.specs.Told.{HasTold};
ghost use Rattle.pass_crew.specs.Inside.Assembled.{Ended, IsKept};
ghost use Rattle.pass_crew.specs.Inside.Running.{GoesPartly, GoesThrough};
ghost use Rattle.pass_crew.specs.Inside.Telling.{Tells, TellsFront};

use crate::admitting::admit_all;
use crate::crew::Crew;
use crate::leaving::{leave_and_tell, passes_of};
use crate::phases::run_each;
use crate::stopped::{Stays, Stopped};
use crate::telling::tell;
use phase_pool::Worker;
use save_parts::{Listener, Listeners};
use std::alloc::Global;
use std::sync::Wait;
use std::thread::Threads;

/// The phases are run by the passes that were let in, and these are taken in again: all that was told before are so many
/// entries. Those that are still there come back.
fn run_through<R: Threads + Wait + Sync, C: Crew + Sync, L: Listener>(
    rt: &R,
    alloc: Global,
    crew: &C,
    first: &mut C::Pass,
    workers: Vec<Worker<C::Pass>>,
    listeners: &mut Listeners<L>,
    phases: &[C::Phase],
    from: u64,
) -> (Vec<Worker<C::Pass>>, Result<(), Stays>)
where
    C::Pass: Send,
    C::Phase: Sync,
    requires some { 0 < length workers.items }
    requires here { C.here crew.now first.old × AllByRecursion (λ w. C.here crew.now w.pass) workers.items }
    requires together { Together (C.opened crew.now) (C.knows first.old) (map (hand C.knows) workers.items) }
    requires all_go_on { AllGoOn (map (hand C.knows) workers.items) }
    requires from { from ≡ length (C.knows first.old).seen }
    ensures here { C.here crew.now first.new × AllByRecursion (λ w. C.here crew.now w.pass) result.0.items }
    ensures ended { Ended (IsKept (C.good crew.now) C.knows (C.tells crew.now)) (length workers.items) (C.knows first.new) (map (hand C.knows) result.0.items) }
    ensures whole { OnOk result.1 (GoesThrough (C.makes crew.now) (length workers.items) (C.opened crew.now) (map (λ p. C.plan p) phases.now) (C.knows first.old).seen (C.knows first.new).seen) }
    ensures gone { OnOk result.1 (NoneIsThere (length workers.items) (C.opened crew.now) (C.knows first.new).seen) }
    ensures all_in { OnOk result.1 (enters (own 0 (C.knows first.new).seen) ≡ length workers.items) }
    ensures told { OnOk result.1 (Tells (C.knows first.old).seen (C.knows first.new).seen (map (λ l. L.heard l) listeners.old) (map (λ l. L.heard l) listeners.new)) }
    ensures cut { OnErr result.1 (GoesPartly (C.makes crew.now) (length workers.items) (C.opened crew.now) (map (λ p. C.plan p) phases.now) (C.knows first.old).seen (C.knows first.new).seen) }
    ensures some_left { OnErr result.1 (0 < length result.0.items) }
    ensures told_some { OnErr result.1 (TellsFront (C.knows first.old).seen (C.knows first.new).seen (map (λ l. L.heard l) listeners.old) (map (λ l. L.heard l) listeners.new)) }
{
    let (workers, ran) = run_each(rt, alloc, crew, first, workers, listeners, phases, from);
    match ran {
        Ok(told) => leave_and_tell(rt, alloc, crew, first, workers, listeners, told),
        Err(_) => (workers, Err(Stays::Memory)),
    }
}

/// So many passes are let in, the phases are run by them, and they are taken in again. Those that are still there come back.
fn run_all<R: Threads + Wait + Sync, C: Crew + Sync, L: Listener>(
    rt: &R,
    alloc: Global,
    crew: &C,
    first: &mut C::Pass,
    listeners: &mut Listeners<L>,
    count: usize,
    phases: &[C::Phase],
) -> (Vec<Worker<C::Pass>>, Result<(), Stays>)
where
    C::Pass: Send,
    C::Phase: Sync,
    requires some { 0 < count }
    requires here { C.here crew.now first.old }
    requires zeroth { (C.knows first.old).number ≡ 0 }
    requires nothing_seen { (C.knows first.old).seen ≡ [] }
    requires opened { (C.opened crew.now).manager.passes ≡ first_pass }
    ensures here { C.here crew.now first.new × AllByRecursion (λ w. C.here crew.now w.pass) result.0.items }
    ensures ended { Ended (IsKept (C.good crew.now) C.knows (C.tells crew.now)) count (C.knows first.new) (map (hand C.knows) result.0.items) }
    ensures whole { OnOk result.1 (IsRun (C.makes crew.now) (C.opened crew.now) (map (λ p. C.plan p) phases.now) count (C.knows first.new).seen) }
    ensures gone { OnOk result.1 (NoneIsThere count (C.opened crew.now) (C.knows first.new).seen) }
    ensures all_in { OnOk result.1 (enters (own 0 (C.knows first.new).seen) ≡ count) }
    ensures told { OnOk result.1 (HeardAll (C.knows first.new).seen (map (λ l. L.heard l) listeners.old) (map (λ l. L.heard l) listeners.new)) }
    ensures cut { OnErr result.1 (IsCutRun (C.makes crew.now) (C.opened crew.now) (map (λ p. C.plan p) phases.now) count (C.knows first.new).seen) }
    ensures some_left { OnErr result.1 (((C.knows first.new).seen ≡ []) ⊎ (0 < length result.0.items)) }
    ensures told_some { OnErr result.1 (HeardFront (C.knows first.new).seen (map (λ l. L.heard l) listeners.old) (map (λ l. L.heard l) listeners.new)) }
{
    let mut workers = Vec::new(alloc);
    match admit_all(rt, alloc, crew, first, &mut workers, count) {
        Ok(()) => {
            let told = tell(rt, alloc, crew, first, &mut workers, listeners, 0);
            run_through(rt, alloc, crew, first, workers, listeners, phases, told)
        }
        Err(_) => (workers, Err(Stays::Memory)),
    }
}

/// Runs the phases of a script by so many workers, at a workspace that was just opened. Pass 0 lets in a pass for each, which
/// are numbered from 1 on; the phases are run one after another; and the passes are taken in again, in the order of their
/// numbers. Listeners are told after each of these what it told. Without a phase nothing is done.
///
/// The run stops early where memory wants, and where a pass that was to leave is busy. The passes that are still there come
/// back then, and the listeners were told what some beginning of the history tells. What holds of a pass and what it has seen
/// holds at the end of each that was let in, and so does what a pass tells of its own entries: of one that has left, what it
/// told of them before.
///
/// Nothing is said of how long it takes, nor that it ends.
pub fn run_script<R: Threads + Wait + Sync, C: Crew + Sync, L: Listener>(
    rt: &R,
    alloc: Global,
    crew: &C,
    first: &mut C::Pass,
    listeners: &mut Listeners<L>,
    workers: usize,
    phases: &[C::Phase],
) -> Result<(), Stopped<C::Pass>>
where
    C::Pass: Send + Drop,
    C::Phase: Sync,
    requires some { 0 < workers }
    requires here { C.here crew.now first.old }
    requires zeroth { (C.knows first.old).number ≡ 0 }
    requires nothing_seen { (C.knows first.old).seen ≡ [] }
    requires opened { (C.opened crew.now).manager.passes ≡ first_pass }
    ensures here { C.here crew.now first.new × IfErr result (λ e. AllByRecursion (λ p. C.here crew.now p) e.left.items) }
    ensures whole { OnOk result (Shuffle (C.makes crew.now) (C.opened crew.now) (map (λ p. C.plan p) phases.now) workers (C.knows first.new).seen) }
    ensures gone { OnOk result (NoneIsThere workers (C.opened crew.now) (C.knows first.new).seen) }
    ensures all_in { OnOk result ((phases.now ≡ []) ⊎ (enters (own 0 (C.knows first.new).seen) ≡ workers)) }
    ensures told { OnOk result (HeardAll (C.knows first.new).seen (map (λ l. L.heard l) listeners.old) (map (λ l. L.heard l) listeners.new)) }
    ensures cut { OnErr result (CutShuffle (C.makes crew.now) (C.opened crew.now) (map (λ p. C.plan p) phases.now) workers (C.knows first.new).seen) }
    ensures there { OnErr result (((C.knows first.new).seen ≡ []) ⊎ OneIsThere workers (C.opened crew.now) (C.knows first.new).seen) }
    ensures left_there { IfErr result (λ e. AllByRecursion (λ p. has_entered (C.knows p).number (replay (C.opened crew.now) (C.knows first.new).seen) ≡ true) e.left.items) }
    ensures told_some { OnErr result (HeardFront (C.knows first.new).seen (map (λ l. L.heard l) listeners.old) (map (λ l. L.heard l) listeners.new)) }
    ensures good { (k : ℕ) → k ≤ enters (own 0 (C.knows first.new).seen) → C.good crew.now k (C.knows first.new).seen }
    ensures zeroth_tells { C.tells crew.now first.new (own 0 (C.knows first.new).seen) }
    ensures told_own { (k : ℕ) → 0 < k → k ≤ enters (own 0 (C.knows first.new).seen) → HasTold C.knows (C.tells crew.now) k (C.knows first.new).seen }
    ensures left_tell { IfErr result (λ e. AllByRecursion (λ p. C.tells crew.now p (own (C.knows p).number (C.knows first.new).seen)) e.left.items) }
{
    if phases.is_empty() {
        return Ok(());
    }
    let room = match Vec::with_capacity(alloc, workers) {
        Ok(room) => room,
        Err(_) => {
            return Err(Stopped {
                why: Stays::Memory,
                left: Vec::new(alloc),
            });
        }
    };
    let (crowd, ran) = run_all(rt, alloc, crew, first, listeners, workers, phases);
    match ran {
        Ok(()) => Ok(()),
        Err(why) => Err(Stopped {
            why,
            left: passes_of(room, crowd),
        }),
    }
}
