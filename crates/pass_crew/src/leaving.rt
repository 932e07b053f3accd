//! Passes are taken in again.
ghost use Rattle.std.specs.Prelude.{◌≡◌, ◌<◌, ◌≤◌, ℕ, [], length, map, MatchResult, OnErr, OnOk};
ghost use Rattle.std.specs.List.{AllByRecursion};
ghost use Rattle.std.specs.Vec.{vec_capacity};
ghost use Rattle.run_order.specs.Fronts.{enters};
ghost use Rattle.run_order.specs.Lists.{Cut, Grew, own};
ghost use Rattle.run_order.specs.Orders.{Leaves};
ghost use Rattle.phase_pool.specs.Workers.{Together, hand};
ghost use Rattle.pass_crew.specs.Ends.{NoneIsThere};
ghost use Rattle.pass_crew.specs.Inside.Assembled.{Assembled, Ended, IsKept, LeftNone, LeftOne};
ghost use Rattle.pass_crew.specs.Inside.Telling.{Tells};

use crate::crew::Crew;
use crate::stopped::Stays;
use crate::telling::tell;
use phase_pool::{Worker, gather};
use save_parts::{Listener, Listeners};
use std::alloc::Global;
use std::sync::Wait;

/// The pass of the first worker leaves, and then all that are still there meet, both ways. Where it stays it is the last one
/// then.
fn leave_one<R: Wait, C: Crew>(
    rt: &R,
    alloc: Global,
    crew: &C,
    first: &mut C::Pass,
    workers: &mut Vec<Worker<C::Pass>>,
) -> Result<(), Stays>
    requires here { C.here crew.now first.old × AllByRecursion (λ w. C.here crew.now w.pass) workers.old.items }
    requires some { 0 < length workers.old.items }
    ensures here { C.here crew.now first.new × AllByRecursion (λ w. C.here crew.now w.pass) workers.new.items }
    ensures left { (n : ℕ) (gone : ℕ) → Assembled (IsKept (C.good crew.now) C.knows (C.tells crew.now)) (C.opened crew.now) n gone (C.knows first.old) (map (hand C.knows) workers.old.items)
        → MatchResult result (λ _. LeftOne (IsKept (C.good crew.now) C.knows (C.tells crew.now)) (C.opened crew.now) n gone (C.knows first.old) (C.knows first.new) (map (hand C.knows) workers.new.items))
        (λ _. LeftNone (IsKept (C.good crew.now) C.knows (C.tells crew.now)) n gone (C.knows first.old) (C.knows first.new) (map (hand C.knows) workers.new.items)) }
{
    let Worker { pass, stopped } = workers.remove(0);
    match crew.take_in(rt, alloc, first, pass) {
        Ok(()) => {
            gather(crew, first, workers);
            Ok(())
        }
        Err((why, pass)) => {
            workers.push_reserved(Worker { pass, stopped });
            gather(crew, first, workers);
            Err(why)
        }
    }
}

/// All passes leave, one after another, until one of them stays.
pub(crate) fn leave_all<R: Wait, C: Crew>(
    rt: &R,
    alloc: Global,
    crew: &C,
    first: &mut C::Pass,
    workers: &mut Vec<Worker<C::Pass>>,
) -> Result<(), Stays>
    requires here { C.here crew.now first.old × AllByRecursion (λ w. C.here crew.now w.pass) workers.old.items }
    requires assembled { Assembled (IsKept (C.good crew.now) C.knows (C.tells crew.now)) (C.opened crew.now) (length workers.old.items) 0 (C.knows first.old) (map (hand C.knows) workers.old.items) }
    ensures here { C.here crew.now first.new × AllByRecursion (λ w. C.here crew.now w.pass) workers.new.items }
    ensures all { OnOk result (Assembled (IsKept (C.good crew.now) C.knows (C.tells crew.now)) (C.opened crew.now) (length workers.old.items) (length workers.old.items) (C.knows first.new) (map (hand C.knows) workers.new.items)) }
    ensures leave { OnOk result (Grew (Leaves (length workers.old.items)) (C.knows first.old).seen (C.knows first.new).seen) }
    ensures ended { OnErr result (Ended (IsKept (C.good crew.now) C.knows (C.tells crew.now)) (length workers.old.items) (C.knows first.new) (map (hand C.knows) workers.new.items)) }
    ensures some_left { OnErr result (0 < length workers.new.items) }
    ensures cut { OnErr result (Grew (Cut (Leaves (length workers.old.items))) (C.knows first.old).seen (C.knows first.new).seen) }
{
    for _ in 0..workers.len() {
        leave_one(rt, alloc, crew, first, workers)?;
    }
    Ok(())
}

/// All passes leave, and what that told is told: all that was told before are so many entries. Those that are still there come
/// back.
pub(crate) fn leave_and_tell<R: Wait, C: Crew, L: Listener>(
    rt: &R,
    alloc: Global,
    crew: &C,
    first: &mut C::Pass,
    workers: Vec<Worker<C::Pass>>,
    listeners: &mut Listeners<L>,
    from: u64,
) -> (Vec<Worker<C::Pass>>, Result<(), Stays>)
    requires here { C.here crew.now first.old × AllByRecursion (λ w. C.here crew.now w.pass) workers.items }
    requires together { Together (C.opened crew.now) (C.knows first.old) (map (hand C.knows) workers.items) }
    requires from { from ≡ length (C.knows first.old).seen }
    ensures here { C.here crew.now first.new × AllByRecursion (λ w. C.here crew.now w.pass) result.0.items }
    ensures ended { Ended (IsKept (C.good crew.now) C.knows (C.tells crew.now)) (length workers.items) (C.knows first.new) (map (hand C.knows) result.0.items) }
    ensures leave { OnOk result.1 (Grew (Leaves (length workers.items)) (C.knows first.old).seen (C.knows first.new).seen) }
    ensures gone { OnOk result.1 (NoneIsThere (length workers.items) (C.opened crew.now) (C.knows first.new).seen) }
    ensures all_in { OnOk result.1 (enters (own 0 (C.knows first.new).seen) ≡ length workers.items) }
    ensures told { OnOk result.1 (Tells (C.knows first.old).seen (C.knows first.new).seen (map (λ l. L.heard l) listeners.old) (map (λ l. L.heard l) listeners.new)) }
    ensures cut { OnErr result.1 (Grew (Cut (Leaves (length workers.items))) (C.knows first.old).seen (C.knows first.new).seen) }
    ensures some_left { OnErr result.1 (0 < length result.0.items) }
    ensures quiet { OnErr result.1 (listeners.new ≡ listeners.old) }
{
    let mut workers = workers;
    match leave_all(rt, alloc, crew, first, &mut workers) {
        Ok(()) => {
            tell(rt, alloc, crew, first, &mut workers, listeners, from);
            (workers, Ok(()))
        }
        Err(why) => (workers, Err(why)),
    }
}

/// The passes of the workers, in their order. It takes no memory.
pub(crate) fn passes_of<P>(room: Vec<P>, workers: Vec<Worker<P>>) -> Vec<P>
where
    P: Drop,
    requires none { room.items ≡ [] }
    requires room { length workers.items ≤ vec_capacity room }
    ensures { result.items ≡ map (λ w. w.pass) workers.items }
{
    let mut passes = room;
    for worker in workers {
        passes.push_reserved(worker.pass);
    }
    passes
}
