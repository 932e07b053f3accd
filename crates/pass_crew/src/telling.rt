//! Listeners are told.
ghost use Rattle.std.specs.Prelude.{◌≡◌, ◌<◌, ◌≤◌, ℕ, drop, length, map};
ghost use Rattle.std.specs.List.{AllByRecursion};
ghost use Rattle.ws_core.specs.Histories.{told_of};
ghost use Rattle.save_parts.specs.Heard.{HeardMore};
ghost use Rattle.phase_pool.specs.Workers.{AllGoOn, hand};
ghost use Rattle.pass_crew.specs.Inside.Assembled.{Assembled, IsKept};

use crate::crew::Crew;
use phase_pool::{Worker, gather};
use save_parts::{Listener, Listeners};
use std::alloc::Global;
use std::sync::Wait;

/// Listeners are told what the entries from this one on tell, and all passes meet, where they had met before. Answers how many
/// entries there are.
pub(crate) fn tell<R: Wait, C: Crew, L: Listener>(
    rt: &R,
    alloc: Global,
    crew: &C,
    first: &mut C::Pass,
    workers: &mut Vec<Worker<C::Pass>>,
    listeners: &mut Listeners<L>,
    from: u64,
) -> u64
    requires here { C.here crew.now first.old × AllByRecursion (λ w. C.here crew.now w.pass) workers.old.items }
    requires assembled { (n : ℕ) × (gone : ℕ) × Assembled (IsKept (C.good crew.now) C.knows (C.tells crew.now)) (C.opened crew.now) n gone (C.knows first.old) (map (hand C.knows) workers.old.items) }
    requires from { from ≤ length (C.knows first.old).seen }
    ensures here { C.here crew.now first.new × AllByRecursion (λ w. C.here crew.now w.pass) workers.new.items }
    ensures assembled { (n : ℕ) (gone : ℕ) → Assembled (IsKept (C.good crew.now) C.knows (C.tells crew.now)) (C.opened crew.now) n gone (C.knows first.old) (map (hand C.knows) workers.old.items)
        → Assembled (IsKept (C.good crew.now) C.knows (C.tells crew.now)) (C.opened crew.now) n gone (C.knows first.new) (map (hand C.knows) workers.new.items) }
    ensures same { (C.knows first.new).seen ≡ (C.knows first.old).seen }
    ensures go_on { AllGoOn (map (hand C.knows) workers.old.items) → AllGoOn (map (hand C.knows) workers.new.items) }
    ensures told { HeardMore (told_of (drop from (C.knows first.new).seen)) (map (λ l. L.heard l) listeners.old) (map (λ l. L.heard l) listeners.new) }
    ensures counted { result ≡ length (C.knows first.new).seen }
{
    let count = crew.tell(rt, alloc, first, listeners, from);
    gather(crew, first, workers);
    count
}
