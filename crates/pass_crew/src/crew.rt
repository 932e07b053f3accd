//! Where scripts are run.
ghost use Rattle.std.specs.Prelude.{◌≡◌, ◌≤◌, ℕ, List, true, drop, length, map, IfErr, IfOk, OnErr, OnOk};
ghost use Rattle.core_event.specs.declared.entry.Entry.{Entry};
ghost use Rattle.pass_table.specs.Passes.{first_pass};
ghost use Rattle.ws_core.specs.Histories.{has_entered, replay, told_of};
ghost use Rattle.run_order.specs.Lists.{Begins, own};
ghost use Rattle.save_parts.specs.Heard.{HeardMore};
ghost use Rattle.phase_pool.specs.Passes.{LooksOn};
ghost use Rattle.pass_crew.specs.Passes.{LetsIn, Remains, TakesIn};

use crate::NoMemory;
use crate::stopped::Stays;
use phase_pool::Host;
use save_parts::{Listener, Listeners};
use std::alloc::Global;
use std::sync::Wait;

/// Where scripts are run: a place where phases are run, at which passes come and go, and whose entries may be told.
pub trait Crew: Host {
    /// The pass lets another in, which has seen as much: that is its next entry. Where memory wants it makes none.
    fn let_in<R: Wait>(
        &self,
        rt: &R,
        alloc: Global,
        pass: &mut Self::Pass,
    ) -> Result<Self::Pass, NoMemory>
        requires here { Self.here self.now pass.old }
        requires opened { (Self.opened self.now).manager.passes ≡ first_pass }
        ensures here { Self.here self.now pass.new × IfOk result (λ new. Self.here self.now new) }
        ensures let_in { IfOk result (λ new. LetsIn (Self.knows pass.old) (Self.knows pass.new) (Self.knows new)) }
        ensures nobody { OnErr result (LooksOn (Self.knows pass.old) (Self.knows pass.new)) };

    /// The other pass leaves, and is joined to this one, which has then seen what each of the two had. What holds of the other
    /// in what it had seen holds there. Where it doesn't leave it is given back: it may be busy, or memory wanted.
    fn take_in<R: Wait>(
        &self,
        rt: &R,
        alloc: Global,
        pass: &mut Self::Pass,
        other: Self::Pass,
    ) -> Result<(), (Stays, Self::Pass)>
        requires { Self.here self.now pass.old × Self.here self.now other }
        ensures here { Self.here self.now pass.new × IfErr result (λ e. Self.here self.now e.1) }
        ensures joined { OnOk result (TakesIn (Self.opened self.now) (Self.knows pass.old) (Self.knows other) (Self.knows pass.new)) }
        ensures good { OnOk result (Self.good self.now (Self.knows other).number (Self.knows pass.new).seen) }
        ensures looks { OnErr result (LooksOn (Self.knows pass.old) (Self.knows pass.new)) }
        ensures remains { IfErr result (λ e. Remains e.0 (Self.knows other) (Self.knows e.1)) };

    /// The listeners are told what the entries from this one on tell that the pass has seen then. Answers how many entries it
    /// has seen.
    fn tell<R: Wait, L: Listener>(
        &self,
        rt: &R,
        alloc: Global,
        pass: &mut Self::Pass,
        listeners: &mut Listeners<L>,
        from: u64,
    ) -> u64
        requires here { Self.here self.now pass.old }
        requires from { from ≤ length (Self.knows pass.old).seen }
        ensures here { Self.here self.now pass.new }
        ensures looked { LooksOn (Self.knows pass.old) (Self.knows pass.new) }
        ensures told { HeardMore (told_of (drop from (Self.knows pass.new).seen)) (map (λ l. L.heard l) listeners.old) (map (λ l. L.heard l) listeners.new) }
        ensures counted { result ≡ length (Self.knows pass.new).seen };

    // a pass that is here has entered, and hasn't left
    ghost here_there: { (w : Self) (p : Self.Pass) → Self.Host.here w p → has_entered (Self.Host.knows p).number (replay (Self.Host.opened w) (Self.Host.knows p).seen) ≡ true };

    // what holds of a pass holds still where it makes nothing
    ghost stays_good: { (w : Self) (k : ℕ) (g h : List Entry) → Self.Host.good w k g → Begins g h → own k h ≡ own k g → Self.Host.good w k h };
}
