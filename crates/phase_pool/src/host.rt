//! Where phases are run.
ghost use Rattle.std.specs.Prelude.{◌≡◌, ℕ, List, map, IfOk, OnErr, OnOk};
ghost use Rattle.core_event.specs.declared.entry.Entry.{Entry};
ghost use Rattle.job_queue.specs.Queues.{live};
ghost use Rattle.ws_core.specs.States.{Moment};
ghost use Rattle.ws_core.specs.Histories.{Legal, replay};
ghost use Rattle.run_order.specs.Lists.{acts, own, Cut};
ghost use Rattle.run_order.specs.Plans.{JobPlan, commands_of};
ghost use Rattle.run_order.specs.Orders.{cancelled, scheduled, sleepers};
ghost use Rattle.run_order.specs.Fronts.{enters};
ghost use Rattle.phase_pool.specs.Passes.{Finds, Known, LooksOn, Makes, Meets};
ghost use Rattle.phase_pool.specs.Parts.{HasTaken, IsRest, IsTake};

use crate::NoMemory;
use std::alloc::Global;
use std::sync::Wait;
use std::sync::atomic::AtomicBool;

/// Where phases are run: a workspace that passes share, each of which has seen a beginning of one history. Its calls may wait
/// for others, but for `meet`, and others may make entries while one of them is made.
///
/// Whatever else holds of a pass between two calls, the host keeps in `here`: so a property of what a pass has seen and what
/// a pass tells of its own entries hold wherever it is here.
pub trait Host {
    type Pass;

    type Phase;

    type Job;

    type Command;

    // the state with which the workspace was opened
    ghost opened: { Self → Moment };

    // what contracts see of a pass
    ghost knows: { Self.Pass → Known };

    // the pass is one of the workspace's
    ghost here: { Self → Self.Pass → Type 0 };

    // the jobs of a phase, in text order
    ghost plan: { Self.Phase → List (JobPlan Self.Command) };

    // the name of a job that was taken
    ghost name: { Self.Job → List ℕ };

    // the entries that the pass of this number makes of a command
    ghost makes: { Self → ℕ → Self.Command → List Entry → Type 0 };

    // what holds of the pass of this number and a history that it has seen
    ghost good: { Self → ℕ → List Entry → Type 0 };

    // what the pass tells of its own entries
    ghost tells: { Self → Self.Pass → List Entry → Type 0 };

    ghost here_legal: { (w : Self) (p : Self.Pass) → here w p → Legal (opened w) (knows p).seen };

    ghost here_good: { (w : Self) (p : Self.Pass) → here w p → good w (knows p).number (knows p).seen };

    ghost here_tells: { (w : Self) (p : Self.Pass) → here w p → tells w p (own (knows p).number (knows p).seen) };

    // no command lets a pass in
    ghost lets_none_in: { (w : Self) (k : ℕ) (c : Self.Command) (h : List Entry) → makes w k c h → enters h ≡ 0 };

    /// The pass takes the job that comes next, if one may be run now: that is its next entry. Else it makes none, nor where
    /// memory wants.
    fn take<R: Wait>(
        &self,
        rt: &R,
        alloc: Global,
        pass: &mut Self::Pass,
    ) -> Result<Option<Self::Job>, NoMemory>
        requires { here self.now pass.old }
        ensures here { here self.now pass.new }
        ensures taken { IfOk result (λ o. HasTaken name o (knows pass.old) (knows pass.new)) }
        ensures nothing { OnErr result (LooksOn (knows pass.old) (knows pass.new)) };

    /// The pass does the commands of the job of the phase that it took, each once and in order, and finishes it. Where memory
    /// wants it stops where it is. So it may where `stop` is set too, since memory wanted for another pass: what it waits for
    /// may be what that one has.
    fn perform<R: Wait>(
        &self,
        rt: &R,
        alloc: Global,
        pass: &mut Self::Pass,
        phase: &Self::Phase,
        job: Self::Job,
        stop: &AtomicBool,
    ) -> Result<(), NoMemory>
        requires here { here self.now pass.old }
        requires took { (before : Known) × Makes (IsTake before.number (name job)) before (knows pass.old) }
        ensures here { here self.now pass.new }
        ensures done { OnOk result (Makes (IsRest (makes self.now) (knows pass.old).number (commands_of (plan phase.now) (name job))) (knows pass.old) (knows pass.new)) }
        ensures cut { OnErr result (Makes (Cut (IsRest (makes self.now) (knows pass.old).number (commands_of (plan phase.now) (name job)))) (knows pass.old) (knows pass.new)) };

    /// How many jobs wait or are run, at the end of what the pass has seen then.
    fn live_jobs<R: Wait>(&self, rt: &R, alloc: Global, pass: &mut Self::Pass) -> u64
        requires { here self.now pass.old }
        ensures here { here self.now pass.new }
        ensures looked { LooksOn (knows pass.old) (knows pass.new) }
        ensures counted { result ≡ live (replay (opened self.now) (knows pass.new).seen).manager.jobs };

    /// Pass 0 schedules the jobs of the phase, in text order. Where memory wants it stops where it is.
    fn schedule<R: Wait>(
        &self,
        rt: &R,
        alloc: Global,
        pass: &mut Self::Pass,
        phase: &Self::Phase,
    ) -> Result<(), NoMemory>
        requires here { here self.now pass.old }
        requires zeroth { (knows pass.old).number ≡ 0 }
        ensures here { here self.now pass.new }
        ensures done { OnOk result (Makes (λ h. acts h ≡ map scheduled (plan phase.now)) (knows pass.old) (knows pass.new)) }
        ensures cut { OnErr result (Makes (Cut (λ h. acts h ≡ map scheduled (plan phase.now))) (knows pass.old) (knows pass.new)) };

    /// Pass 0 looks which jobs of the phase sleep, and cancels these, in text order. Where memory wants it stops where it is.
    fn cancel<R: Wait>(
        &self,
        rt: &R,
        alloc: Global,
        pass: &mut Self::Pass,
        phase: &Self::Phase,
    ) -> Result<(), NoMemory>
        requires here { here self.now pass.old }
        requires zeroth { (knows pass.old).number ≡ 0 }
        ensures here { here self.now pass.new }
        ensures done { OnOk result (Finds (opened self.now) (λ s h. acts h ≡ map cancelled (sleepers s (plan phase.now))) (knows pass.old) (knows pass.new)) }
        ensures cut { OnErr result (Finds (opened self.now) (λ s. Cut (λ h. acts h ≡ map cancelled (sleepers s (plan phase.now)))) (knows pass.old) (knows pass.new)) };

    /// The pass has then seen what each of the two had; the other stays as it is. Waits for nobody, and takes no memory.
    fn meet(&self, pass: &mut Self::Pass, other: &mut Self::Pass)
        requires { here self.now pass.old × here self.now other.old }
        ensures here { here self.now pass.new × here self.now other.new }
        ensures meets { Meets (knows pass.old) (knows other.old) (knows pass.new) }
        ensures other { knows other.new ≡ knows other.old };
}
