//! Rooms in which passes do jobs.
ghost use Rattle.std.specs.Prelude.{◌≡◌, ◌++◌, ℕ, List, Option, filter, true};
ghost use Rattle.builder_api.specs.declared.kind.BuildKind.{BuildKind};
ghost use Rattle.core_event.specs.declared.entry.Entry.{Entry};
ghost use Rattle.job_queue.specs.Queues.{live};
ghost use Rattle.ws_core.specs.States.{Moment};
ghost use Rattle.ws_core.specs.Histories.{replay};
ghost use Rattle.save_history.specs.Saves.{IsSave};
ghost use Rattle.pass_turns.specs.Turns.{IsFaithful, Knows};
ghost use Rattle.run_order.specs.Lists.{Begins, own};
ghost use Rattle.run_order.specs.Fronts.{enters};
ghost use Rattle.run_order.specs.Orders.{sleeps};
ghost use Rattle.run_order.specs.Parts.{CommandEntries};
ghost use Rattle.build_history.specs.Events.{NoBuilds};
ghost use Rattle.script_plan.specs.Plans.{Building};
ghost use Rattle.ws_turn.specs.Lists.{longer};
ghost use Rattle.pass_jobs.specs.Calls.{AllOrNone, AllOrSome, LookedOn, TookOne, WentOn, is_plain, pass_of};

use crate::NoMemory;
use build_run::BuildAnswer;
use builder_api::BuildKind;
use core_event::Event;
use res_path::Name;
use save_kind::{SaveAnswer, SaveKind};
use std::alloc::Global;
use std::sync::Wait;
use std::sync::atomic::AtomicBool;

/// What passes make of builds in a room where others make entries between theirs.
pub trait PassBuilds {
    // the entries that a pass makes of a build, where this state was opened
    ghost makes: { Moment → Building };

    // what holds of the builds of the pass of this number in a history that it has seen
    ghost good: { Moment → ℕ → List Entry → Type 0 };

    // each build may have some entries
    ghost some_made: { (s : Moment) (k : ℕ) (kind : BuildKind) (project : Option (List ℕ)) → (h : List Entry) × makes s k kind project h };

    // none of them lets a pass in
    ghost lets_none_in: { (s : Moment) (k : ℕ) (kind : BuildKind) (project : Option (List ℕ)) (h : List Entry) → makes s k kind project h → enters h ≡ 0 };

    // what holds of the builds holds still where the pass makes none
    ghost stays_good: { (s : Moment) (k : ℕ) (g h l : List Entry) → good s k g → Begins g h → own k h ≡ own k g ++ l → NoBuilds l → good s k h };
}

/// What the commands of jobs ask of a room that passes share. Each call but `meet` may wait for others, and others may make
/// entries while it is made. A call says what the pass has seen then, and which entries of its own are new.
pub trait JobRoom {
    type Pass;

    // what its passes make of builds
    type Builds: PassBuilds;

    // it is a pass of this room
    ghost is_of: { Self → Self.Pass → Type 0 };

    // what contracts see of a pass
    ghost knows: { Self.Pass → Knows Entry };

    // the state that was opened here
    ghost opened: { Self → Moment };

    /// The pass takes the job that comes next, if one may be run now: its name. Else it leaves no entry, nor where memory
    /// wants.
    fn take_job<W: Wait>(
        &self,
        rt: &W,
        alloc: Global,
        pass: &mut Self::Pass,
    ) -> Result<Option<Name>, NoMemory>
        requires { is_of self.now pass.old }
        ensures of { is_of self.now pass.new }
        ensures taken { WentOn (opened self.now) (TookOne (knows pass.old).number result) (knows pass.old) (knows pass.new) };

    /// The pass does an event that enters or leaves nobody and asks nothing of the services, once no rule of another pass is in
    /// its way. Where memory wants, or where it must wait and `stop` is set, it leaves no entry.
    fn do_unless<W: Wait>(
        &self,
        rt: &W,
        alloc: Global,
        pass: &mut Self::Pass,
        event: Event,
        stop: &AtomicBool,
    ) -> Result<(), NoMemory>
        requires of { is_of self.now pass.old }
        requires plain { is_plain event ≡ true }
        ensures of { is_of self.now pass.new }
        ensures done { WentOn (opened self.now) (AllOrNone (CommandEntries (knows pass.old).number event) result) (knows pass.old) (knows pass.new) };

    /// Of these names those of jobs that sleep, in their order, at the end of what the pass has seen then.
    fn asleep<W: Wait>(
        &self,
        rt: &W,
        alloc: Global,
        pass: &mut Self::Pass,
        names: Vec<Name>,
    ) -> Vec<Name>
        requires { is_of self.now pass.old }
        ensures of { is_of self.now pass.new }
        ensures looked { LookedOn (opened self.now) (knows pass.old) (knows pass.new) }
        ensures asleep { result.items ≡ filter (λ name. sleeps (replay (opened self.now) (knows pass.new).seen) name) names.items };

    /// How many jobs wait or are run, at the end of what the pass has seen then.
    fn live_jobs<W: Wait>(&self, rt: &W, alloc: Global, pass: &mut Self::Pass) -> u64
        requires { is_of self.now pass.old }
        ensures of { is_of self.now pass.new }
        ensures looked { LookedOn (opened self.now) (knows pass.old) (knows pass.new) }
        ensures counted { result ≡ live (replay (opened self.now) (knows pass.new).seen).manager.jobs };

    /// The pass has then seen what each of the two had seen; the other stays as it is. It waits for nobody, and takes no
    /// memory.
    fn meet(&self, pass: &mut Self::Pass, other: &mut Self::Pass)
        requires { is_of self.now pass.old × is_of self.now other.old }
        ensures of { is_of self.now pass.new × is_of self.now other.new }
        ensures pass { knows pass.new ≡ record (knows pass.old) { seen = longer (knows pass.old).seen (knows other.old).seen } }
        ensures begins { Begins (knows pass.old).seen (knows pass.new).seen × Begins (knows other.old).seen (knows pass.new).seen }
        ensures faithful { IsFaithful pass_of (knows pass.new) }
        ensures other { knows other.new ≡ knows other.old };

    /// The pass makes a build, of the project of this name or of the whole workspace. Answers as `build_all` and
    /// `build_project` of build_run do. Where memory wants the build is left where it is, and so it may be where `stop` is set
    /// and it waits.
    fn build<W: Wait>(
        &self,
        rt: &W,
        alloc: Global,
        pass: &mut Self::Pass,
        kind: BuildKind,
        project: Option<Name>,
        stop: &AtomicBool,
    ) -> Result<BuildAnswer, NoMemory>
        requires { is_of self.now pass.old }
        ensures of { is_of self.now pass.new }
        ensures built { WentOn (opened self.now) (AllOrSome (Self.Builds.makes (opened self.now) (knows pass.old).number kind project) result) (knows pass.old) (knows pass.new) }
        ensures good { Self.Builds.good (opened self.now) (knows pass.old).number (knows pass.old).seen → Self.Builds.good (opened self.now) (knows pass.old).number (knows pass.new).seen };

    /// The pass makes a save. Answers how it ended; where memory wants before it began, it leaves no entry.
    fn save<W: Wait>(
        &self,
        rt: &W,
        alloc: Global,
        pass: &mut Self::Pass,
        kind: SaveKind,
    ) -> Result<SaveAnswer, NoMemory>
        requires { is_of self.now pass.old }
        ensures of { is_of self.now pass.new }
        ensures saved { WentOn (opened self.now) (AllOrNone (IsSave (knows pass.old).number kind) result) (knows pass.old) (knows pass.new) };

    /// Is told that a pass has made the last entry of the command of this number, from 0, of the job. Nothing that a run promises
    /// comes of it.
    fn after(&self, job: &Name, command: u64);
}
