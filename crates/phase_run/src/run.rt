//! The worker enters, the phases are run one after another, and it leaves.
ghost use Rattle.std.specs.Prelude.{◌≡◌, ◌⊎◌, ◌∷◌, [], true, map, MatchResult, OnOk, OnErr};
ghost use Rattle.core_event.specs.declared.event.Event.TheVariants.{Enter, Leave};
ghost use Rattle.build_host.specs.Hosts.{IsServed, Serves};
ghost use Rattle.job_manager.specs.Managers.{first_manager};
ghost use Rattle.ws_core.specs.Histories.{has_entered, replay};
ghost use Rattle.run_order.specs.Lists.{acts, Grew};
ghost use Rattle.run_order.specs.Orders.{Shuffle, CutShuffle};
ghost use Rattle.phase_run.specs.Calm.{IsCalm};
ghost use Rattle.script_plan.specs.Plans.{phases_plan};
ghost use Rattle.phase_run.specs.Plans.{Made};
ghost use Rattle.phase_run.specs.Runs.{HeardAll, HeardFront};
ghost use Rattle.phase_run.specs.Inside.Doing.{IsReady, Makes};
ghost use Rattle.phase_run.specs.Inside.Running.{Tells, RunsPhase, CutsPhase, RunsPhases, CutsPhases};

use crate::NoMemory;
use crate::phase::run_phase;
use crate::telling::tell_since;
use build_host::settle;
use builder_api::{Builder, Builders, Meanings};
use core_event::Event;
use save_parts::{Listener, Listeners};
use save_round::Participant;
use script_lang::Phase;
use std::alloc::Global;
use ws_outside::Disk;
use ws_saved::SavedWorkspace;

/// The worker enters, and what that tells is told.
fn enter<L: Listener, D: Disk, P: Participant>(
    space: &mut SavedWorkspace<D, P>,
    alloc: Global,
    listeners: &mut Listeners<L>,
) -> Result<(), NoMemory>
    requires opened { space.old.core.opened.manager ≡ first_manager }
    requires state { space.old.core.state ≡ space.old.core.opened }
    ensures made { OnOk result (Makes (λ h. acts h ≡ (0, Enter) ∷ []) space.old.core space.new.core) }
    ensures told { OnOk result (Tells space.old.core.history space.new.core.history (map (λ l. L.heard l) listeners.old) (map (λ l. L.heard l) listeners.new)) }
    ensures same { OnErr result (space.new.core ≡ space.old.core) }
    ensures quiet { OnErr result (listeners.new ≡ listeners.old) }
    ensures start { (space.new.keeper.began ≡ space.old.keeper.began) × (space.new.began ≡ space.old.began) }
{
    let from = space.core().history().len();
    space.perform(alloc, 0, Event::Enter)?;
    tell_since(space.core(), listeners, from);
    Ok(())
}

/// A phase is run, and then what it told is told.
fn run_and_tell<L: Listener, D: Disk, P: Participant, B: Builder, M: Meanings>(
    space: &mut SavedWorkspace<D, P>,
    builders: &mut Builders<B>,
    alloc: Global,
    listeners: &mut Listeners<L>,
    phase: &Phase,
) -> Result<(), NoMemory>
    requires ready { IsReady space.old.core.state }
    requires served { IsServed M.meaning space.old.core.opened (map (λ b. B.tells b) builders.old) }
    ensures done { MatchResult result (λ _. RunsPhase (Made M.meaning) phase.now space.old.core space.new.core (map (λ l. L.heard l) listeners.old) (map (λ l. L.heard l) listeners.new))
        (λ _. CutsPhase (Made M.meaning) phase.now space.old.core space.new.core (map (λ l. L.heard l) listeners.old) (map (λ l. L.heard l) listeners.new)) }
    ensures serves { Serves M.meaning space.old.core space.new.core (map (λ b. B.tells b) builders.old) (map (λ b. B.tells b) builders.new) }
    ensures start { (space.new.keeper.began ≡ space.old.keeper.began) × (space.new.began ≡ space.old.began) }
{
    let from = space.core().history().len();
    run_phase::<D, P, B, M>(space, builders, alloc, phase)?;
    tell_since(space.core(), listeners, from);
    Ok(())
}

/// The phases are run, one after another.
fn run_each<L: Listener, D: Disk, P: Participant, B: Builder, M: Meanings>(
    space: &mut SavedWorkspace<D, P>,
    builders: &mut Builders<B>,
    alloc: Global,
    listeners: &mut Listeners<L>,
    phases: &[Phase],
) -> Result<(), NoMemory>
    requires ready { IsReady space.old.core.state }
    requires served { IsServed M.meaning space.old.core.opened (map (λ b. B.tells b) builders.old) }
    ensures done { MatchResult result (λ _. RunsPhases (Made M.meaning) (phases_plan phases.now) space.old.core space.new.core (map (λ l. L.heard l) listeners.old) (map (λ l. L.heard l) listeners.new))
        (λ _. CutsPhases (Made M.meaning) (phases_plan phases.now) space.old.core space.new.core (map (λ l. L.heard l) listeners.old) (map (λ l. L.heard l) listeners.new)) }
    ensures serves { Serves M.meaning space.old.core space.new.core (map (λ b. B.tells b) builders.old) (map (λ b. B.tells b) builders.new) }
    ensures start { (space.new.keeper.began ≡ space.old.keeper.began) × (space.new.began ≡ space.old.began) }
{
    for phase in phases {
        run_and_tell::<L, D, P, B, M>(space, builders, alloc, listeners, phase)?;
    }
    Ok(())
}

/// The worker leaves, and what that tells is told.
fn leave<L: Listener, D: Disk, P: Participant>(
    space: &mut SavedWorkspace<D, P>,
    alloc: Global,
    listeners: &mut Listeners<L>,
) -> Result<(), NoMemory>
    requires { IsReady space.old.core.state }
    ensures opened { space.new.core.opened ≡ space.old.core.opened }
    ensures made { OnOk result (Grew (λ h. acts h ≡ (1, Leave) ∷ []) space.old.core.history space.new.core.history) }
    ensures calm { OnOk result (IsCalm space.old.core.history → IsCalm space.new.core.history) }
    ensures told { OnOk result (Tells space.old.core.history space.new.core.history (map (λ l. L.heard l) listeners.old) (map (λ l. L.heard l) listeners.new)) }
    ensures same { OnErr result (space.new.core ≡ space.old.core) }
    ensures quiet { OnErr result (listeners.new ≡ listeners.old) }
    ensures start { (space.new.keeper.began ≡ space.old.keeper.began) × (space.new.began ≡ space.old.began) }
{
    let from = space.core().history().len();
    space.perform(alloc, 1, Event::Leave)?;
    tell_since(space.core(), listeners, from);
    Ok(())
}

/// The worker enters, the phases are run, and it leaves.
fn run_all<L: Listener, D: Disk, P: Participant, B: Builder, M: Meanings>(
    space: &mut SavedWorkspace<D, P>,
    builders: &mut Builders<B>,
    alloc: Global,
    listeners: &mut Listeners<L>,
    phases: &[Phase],
) -> Result<(), NoMemory>
    requires opened { space.old.core.opened.manager ≡ first_manager }
    requires state { space.old.core.state ≡ space.old.core.opened }
    requires history { space.old.core.history ≡ [] }
    requires served { IsServed M.meaning space.old.core.opened (map (λ b. B.tells b) builders.old) }
    ensures opened { space.new.core.opened ≡ space.old.core.opened }
    ensures whole { OnOk result (Shuffle (Made M.meaning) space.old.core.opened (phases_plan phases.now) 1 space.new.core.history) }
    ensures cut { OnErr result (CutShuffle (Made M.meaning) space.old.core.opened (phases_plan phases.now) 1 space.new.core.history) }
    ensures there { OnErr result ((space.new.core.history ≡ []) ⊎ (has_entered 1 space.new.core.state ≡ true)) }
    ensures calm { OnOk result (IsCalm space.new.core.history) }
    ensures told { OnOk result (HeardAll space.new.core.history (map (λ l. L.heard l) listeners.old) (map (λ l. L.heard l) listeners.new)) }
    ensures told_some { OnErr result (HeardFront space.new.core.history (map (λ l. L.heard l) listeners.old) (map (λ l. L.heard l) listeners.new)) }
    ensures serves { Serves M.meaning space.old.core space.new.core (map (λ b. B.tells b) builders.old) (map (λ b. B.tells b) builders.new) }
    ensures start { (space.new.keeper.began ≡ space.old.keeper.began) × (space.new.began ≡ space.old.began) }
{
    if phases.is_empty() {
        return Ok(());
    }
    enter(space, alloc, listeners)?;
    run_each::<L, D, P, B, M>(space, builders, alloc, listeners, phases)?;
    leave(space, alloc, listeners)
}

/// Runs the phases of a script by one worker, on a workspace that was just opened: a fresh one, or one from what was
/// kept. Listeners are told after each phase what it told. The workspace has the names of the builders, which its
/// builds call, and these have the meanings that are claimed for them. Without a phase nothing is done.
///
/// The run stops where memory wants, and behind a build that ended for want of memory: so in a run that came to its
/// end no build did. Where it stopped the worker is still there, if it had entered, and the listeners were told what
/// some beginning of the history tells. The builders are the same ones, and mean what they meant.
///
/// A phase costs n log n steps for its n jobs, beside what their commands cost.
pub fn run_phases<L: Listener, D: Disk, P: Participant, B: Builder, M: Meanings>(
    space: &mut SavedWorkspace<D, P>,
    builders: &mut Builders<B>,
    alloc: Global,
    listeners: &mut Listeners<L>,
    phases: &[Phase],
) -> Result<(), NoMemory>
    requires opened { space.old.core.opened.manager ≡ first_manager }
    requires state { space.old.core.state ≡ space.old.core.opened }
    requires history { space.old.core.history ≡ [] }
    requires served { IsServed M.meaning space.old.core.opened (map (λ b. B.tells b) builders.old) }
    ensures opened { space.new.core.opened ≡ space.old.core.opened }
    ensures whole { OnOk result (Shuffle (Made M.meaning) space.old.core.opened (phases_plan phases.now) 1 space.new.core.history) }
    ensures cut { OnErr result (CutShuffle (Made M.meaning) space.old.core.opened (phases_plan phases.now) 1 space.new.core.history) }
    ensures there { OnErr result ((space.new.core.history ≡ []) ⊎ (has_entered 1 (replay space.new.core.opened space.new.core.history) ≡ true)) }
    ensures calm { OnOk result (IsCalm space.new.core.history) }
    ensures told { OnOk result (HeardAll space.new.core.history (map (λ l. L.heard l) listeners.old) (map (λ l. L.heard l) listeners.new)) }
    ensures told_some { OnErr result (HeardFront space.new.core.history (map (λ l. L.heard l) listeners.old) (map (λ l. L.heard l) listeners.new)) }
    ensures serves { Serves M.meaning space.old.core space.new.core (map (λ b. B.tells b) builders.old) (map (λ b. B.tells b) builders.new) }
    ensures start { (space.new.keeper.began ≡ space.old.keeper.began) × (space.new.began ≡ space.old.began) }
{
    let ran = run_all::<L, D, P, B, M>(space, builders, alloc, listeners, phases);
    settle(space.core());
    ran
}
