//! A phase: pass 0 schedules the jobs, the worker runs them, and pass 0 cancels those that sleep.
ghost use Rattle.std.specs.Prelude.{◌≡◌, ◌∷◌, [], map, MatchResult};
ghost use Rattle.script_lang.specs.Names.{HaveOwnNames};
ghost use Rattle.build_host.specs.Hosts.{IsServed, Serves};
ghost use Rattle.ws_core.specs.Histories.{replay};
ghost use Rattle.run_order.specs.Lists.{acts, Cut};
ghost use Rattle.run_order.specs.Orders.{scheduled, cancelled, sleeps, sleepers, IsPhase, IsCutPhase};
ghost use Rattle.script_plan.specs.Plans.{job_plan, jobs_plan, phase_plan};
ghost use Rattle.phase_run.specs.Plans.{Made};
ghost use Rattle.phase_run.specs.Inside.Doing.{IsReady, Makes, Stops};

use crate::NoMemory;
use crate::worker::work;
use builder_api::{Builder, Builders, Meanings};
use core_event::Event;
use elem_tree::LayerTree;
use res_path::Name;
use save_round::Participant;
use script_lang::{Job, Phase};
use script_plan::schedule_of;
use std::alloc::Global;
use ws_core::Core;
use ws_outside::Disk;
use ws_saved::SavedWorkspace;

/// Pass 0 schedules the job.
fn schedule_one<D: Disk, P: Participant>(
    space: &mut SavedWorkspace<D, P>,
    alloc: Global,
    job: &Job,
) -> Result<(), NoMemory>
    requires { IsReady space.old.core.state }
    ensures done { MatchResult result (λ _. Makes (λ h. acts h ≡ scheduled (job_plan job.now) ∷ []) space.old.core space.new.core) (λ _. space.new.core ≡ space.old.core) }
    ensures start { (space.new.keeper.began ≡ space.old.keeper.began) × (space.new.began ≡ space.old.began) }
{
    let event = schedule_of(job)?;
    space.perform(alloc, 0, event)
}

/// Pass 0 schedules the jobs, in order.
fn schedule<D: Disk, P: Participant>(
    space: &mut SavedWorkspace<D, P>,
    alloc: Global,
    jobs: &[Job],
) -> Result<(), NoMemory>
    requires { IsReady space.old.core.state }
    ensures done { MatchResult result (λ _. Makes (λ h. acts h ≡ map scheduled (jobs_plan jobs.now)) space.old.core space.new.core) (λ _. Stops (Cut (λ h. acts h ≡ map scheduled (jobs_plan jobs.now))) space.old.core space.new.core) }
    ensures start { (space.new.keeper.began ≡ space.old.keeper.began) × (space.new.began ≡ space.old.began) }
{
    for job in jobs {
        schedule_one(space, alloc, job)?;
    }
    Ok(())
}

/// Whether the job of this name sleeps.
fn sleeps(core: &Core<LayerTree>, name: &Name) -> bool
    ensures { result ≡ sleeps (replay core.now.opened core.now.history) name.now }
{
    match core.state().manager().jobs.state(name) {
        Some(state) => state.is_sleeping(),
        None => false,
    }
}

/// Pass 0 cancels the job, if it sleeps.
fn cancel_one<D: Disk, P: Participant>(
    space: &mut SavedWorkspace<D, P>,
    alloc: Global,
    job: &Job,
) -> Result<(), NoMemory>
    requires { IsReady space.old.core.state }
    ensures done { MatchResult result (λ _. Makes (λ h. acts h ≡ map cancelled (sleepers (replay space.old.core.opened space.old.core.history) (job_plan job.now ∷ []))) space.old.core space.new.core) (λ _. space.new.core ≡ space.old.core) }
    ensures start { (space.new.keeper.began ≡ space.old.keeper.began) × (space.new.began ≡ space.old.began) }
{
    if !sleeps(space.core(), &job.name) {
        return Ok(());
    }
    space.perform(alloc, 0, Event::Cancel(job.name.copy()?))
}

/// Pass 0 cancels those of the jobs that sleep, in order.
fn cancel<D: Disk, P: Participant>(
    space: &mut SavedWorkspace<D, P>,
    alloc: Global,
    jobs: &[Job],
) -> Result<(), NoMemory>
    requires ready { IsReady space.old.core.state }
    requires names { HaveOwnNames jobs.now }
    ensures done { MatchResult result (λ _. Makes (λ h. acts h ≡ map cancelled (sleepers (replay space.old.core.opened space.old.core.history) (jobs_plan jobs.now))) space.old.core space.new.core)
        (λ _. Stops (Cut (λ h. acts h ≡ map cancelled (sleepers (replay space.old.core.opened space.old.core.history) (jobs_plan jobs.now)))) space.old.core space.new.core) }
    ensures start { (space.new.keeper.began ≡ space.old.keeper.began) × (space.new.began ≡ space.old.began) }
{
    for job in jobs {
        cancel_one(space, alloc, job)?;
    }
    Ok(())
}

/// The phase is run.
pub fn run_phase<D: Disk, P: Participant, B: Builder, M: Meanings>(
    space: &mut SavedWorkspace<D, P>,
    builders: &mut Builders<B>,
    alloc: Global,
    phase: &Phase,
) -> Result<(), NoMemory>
    requires ready { IsReady space.old.core.state }
    requires served { IsServed M.meaning space.old.core.opened (map (λ b. B.tells b) builders.old) }
    ensures done { MatchResult result (λ _. Makes (IsPhase (Made M.meaning) 1 (phase_plan phase.now) (replay space.old.core.opened space.old.core.history)) space.old.core space.new.core)
        (λ _. Stops (IsCutPhase (Made M.meaning) 1 (phase_plan phase.now) (replay space.old.core.opened space.old.core.history)) space.old.core space.new.core) }
    ensures serves { Serves M.meaning space.old.core space.new.core (map (λ b. B.tells b) builders.old) (map (λ b. B.tells b) builders.new) }
    ensures start { (space.new.keeper.began ≡ space.old.keeper.began) × (space.new.began ≡ space.old.began) }
{
    let jobs = phase.jobs.as_slice();
    schedule(space, alloc, jobs)?;
    work::<D, P, B, M>(space, builders, alloc, jobs)?;
    cancel(space, alloc, jobs)
}
