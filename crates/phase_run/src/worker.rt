//! The worker takes jobs, does their commands and finishes them.
ghost use Rattle.std.specs.Prelude.{◌≡◌, ◌≢◌, ◌++◌, List, map, MatchResult, OnErr, OnOk, option_copied};
ghost use Rattle.core_event.specs.declared.entry.Entry.{Entry};
ghost use Rattle.build_history.specs.Events.{NoBuilds};
ghost use Rattle.builder_api.specs.declared.outcome.BuildOutcome.TheVariants as outcomes;
ghost use Rattle.build_run.specs.declared.answers.BuildAnswer.TheVariants.{Ended};
ghost use Rattle.build_host.specs.Builds.{IsBuild};
ghost use Rattle.build_host.specs.Hosts.{IsServed, Serves};
ghost use Rattle.save_kind.specs.declared.answer.SaveAnswer.TheVariants as answers;
ghost use Rattle.save_run.specs.declared.command.Saved.TheVariants as saves;
ghost use Rattle.save_history.specs.Saves.{IsSave};
ghost use Rattle.run_order.specs.Lists.{Cut, InTurn};
ghost use Rattle.run_order.specs.Parts.{CommandEntries, Parts};
ghost use Rattle.script_plan.specs.Plans.{AskedEntries, IsAskable, IsAsked, jobs_plan};
ghost use Rattle.phase_run.specs.Plans.{Made};
ghost use Rattle.phase_run.specs.Inside.Doing.{IsReady, IsAtWork, Makes, Stops, Works, Ends, IsOver, Takes, job_given};

use crate::NoMemory;
use build_host::settle;
use build_run::BuildAnswer;
use builder_api::{BuildKind, BuildOutcome, Builder, Builders, Meanings};
use core_event::{Answer, Apart, Event};
use res_path::Name;
use save_kind::{SaveAnswer, SaveKind};
use save_round::Participant;
use save_run::Saved;
use script_lang::{Command, Job};
use script_plan::{Asked, JobBook, asked_of};
use std::alloc::{AllocError, Global};
use ws_outside::Disk;
use ws_saved::SavedWorkspace;

/// The worker does an event that a command asks.
fn do_event<D: Disk, P: Participant>(
    space: &mut SavedWorkspace<D, P>,
    alloc: Global,
    event: Event,
) -> Result<(), NoMemory>
    requires work { IsAtWork space.old.core.state }
    requires asked { IsAsked event }
    ensures done { MatchResult result (λ _. Works (CommandEntries 1 event) space.old.core space.new.core) (λ _. Stops (Cut (CommandEntries 1 event)) space.old.core space.new.core) }
    ensures start { (space.new.keeper.began ≡ space.old.keeper.began) × (space.new.began ≡ space.old.began) }
{
    space.perform(alloc, 1, event)
}

/// The worker makes a build. Where that ends for want of memory, the run is to stop there.
fn do_build<D: Disk, P: Participant, B: Builder, M: Meanings>(
    space: &mut SavedWorkspace<D, P>,
    builders: &mut Builders<B>,
    alloc: Global,
    kind: BuildKind,
    project: Option<&Name>,
) -> Result<(), NoMemory>
    requires work { IsAtWork space.old.core.state }
    requires served { IsServed M.meaning space.old.core.opened (map (λ b. B.tells b) builders.old) }
    ensures done { MatchResult result (λ _. Works (IsBuild M.meaning 1 kind (option_copied project.entry)) space.old.core space.new.core)
        (λ _. Stops (Cut (IsBuild M.meaning 1 kind (option_copied project.entry))) space.old.core space.new.core) }
    ensures serves { Serves M.meaning space.old.core space.new.core (map (λ b. B.tells b) builders.old) (map (λ b. B.tells b) builders.new) }
    ensures start { (space.new.keeper.began ≡ space.old.keeper.began) × (space.new.began ≡ space.old.began) }
{
    settle(space.core());
    let answer = space.build::<B, M>(builders, alloc, kind, project)?;
    ended(answer)
}

/// Memory wanted where a build that was answered so ended for that.
fn ended(answer: BuildAnswer) -> Result<(), NoMemory>
    ensures wanting { OnErr result (answer ≡ Ended outcomes.NoMemory) }
    ensures other { OnOk result (answer ≢ Ended outcomes.NoMemory) }
{
    match answer {
        BuildAnswer::Ended(BuildOutcome::NoMemory) => Err(AllocError),
        other => {
            drop(other);
            Ok(())
        }
    }
}

/// The worker makes a save. Where that ends for want of memory, the run is to stop there.
fn do_save<D: Disk, P: Participant>(
    space: &mut SavedWorkspace<D, P>,
    alloc: Global,
    kind: SaveKind,
) -> Result<(), NoMemory>
    requires work { IsAtWork space.old.core.state }
    ensures done { MatchResult result (λ _. Works (IsSave 1 kind) space.old.core space.new.core) (λ _. Stops (Cut (IsSave 1 kind)) space.old.core space.new.core) }
    ensures quiet { (h : List Entry) × (space.new.core.history ≡ space.old.core.history ++ h) × NoBuilds h }
    ensures opened { space.new.core.opened ≡ space.old.core.opened }
    ensures start { (space.new.keeper.began ≡ space.old.keeper.began) × (space.new.began ≡ space.old.began) }
{
    let saved = space.save(alloc, kind)?;
    saved_well(saved)
}

/// Memory wanted where a save that was answered so ended for that.
fn saved_well(saved: Saved) -> Result<(), NoMemory>
    ensures wanting { OnErr result (saved ≡ saves.Ended answers.NoMemory) }
    ensures other { OnOk result (saved ≢ saves.Ended answers.NoMemory) }
{
    match saved {
        Saved::Ended(SaveAnswer::NoMemory) => Err(AllocError),
        other => {
            drop(other);
            Ok(())
        }
    }
}

/// The worker does what is asked.
fn do_asked<D: Disk, P: Participant, B: Builder, M: Meanings>(
    space: &mut SavedWorkspace<D, P>,
    builders: &mut Builders<B>,
    alloc: Global,
    asked: Asked,
) -> Result<(), NoMemory>
    requires work { IsAtWork space.old.core.state }
    requires asked { IsAskable asked }
    requires served { IsServed M.meaning space.old.core.opened (map (λ b. B.tells b) builders.old) }
    ensures done { MatchResult result (λ _. Works (AskedEntries (IsBuild M.meaning) 1 asked) space.old.core space.new.core) (λ _. Stops (Cut (AskedEntries (IsBuild M.meaning) 1 asked)) space.old.core space.new.core) }
    ensures serves { Serves M.meaning space.old.core space.new.core (map (λ b. B.tells b) builders.old) (map (λ b. B.tells b) builders.new) }
    ensures start { (space.new.keeper.began ≡ space.old.keeper.began) × (space.new.began ≡ space.old.began) }
{
    match asked {
        Asked::One(event) => do_event(space, alloc, event),
        Asked::Build(kind, None) => do_build::<D, P, B, M>(space, builders, alloc, kind, None),
        Asked::Build(kind, Some(name)) => {
            do_build::<D, P, B, M>(space, builders, alloc, kind, Some(&name))
        }
        Asked::Save(kind) => do_save(space, alloc, kind),
    }
}

/// The worker does a command.
fn do_command<D: Disk, P: Participant, B: Builder, M: Meanings>(
    space: &mut SavedWorkspace<D, P>,
    builders: &mut Builders<B>,
    alloc: Global,
    command: &Command,
) -> Result<(), NoMemory>
    requires work { IsAtWork space.old.core.state }
    requires served { IsServed M.meaning space.old.core.opened (map (λ b. B.tells b) builders.old) }
    ensures done { MatchResult result (λ _. Works (Made M.meaning 1 command.now) space.old.core space.new.core) (λ _. Stops (Cut (Made M.meaning 1 command.now)) space.old.core space.new.core) }
    ensures serves { Serves M.meaning space.old.core space.new.core (map (λ b. B.tells b) builders.old) (map (λ b. B.tells b) builders.new) }
    ensures start { (space.new.keeper.began ≡ space.old.keeper.began) × (space.new.began ≡ space.old.began) }
{
    let asked = asked_of(command)?;
    do_asked::<D, P, B, M>(space, builders, alloc, asked)
}

/// The worker does the commands, in order.
fn do_commands<D: Disk, P: Participant, B: Builder, M: Meanings>(
    space: &mut SavedWorkspace<D, P>,
    builders: &mut Builders<B>,
    alloc: Global,
    commands: &[Command],
) -> Result<(), NoMemory>
    requires work { IsAtWork space.old.core.state }
    requires served { IsServed M.meaning space.old.core.opened (map (λ b. B.tells b) builders.old) }
    ensures done { MatchResult result (λ _. Works (InTurn (Made M.meaning 1) commands.now) space.old.core space.new.core) (λ _. Stops (Cut (InTurn (Made M.meaning 1) commands.now)) space.old.core space.new.core) }
    ensures serves { Serves M.meaning space.old.core space.new.core (map (λ b. B.tells b) builders.old) (map (λ b. B.tells b) builders.new) }
    ensures start { (space.new.keeper.began ≡ space.old.keeper.began) × (space.new.began ≡ space.old.began) }
{
    for command in commands {
        do_command::<D, P, B, M>(space, builders, alloc, command)?;
    }
    Ok(())
}

/// The worker does the commands of the job that it runs, and finishes.
fn do_job<D: Disk, P: Participant, B: Builder, M: Meanings>(
    space: &mut SavedWorkspace<D, P>,
    builders: &mut Builders<B>,
    alloc: Global,
    commands: &[Command],
) -> Result<(), NoMemory>
    requires work { IsAtWork space.old.core.state }
    requires served { IsServed M.meaning space.old.core.opened (map (λ b. B.tells b) builders.old) }
    ensures done { MatchResult result (λ _. Ends (Made M.meaning) commands.now space.old.core space.new.core) (λ _. Stops (Cut (InTurn (Made M.meaning 1) commands.now)) space.old.core space.new.core) }
    ensures serves { Serves M.meaning space.old.core space.new.core (map (λ b. B.tells b) builders.old) (map (λ b. B.tells b) builders.new) }
    ensures start { (space.new.keeper.began ≡ space.old.keeper.began) × (space.new.began ≡ space.old.began) }
{
    do_commands::<D, P, B, M>(space, builders, alloc, commands)?;
    space.perform(alloc, 1, Event::Finish)
}

/// The job that the answer gives, if it gives one.
fn job_of(answer: Answer) -> Option<Apart<Name>>
    ensures { result ≡ job_given answer }
{
    match answer {
        Answer::Job(name) => Some(name),
        other => {
            drop(other);
            None
        }
    }
}

/// The worker takes the job that comes next: its name, or None where no job waits.
fn take<D: Disk, P: Participant>(
    space: &mut SavedWorkspace<D, P>,
    alloc: Global,
) -> Result<Option<Apart<Name>>, NoMemory>
    requires { IsReady space.old.core.state }
    ensures done { MatchResult result (λ o. Takes o space.old.core space.new.core) (λ _. space.new.core ≡ space.old.core) }
    ensures start { (space.new.keeper.began ≡ space.old.keeper.began) × (space.new.began ≡ space.old.began) }
{
    settle(space.core());
    let reply = space.step(alloc, 1, Event::Take)?;
    Ok(job_of(reply.answer))
}

/// The worker takes jobs, does each and finishes it, until none waits.
fn do_jobs<D: Disk, P: Participant, B: Builder, M: Meanings>(
    space: &mut SavedWorkspace<D, P>,
    builders: &mut Builders<B>,
    alloc: Global,
    book: &JobBook<'_>,
) -> Result<(), NoMemory>
    requires ready { IsReady space.old.core.state }
    requires served { IsServed M.meaning space.old.core.opened (map (λ b. B.tells b) builders.old) }
    ensures done { MatchResult result (λ _. Makes (Parts (Made M.meaning) (jobs_plan book.now) 1) space.old.core space.new.core × IsOver space.new.core) (λ _. Stops (Cut (Parts (Made M.meaning) (jobs_plan book.now) 1)) space.old.core space.new.core) }
    ensures serves { Serves M.meaning space.old.core space.new.core (map (λ b. B.tells b) builders.old) (map (λ b. B.tells b) builders.new) }
    ensures start { (space.new.keeper.began ≡ space.old.keeper.began) × (space.new.began ≡ space.old.began) }
{
    while let Some(name) = take(space, alloc)? {
        do_job::<D, P, B, M>(space, builders, alloc, book.commands(name.value()))?;
    }
    Ok(())
}

/// The worker does the jobs that wait, of which these are all, until none waits.
pub fn work<D: Disk, P: Participant, B: Builder, M: Meanings>(
    space: &mut SavedWorkspace<D, P>,
    builders: &mut Builders<B>,
    alloc: Global,
    jobs: &[Job],
) -> Result<(), NoMemory>
    requires ready { IsReady space.old.core.state }
    requires served { IsServed M.meaning space.old.core.opened (map (λ b. B.tells b) builders.old) }
    ensures done { MatchResult result (λ _. Makes (Parts (Made M.meaning) (jobs_plan jobs.now) 1) space.old.core space.new.core × IsOver space.new.core) (λ _. Stops (Cut (Parts (Made M.meaning) (jobs_plan jobs.now) 1)) space.old.core space.new.core) }
    ensures serves { Serves M.meaning space.old.core space.new.core (map (λ b. B.tells b) builders.old) (map (λ b. B.tells b) builders.new) }
    ensures start { (space.new.keeper.began ≡ space.old.keeper.began) × (space.new.began ≡ space.old.began) }
{
    let book = JobBook::of(alloc, jobs)?;
    do_jobs::<D, P, B, M>(space, builders, alloc, &book)
}
