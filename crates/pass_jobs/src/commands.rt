//! A pass does the commands of a job that it took, and finishes it.
ghost use Rattle.std.specs.Prelude.{◌≡◌, ◌≢◌, true, OnErr, OnOk};
ghost use Rattle.build_run.specs.declared.answers.BuildAnswer.TheVariants.{Ended};
ghost use Rattle.builder_api.specs.declared.outcome.BuildOutcome.TheVariants as outcomes;
ghost use Rattle.save_kind.specs.declared.answer.SaveAnswer.TheVariants as answers;
ghost use Rattle.save_history.specs.Saves.{IsSave};
ghost use Rattle.run_order.specs.Lists.{InTurn};
ghost use Rattle.run_order.specs.Parts.{CommandEntries};
ghost use Rattle.script_plan.specs.Plans.{AskedEntries, IsAskable, Made};
ghost use Rattle.phase_pool.specs.Parts.{IsRest};
ghost use Rattle.pass_jobs.specs.Calls.{is_plain};
ghost use Rattle.pass_jobs.specs.Inside.Floors.{Does, IsHere, known};

use crate::NoMemory;
use crate::room::{JobRoom, PassBuilds};
use build_run::BuildAnswer;
use builder_api::{BuildKind, BuildOutcome};
use core_event::Event;
use res_path::Name;
use save_kind::{SaveAnswer, SaveKind};
use script_lang::Command;
use script_plan::{Asked, asked_of};
use std::alloc::{AllocError, Global};
use std::sync::Wait;
use std::sync::atomic::AtomicBool;

/// The pass does an event that enters or leaves nobody and asks nothing of the services.
pub(crate) fn do_event<W: Wait, R: JobRoom>(
    rt: &W,
    room: &R,
    alloc: Global,
    pass: &mut R::Pass,
    event: Event,
    stop: &AtomicBool,
) -> Result<(), NoMemory>
    requires here { R.is_of room.now pass.old × IsHere (R.opened room.now) (R.Builds.good (R.opened room.now)) (R.knows pass.old) }
    requires plain { is_plain event ≡ true }
    ensures here { R.is_of room.now pass.new × IsHere (R.opened room.now) (R.Builds.good (R.opened room.now)) (R.knows pass.new) }
    ensures done { Does result (CommandEntries (R.knows pass.old).number event) (known (R.knows pass.old)) (known (R.knows pass.new)) }
{
    room.do_unless(rt, alloc, pass, event, stop)
}

/// The pass makes a build. Where that ends for want of memory, the run is to stop there.
fn do_build<W: Wait, R: JobRoom>(
    rt: &W,
    room: &R,
    alloc: Global,
    pass: &mut R::Pass,
    kind: BuildKind,
    project: Option<Name>,
    stop: &AtomicBool,
) -> Result<(), NoMemory>
    requires { R.is_of room.now pass.old × IsHere (R.opened room.now) (R.Builds.good (R.opened room.now)) (R.knows pass.old) }
    ensures here { R.is_of room.now pass.new × IsHere (R.opened room.now) (R.Builds.good (R.opened room.now)) (R.knows pass.new) }
    ensures done { Does result (R.Builds.makes (R.opened room.now) (R.knows pass.old).number kind project) (known (R.knows pass.old)) (known (R.knows pass.new)) }
{
    match room.build(rt, alloc, pass, kind, project, stop) {
        Ok(answer) => built_well(answer),
        Err(error) => Err(error),
    }
}

/// Memory wanted where a build that was answered so ended for that.
fn built_well(answer: BuildAnswer) -> Result<(), NoMemory>
    ensures wanting { OnErr result (answer ≡ Ended outcomes.NoMemory) }
    ensures other { OnOk result (answer ≢ Ended outcomes.NoMemory) }
{
    match answer {
        BuildAnswer::Ended(BuildOutcome::NoMemory) => Err(AllocError),
        other => {
            drop(other);
            Ok(())
        }
    }
}

/// The pass makes a save. Where that ends for want of memory, the run is to stop there.
fn do_save<W: Wait, R: JobRoom>(
    rt: &W,
    room: &R,
    alloc: Global,
    pass: &mut R::Pass,
    kind: SaveKind,
) -> Result<(), NoMemory>
    requires { R.is_of room.now pass.old × IsHere (R.opened room.now) (R.Builds.good (R.opened room.now)) (R.knows pass.old) }
    ensures here { R.is_of room.now pass.new × IsHere (R.opened room.now) (R.Builds.good (R.opened room.now)) (R.knows pass.new) }
    ensures done { Does result (IsSave (R.knows pass.old).number kind) (known (R.knows pass.old)) (known (R.knows pass.new)) }
{
    match room.save(rt, alloc, pass, kind) {
        Ok(answer) => saved_well(answer),
        Err(error) => Err(error),
    }
}

/// Memory wanted where a save that was answered so ended for that.
fn saved_well(answer: SaveAnswer) -> Result<(), NoMemory>
    ensures wanting { OnErr result (answer ≡ answers.NoMemory) }
    ensures other { OnOk result (answer ≢ answers.NoMemory) }
{
    match answer {
        SaveAnswer::NoMemory => Err(AllocError),
        other => {
            drop(other);
            Ok(())
        }
    }
}

/// The pass does what is asked.
fn do_asked<W: Wait, R: JobRoom>(
    rt: &W,
    room: &R,
    alloc: Global,
    pass: &mut R::Pass,
    asked: Asked,
    stop: &AtomicBool,
) -> Result<(), NoMemory>
    requires here { R.is_of room.now pass.old × IsHere (R.opened room.now) (R.Builds.good (R.opened room.now)) (R.knows pass.old) }
    requires asked { IsAskable asked }
    ensures here { R.is_of room.now pass.new × IsHere (R.opened room.now) (R.Builds.good (R.opened room.now)) (R.knows pass.new) }
    ensures done { Does result (AskedEntries (R.Builds.makes (R.opened room.now)) (R.knows pass.old).number asked) (known (R.knows pass.old)) (known (R.knows pass.new)) }
{
    match asked {
        Asked::One(event) => do_event(rt, room, alloc, pass, event, stop),
        Asked::Build(kind, project) => do_build(rt, room, alloc, pass, kind, project, stop),
        Asked::Save(kind) => do_save(rt, room, alloc, pass, kind),
    }
}

/// The pass does a command.
fn do_command<W: Wait, R: JobRoom>(
    rt: &W,
    room: &R,
    alloc: Global,
    pass: &mut R::Pass,
    command: &Command,
    stop: &AtomicBool,
) -> Result<(), NoMemory>
    requires { R.is_of room.now pass.old × IsHere (R.opened room.now) (R.Builds.good (R.opened room.now)) (R.knows pass.old) }
    ensures here { R.is_of room.now pass.new × IsHere (R.opened room.now) (R.Builds.good (R.opened room.now)) (R.knows pass.new) }
    ensures done { Does result (Made (R.Builds.makes (R.opened room.now)) (R.knows pass.old).number command.now) (known (R.knows pass.old)) (known (R.knows pass.new)) }
{
    match asked_of(command) {
        Ok(asked) => do_asked(rt, room, alloc, pass, asked, stop),
        Err(error) => Err(error),
    }
}

/// The pass does the commands of the job, in order, and tells the room after each.
fn do_commands<W: Wait, R: JobRoom>(
    rt: &W,
    room: &R,
    alloc: Global,
    pass: &mut R::Pass,
    job: &Name,
    commands: &[Command],
    stop: &AtomicBool,
) -> Result<(), NoMemory>
    requires { R.is_of room.now pass.old × IsHere (R.opened room.now) (R.Builds.good (R.opened room.now)) (R.knows pass.old) }
    ensures here { R.is_of room.now pass.new × IsHere (R.opened room.now) (R.Builds.good (R.opened room.now)) (R.knows pass.new) }
    ensures done { Does result (InTurn (Made (R.Builds.makes (R.opened room.now)) (R.knows pass.old).number) commands.now) (known (R.knows pass.old)) (known (R.knows pass.new)) }
{
    for (index, command) in commands.iter().enumerate() {
        match do_command(rt, room, alloc, pass, command, stop) {
            Ok(()) => room.after(job, index as u64),
            Err(error) => return Err(error),
        }
    }
    Ok(())
}

/// The pass does the commands of the job that it runs, and finishes it.
pub(crate) fn do_job<W: Wait, R: JobRoom>(
    rt: &W,
    room: &R,
    alloc: Global,
    pass: &mut R::Pass,
    job: &Name,
    commands: &[Command],
    stop: &AtomicBool,
) -> Result<(), NoMemory>
    requires { R.is_of room.now pass.old × IsHere (R.opened room.now) (R.Builds.good (R.opened room.now)) (R.knows pass.old) }
    ensures here { R.is_of room.now pass.new × IsHere (R.opened room.now) (R.Builds.good (R.opened room.now)) (R.knows pass.new) }
    ensures done { Does result (IsRest (Made (R.Builds.makes (R.opened room.now))) (R.knows pass.old).number commands.now) (known (R.knows pass.old)) (known (R.knows pass.new)) }
{
    match do_commands(rt, room, alloc, pass, job, commands, stop) {
        Ok(()) => do_event(rt, room, alloc, pass, Event::Finish, stop),
        Err(error) => Err(error),
    }
}
