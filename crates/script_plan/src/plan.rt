//! What commands and jobs ask of the workspace.
ghost use Rattle.std.specs.Prelude.{◌≡◌, IfOk};
ghost use Rattle.core_event.specs.declared.event.Event.TheVariants.{Schedule};
ghost use Rattle.script_lang.specs.Commands.{priority_number};
ghost use Rattle.script_plan.specs.Plans.{asked_of};

use crate::NoMemory;
use builder_api::BuildKind;
use core_event::Event;
use res_path::Name;
use save_kind::SaveKind;
use script_lang::{Command, Job};

/// What a command asks of the workspace.
#[derive(Drop)]
pub enum Asked {
    /// One event.
    One(Event),
    /// A build of the project of this name, or of the whole workspace.
    Build(BuildKind, Option<Name>),
    /// A save of this kind.
    Save(SaveKind),
}

/// What a command asks. It shares the command's texts.
pub fn asked_of(command: &Command) -> Result<Asked, NoMemory>
    ensures { IfOk result (λ asked. asked ≡ asked_of command.now) }
{
    match command {
        Command::Operation(op) => Ok(Asked::One(Event::Operation(op.copy()?))),
        Command::Batch => Ok(Asked::One(Event::Batch)),
        Command::EndBatch => Ok(Asked::One(Event::EndBatch)),
        Command::Checkpoint => Ok(Asked::One(Event::Checkpoint)),
        Command::Begin(rule) => Ok(Asked::One(Event::Begin(rule.as_rule().copy()?))),
        Command::TryBegin(rule) => Ok(Asked::One(Event::TryBegin(rule.as_rule().copy()?))),
        Command::End(rule) => Ok(Asked::One(Event::End(rule.as_rule().copy()?))),
        Command::Sleep(name) => Ok(Asked::One(Event::Sleep(name.copy()?))),
        Command::Wake(name) => Ok(Asked::One(Event::Wake(name.copy()?))),
        Command::Cancel(name) => Ok(Asked::One(Event::Cancel(name.copy()?))),
        Command::Build(kind, None) => Ok(Asked::Build(*kind, None)),
        Command::Build(kind, Some(name)) => Ok(Asked::Build(*kind, Some(name.copy()?))),
        Command::Save(kind) => Ok(Asked::Save(*kind)),
    }
}

/// What schedules a job. The event shares the job's texts.
pub fn schedule_of(job: &Job) -> Result<Event, NoMemory>
    ensures { IfOk result (λ event. event ≡ Schedule job.now.name (priority_number job.now.priority) job.now.rule job.now.asleep) }
{
    let name = job.name.copy()?;
    let rule = job.rule.as_rule().copy()?;
    Ok(Event::Schedule(name, job.priority.number(), rule, job.asleep))
}
