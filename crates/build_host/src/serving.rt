//! What is handed, committed and cleaned in a build.
ghost use Rattle.std.specs.Prelude.{◌≡◌, ◌≤◌, ℕ, true, List, length, IfOk, IfSome, OnErr};
ghost use Rattle.builder_api.specs.Told.{Told};
ghost use Rattle.build_laws.specs.States.{IsItem, item};
ghost use Rattle.build_plan.specs.Descriptions.{desc_at};
ghost use Rattle.build_run.specs.Books.{Hands, Takes};
ghost use Rattle.core_event.specs.declared.event.Event.TheVariants.{Service};
ghost use Rattle.core_event.specs.declared.service.ServiceEvent.TheVariants as services;
ghost use Rattle.ws_core.specs.Steps.{step};
ghost use Rattle.build_core.specs.Histories.{book_of, may_build, number_of, Steps};
ghost use Rattle.build_host.specs.Hosts.{Goes, IsAlone};

use crate::NoMemory;
use crate::answers::{given_of, number_of, taken_of};
use crate::steps::answered;
use build_run::{Given, Taken};
use builder_api::{BuildKind, Edits};
use core_event::{Event, ServiceEvent};
use proj_desc::Command;
use res_path::Name;
use std::alloc::Global;
use tree_memory::Remembers;
use ws_core::Core;

/// What is due is handed for the command of a project.
pub fn hand<T: Remembers + Drop>(
    core: &mut Core<T>,
    alloc: Global,
    project: &Name,
    index: u16,
    command: &Command,
    kind: BuildKind,
) -> Result<Given, NoMemory>
    requires alone { IsAlone core.old.state }
    requires may { may_build core.old.state 1 ≡ true }
    requires described { IsItem (desc_at core.old.state.resources.tree) (item project.now index command.now) }
    ensures given { IfOk result (λ given. (first : ℕ) (began told : List Told) → first ≤ length core.old.history
        → Hands (book_of core.old 1 first began told) (item project.now index command.now) kind given (book_of core.new 1 first began told)) }
    ensures same { OnErr result (core.new ≡ core.old) }
    ensures goes { Goes core.old core.new }
{
    let _ = command;
    let event = Event::Service(ServiceEvent::Handed(project.copy()?, index, kind));
    let answer = answered(core, alloc, event)?;
    match given_of(answer) {
        Some(given) => Ok(given),
        None => unreachable!(),
    }
}

/// The edits are made for the command under way.
pub fn commit<T: Remembers + Drop>(
    core: &mut Core<T>,
    alloc: Global,
    edits: Edits,
) -> Result<Taken, NoMemory>
    requires alone { IsAlone core.old.state }
    requires may { may_build core.old.state 1 ≡ true }
    ensures taken { IfOk result (λ taken. (first : ℕ) (began told : List Told) → first ≤ length core.old.history
        → IfSome (book_of core.old 1 first began told).under (λ i. Takes (book_of core.old 1 first began told) i edits taken (book_of core.new 1 first began told))) }
    ensures same { OnErr result (core.new ≡ core.old) }
    ensures goes { Goes core.old core.new }
{
    let event = Event::Service(ServiceEvent::Commit(edits));
    let answer = answered(core, alloc, event)?;
    match taken_of(&answer) {
        Some(taken) => Ok(taken),
        None => unreachable!(),
    }
}

/// What the command of a project wrote goes. Answers the number with which that is refused, if it is.
pub fn clear<T: Remembers + Drop>(
    core: &mut Core<T>,
    alloc: Global,
    project: &Name,
    index: u16,
) -> Result<Option<u8>, NoMemory>
    requires alone { IsAlone core.old.state }
    ensures steps { IfOk result (λ refused. Steps 1 (Service (services.Clean project.now index)) core.old core.new
        × (number_of (step core.old.state 1 (Service (services.Clean project.now index))).1.answer ≡ refused)) }
    ensures same { OnErr result (core.new ≡ core.old) }
    ensures goes { Goes core.old core.new }
{
    let event = Event::Service(ServiceEvent::Clean(project.copy()?, index));
    let answer = answered(core, alloc, event)?;
    Ok(number_of(&answer))
}
