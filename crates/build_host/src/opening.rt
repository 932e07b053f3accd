//! The events that begin and end a build.
ghost use Rattle.std.specs.Prelude.{◌≡◌, ◌⊎◌, ℕ, List, length, IfOk, OnOk, OnErr, option_copied};
ghost use Rattle.builder_api.specs.Told.{Told};
ghost use Rattle.build_run.specs.Starts.{Opens, Fails};
ghost use Rattle.core_event.specs.declared.event.Event.TheVariants as events;
ghost use Rattle.service_desk.specs.Refusals.{root_rule};
ghost use Rattle.ws_core.specs.Sessions.{Session};
ghost use Rattle.ws_core.specs.Steps.{step};
ghost use Rattle.build_core.specs.Histories.{book_of, number_of, Steps};
ghost use Rattle.build_host.specs.Hosts.{Asked, Goes, IsAlone};

use crate::NoMemory;
use crate::answers::{number_of, started_of};
use crate::steps::{answered, did};
use build_run::Started;
use builder_api::BuildKind;
use core_event::{Event, Purpose, ServiceEvent, WsRule};
use res_path::{Name, Path};
use sched_rules::WsAtom;
use std::alloc::Global;
use tree_memory::Remembers;
use ws_core::Core;

/// The rule of the root.
fn root_rule(alloc: Global) -> Result<WsRule, NoMemory>
    ensures { IfOk result (λ rule. rule ≡ root_rule) }
{
    WsRule::of(alloc, WsAtom::Path(Path::root()))
}

/// The worker begins the rule of the root. Answers the number with which that is refused, if it is.
fn begin<T: Remembers + Drop>(core: &mut Core<T>, alloc: Global) -> Result<Option<u8>, NoMemory>
    requires alone { IsAlone core.old.state }
    ensures steps { IfOk result (λ refused. Steps 1 (events.Begin root_rule) core.old core.new × (refused ≡ number_of (step core.old.state 1 (events.Begin root_rule)).1.answer)) }
    ensures same { OnErr result (core.new ≡ core.old) }
    ensures goes { Goes core.old core.new }
{
    let rule = root_rule(alloc)?;
    let answer = answered(core, alloc, Event::Begin(rule))?;
    Ok(number_of(&answer))
}

/// The worker asks for the services.
fn check_out<T: Remembers + Drop>(
    core: &mut Core<T>,
    alloc: Global,
    kind: BuildKind,
    project: Option<&Name>,
) -> Result<Started, NoMemory>
    requires alone { IsAlone core.old.state }
    ensures asked { IfOk result (λ started. Asked kind (option_copied project.entry) core.old core.new started) }
    ensures same { OnErr result (core.new ≡ core.old) }
    ensures goes { Goes core.old core.new }
{
    let project = copied(project)?;
    let event = Event::Service(ServiceEvent::Checkout(Purpose::Build(kind, project)));
    let answer = answered(core, alloc, event)?;
    match started_of(answer) {
        Some(started) => Ok(started),
        None => unreachable!(),
    }
}

/// An equal name, if there is one.
fn copied(name: Option<&Name>) -> Result<Option<Name>, NoMemory>
    ensures { IfOk result (λ copy. copy ≡ option_copied name.entry) }
{
    match name {
        Some(name) => Ok(Some(name.copy()?)),
        None => Ok(None),
    }
}

/// The worker's batch ends, and its rule of the root.
pub fn close<T: Remembers + Drop>(core: &mut Core<T>, alloc: Global) -> Result<(), NoMemory>
    requires alone { IsAlone core.old.state }
    ensures closed { OnOk result ((then : Session) × Steps 1 events.EndBatch core.old then × Steps 1 (events.End root_rule) then core.new) }
    ensures cut { OnErr result ((core.new ≡ core.old) ⊎ Steps 1 events.EndBatch core.old core.new) }
    ensures goes { Goes core.old core.new }
{
    did(core, alloc, Event::EndBatch)?;
    let rule = root_rule(alloc)?;
    did(core, alloc, Event::End(rule))
}

/// The events that begin a build, which give its plan. Where it is refused, those that end it follow.
pub fn open<T: Remembers + Drop>(
    core: &mut Core<T>,
    alloc: Global,
    kind: BuildKind,
    project: Option<&Name>,
) -> Result<Started, NoMemory>
    requires alone { IsAlone core.old.state }
    ensures opened { IfOk result (λ started. (first : ℕ) (began told : List Told) → Opens kind (option_copied project.entry) (book_of core.old 1 first began told) started (book_of core.new 1 (length core.old.history) told told)) }
    ensures failed { OnErr result ((first : ℕ) (began told : List Told) → Fails kind (option_copied project.entry) (book_of core.old 1 first began told) (book_of core.new 1 (length core.old.history) told told)) }
    ensures goes { Goes core.old core.new }
{
    if let Some(number) = begin(core, alloc)? {
        return Ok(Started::Refused(number));
    }
    did(core, alloc, Event::Batch)?;
    match check_out(core, alloc, kind, project)? {
        Started::Plan(plan) => Ok(Started::Plan(plan)),
        Started::Refused(number) => {
            close(core, alloc)?;
            Ok(Started::Refused(number))
        }
    }
}
