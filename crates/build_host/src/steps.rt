//! The worker's events of a build, one by one.
ghost use Rattle.std.specs.Prelude.{◌≡◌, true, IfOk, OnOk, OnErr};
ghost use Rattle.core_event.specs.declared.event.Event.TheVariants.{Service};
ghost use Rattle.core_event.specs.declared.service.Outcomes.TheVariants.{Build};
ghost use Rattle.core_event.specs.declared.service.ServiceEvent.TheVariants.{CheckIn};
ghost use Rattle.ws_core.specs.Histories.{Legal, replay};
ghost use Rattle.ws_core.specs.Sessions.{IsConsistent};
ghost use Rattle.ws_core.specs.Steps.{step};
ghost use Rattle.build_core.specs.Histories.{may_build, Steps};
ghost use Rattle.build_history.specs.Events.{IsBuilding};
ghost use Rattle.build_host.specs.Hosts.{Goes, IsAlone};

use crate::NoMemory;
use builder_api::BuildOutcome;
use core_event::{Answer, Event, Outcomes, ServiceEvent};
use std::alloc::Global;
use tree_memory::Remembers;
use ws_core::Core;

/// The number of the worker's pass.
const WORKER: u64 = 1;

/// The state is sound, and the one that the history leads to, which is a legal one, as of every workspace. Nothing is done.
pub fn settle<T: Remembers + Drop>(core: &Core<T>)
    ensures placed { core.now.state ≡ replay core.now.opened core.now.history }
    ensures sound { IsConsistent core.now.state }
    ensures legal { Legal core.now.opened core.now.history }
{
    let _ = core.state();
    let _ = core.history();
}

/// The worker does an event. Answers what the core does.
pub fn answered<T: Remembers + Drop>(
    core: &mut Core<T>,
    alloc: Global,
    event: Event,
) -> Result<Answer, NoMemory>
    requires alone { IsAlone core.old.state }
    requires building { IsBuilding event }
    ensures steps { IfOk result (λ answer. Steps 1 event core.old core.new × (answer ≡ (step core.old.state 1 event).1.answer)) }
    ensures same { OnErr result (core.new ≡ core.old) }
    ensures goes { Goes core.old core.new }
{
    settle(core);
    let reply = core.step(alloc, WORKER, event)?;
    Ok(reply.answer)
}

/// The worker does an event, whatever is answered.
pub fn did<T: Remembers + Drop>(
    core: &mut Core<T>,
    alloc: Global,
    event: Event,
) -> Result<(), NoMemory>
    requires alone { IsAlone core.old.state }
    requires building { IsBuilding event }
    ensures steps { OnOk result (Steps 1 event core.old core.new) }
    ensures same { OnErr result (core.new ≡ core.old) }
    ensures goes { Goes core.old core.new }
{
    settle(core);
    core.perform(alloc, WORKER, event)
}

/// The worker, which may build, gives the services back. It takes no memory.
pub fn check_in<T: Remembers + Drop>(core: &mut Core<T>, alloc: Global, outcome: BuildOutcome)
    requires alone { IsAlone core.old.state }
    requires may { may_build core.old.state 1 ≡ true }
    ensures steps { Steps 1 (Service (CheckIn (Build outcome))) core.old core.new }
    ensures goes { Goes core.old core.new }
{
    settle(core);
    let event = Event::Service(ServiceEvent::CheckIn(Outcomes::Build(outcome)));
    match core.perform(alloc, WORKER, event) {
        Ok(()) => (),
        Err(_) => unreachable!(),
    }
}
