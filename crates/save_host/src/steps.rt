//! The pass's events of a save, one by one.
ghost use Rattle.std.specs.Prelude.{◌≡◌, Bool, true, false, IfOk, OnOk, OnErr};
ghost use Rattle.save_kind.specs.declared.answer.SaveAnswer.TheVariants as answers;
ghost use Rattle.ws_core.specs.Histories.{has_entered, replay};
ghost use Rattle.ws_core.specs.Sessions.{IsConsistent};
ghost use Rattle.save_history.specs.Stages.{HasEnded, HasKept, IsUnderWay, Starts, number_of};

use crate::NoMemory;
use core_event::{Answer, Event, Outcomes, Purpose, ServiceEvent};
use elem_tree::LayerTree;
use save_kind::{PartStates, SaveAnswer, SaveKind};
use std::alloc::Global;
use ws_core::Core;

/// The state is sound, and the one that the history leads to, as of every workspace. Nothing is done.
fn settle(core: &Core<LayerTree>)
    ensures placed { core.now.state ≡ replay core.now.opened core.now.history }
    ensures sound { IsConsistent core.now.state }
{
    let _ = core.state();
}

/// The number with which an event was refused, if it was.
fn number_of(answer: &Answer) -> Option<u8>
    ensures { result ≡ number_of answer.now }
{
    match answer {
        Answer::Refused(refusal) => Some(refusal.value().number()),
        _ => None,
    }
}

/// The pass takes the services for a save of the kind. Answers the number with which that is refused, if it is.
pub fn begin(
    core: &mut Core<LayerTree>,
    alloc: Global,
    pass: u64,
    kind: SaveKind,
) -> Result<Option<u8>, NoMemory>
    requires entered { has_entered pass core.old.state ≡ true }
    ensures starts { IfOk result (λ refused. Starts pass kind refused core.old core.new) }
    ensures same { OnErr result (core.new ≡ core.old) }
{
    settle(core);
    let event = Event::Service(ServiceEvent::Checkout(Purpose::Save(kind)));
    let reply = core.step(alloc, pass, event)?;
    Ok(number_of(&reply.answer))
}

/// The states are kept in the save of the pass that is under way.
pub fn keep(
    core: &mut Core<LayerTree>,
    alloc: Global,
    pass: u64,
    states: PartStates,
) -> Result<(), NoMemory>
    requires entered { has_entered pass core.old.state ≡ true }
    requires under_way { IsUnderWay pass false core.old.state }
    ensures kept { OnOk result (HasKept pass states core.old core.new) }
    ensures same { OnErr result (core.new ≡ core.old) }
{
    settle(core);
    core.perform(alloc, pass, Event::Service(ServiceEvent::Saving(states)))
}

/// The save of the pass ends so. It takes no memory.
pub fn check_in(core: &mut Core<LayerTree>, alloc: Global, pass: u64, answer: SaveAnswer)
    requires entered { has_entered pass core.old.state ≡ true }
    requires under_way { (kept : Bool) × IsUnderWay pass kept core.old.state × (answer ≡ answers.Saved → kept ≡ true) }
    ensures { HasEnded pass answer core.old core.new }
{
    settle(core);
    let event = Event::Service(ServiceEvent::CheckIn(Outcomes::Save(answer)));
    match core.perform(alloc, pass, event) {
        Ok(()) => (),
        Err(_) => unreachable!(),
    }
}
