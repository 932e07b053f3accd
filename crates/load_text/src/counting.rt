//! Entries of a history are counted.
ghost use Rattle.std.specs.Prelude.{◌≡◌};
ghost use Rattle.core_event.specs.declared.event.Event.TheVariants.{Service};
ghost use Rattle.core_event.specs.declared.service.Outcomes.TheVariants.{Build};
ghost use Rattle.core_event.specs.declared.service.ServiceEvent.TheVariants.{CheckIn};
ghost use Rattle.load_text.specs.Summaries.{finished, is_finish, is_settled, settled};

use builder_api::BuildOutcome;
use core_event::{Entry, Event, Outcomes, ServiceEvent};

/// How many of the entries end a job.
pub fn finished(entries: &[Entry]) -> usize
    ensures { result ≡ finished entries.now }
{
    entries
        .iter()
        .filter(|entry| is_finish(&entry.event))
        .count()
}

/// How many of the entries end a build that settled.
pub fn settled(entries: &[Entry]) -> usize
    ensures { result ≡ settled entries.now }
{
    entries
        .iter()
        .filter(|entry| is_settled(&entry.event))
        .count()
}

/// Whether the event ends a job.
#[tactic(auto, unfolding(crate::specs::Summaries::is_finish))]
fn is_finish(event: &Event) -> bool
    ensures { result ≡ is_finish event.now }
{
    matches!(event, Event::Finish)
}

/// Whether the event ends a build that settled.
#[tactic(auto, unfolding(crate::specs::Summaries::is_settled))]
fn is_settled(event: &Event) -> bool
    ensures { result ≡ is_settled event.now }
{
    match event.service() {
        Some(event) => is_settled_check_in(event),
        None => false,
    }
}

/// Whether the services are given back after a build that settled.
#[tactic(auto, unfolding(crate::specs::Summaries::is_settled))]
fn is_settled_check_in(event: &ServiceEvent) -> bool
    ensures { result ≡ is_settled (Service event.now) }
{
    match event {
        ServiceEvent::CheckIn(Outcomes::Build(outcome)) => has_settled(outcome),
        ServiceEvent::CheckIn(Outcomes::Save(_))
        | ServiceEvent::Checkout(_)
        | ServiceEvent::Handed(_, _, _)
        | ServiceEvent::Commit(_)
        | ServiceEvent::Clean(_, _)
        | ServiceEvent::Saving(_) => false,
    }
}

/// Whether the build settled.
#[tactic(auto, unfolding(crate::specs::Summaries::is_settled))]
fn has_settled(outcome: &BuildOutcome) -> bool
    ensures { result ≡ is_settled (Service (CheckIn (Build outcome.now))) }
{
    matches!(outcome, BuildOutcome::Settled)
}
