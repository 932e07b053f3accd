//! What a pass may ask of a job.
ghost use Rattle.std.specs.Prelude.{◌≡◌};
ghost use Rattle.ws_shared.specs.Jobs.{job_event};

use core_event::{Event, WsRule};
use res_path::Name;

/// What a pass may ask of a job.
#[derive(Drop)]
pub enum JobEvent {
    /// The job of this name and priority waits, or sleeps where the last part says so, and is to have this rule while it is run.
    Schedule(Name, u8, WsRule, bool),
    /// The job that waits sleeps.
    Sleep(Name),
    /// The job that sleeps waits.
    Wake(Name),
    /// The job that waits or sleeps is over.
    Cancel(Name),
    /// A job that may be run is run by the pass, if there is one.
    Take,
    /// The pass's job is over.
    Finish,
}

impl JobEvent {
    /// The same, as an event of the core.
    pub(crate) fn into_event(self) -> Event
        ensures { result ≡ job_event self }
    {
        match self {
            JobEvent::Schedule(name, priority, rule, asleep) => {
                Event::Schedule(name, priority, rule, asleep)
            }
            JobEvent::Sleep(name) => Event::Sleep(name),
            JobEvent::Wake(name) => Event::Wake(name),
            JobEvent::Cancel(name) => Event::Cancel(name),
            JobEvent::Take => Event::Take,
            JobEvent::Finish => Event::Finish,
        }
    }
}
