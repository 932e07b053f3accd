//! The events of a workspace's core: what a pass may ask, what it is answered, and what is told.
//!
//! - `event`: an `Event`, what a pass may ask.
//! - `service`: a `ServiceEvent`, what a pass may ask of the services.
//! - `reply`: a `Reply`, what it is answered: an `Answer`, maybe a `Refusal`, and a `Notice`.
//! - `notice`: a `Notice`, what an event tells.
//! - `entry`: an `Entry`, one event with its reply.
//! - `twice`: a `Twice`, a value with a copy where one is wanted.
//! - `apart`: an `Apart`, a value that is kept apart from what holds it.
#![tactic(auto)]

mod apart;
mod entry;
mod event;
mod notice;
mod reply;
mod service;
mod twice;

pub use apart::Apart;
pub use entry::Entry;
pub use event::{Event, is_read};
pub use notice::Notice;
pub use reply::{Answer, Refusal, Reply};
pub use res_path::NoMemory;
pub use service::{Outcomes, Purpose, ServiceEvent};
pub use twice::{
    Twice, answer_twice, done_twice, id_twice, job_twice, no_job_twice, refused_twice, reply_twice,
    untold,
};

/// A scheduling rule of the workspace.
pub type WsRule = sched_rules::Rule<sched_rules::WsAtom>;
