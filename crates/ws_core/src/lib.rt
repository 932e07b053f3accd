//! The workspace's core: what an event of a pass does, and the history of what was done.
//!
//! What events are, and what they are answered, stands in core_event, the rules of operations in op_rule, the events of
//! passes, jobs, rules and batches in job_manager, what is there and remembered in ws_content, and who serves builds and
//! saves in service_desk.
//!
//! - `history`: a `History`, entries in order.
//! - `opening`: what is there in a workspace that is opened from what was kept.
//! - `serving`: what concerns the services: builds and saves, by one pass at a time.
//! - `state`: a `State`, what there is at one moment.
//! - `stepping`: one step of a state: an event is done or refused, and what changed is told.
//! - `session`: a `Core`, an open workspace: its state, with all that was done since it was opened.
#![tactic(auto)]

mod history;
mod opening;
mod serving;
mod session;
mod state;
mod stepping;

pub use core_event::{
    Answer, Apart, Entry, Event, Notice, Outcomes, Purpose, Refusal, Reply, ServiceEvent, Twice,
    WsRule,
};
pub use history::History;
pub use job_manager::JobManager;
pub use op_rule::operation_rule;
pub use res_path::NoMemory;
pub use service_desk::BuilderNames;
pub use session::{Core, JobCount};
pub use state::State;
