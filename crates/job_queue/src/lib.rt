//! Jobs: which are known, what becomes of each, and which comes next.
//!
//! - `queue`: a `JobQueue`.
//! - `job`: a `Job`, with its rule and its `Turn`.
//! - `state`: a `JobState`, what becomes of a job.
//! - `error`: why a call is refused.
//! - `jobs`: jobs by name.
//! - `turns`: the jobs that wait, in turn.
#![tactic(auto)]

mod error;
mod job;
mod jobs;
mod queue;
mod state;
mod turns;

pub use error::JobError;
pub use job::{Job, Turn};
pub use queue::JobQueue;
pub use sched_rules::NoMemory;
pub use state::JobState;
