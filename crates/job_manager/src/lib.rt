//! The jobs of a workspace and the passes that work on it, as the platform's job manager has them: events that concern
//! passes, jobs, scheduling rules and batches, each refused or done.
//!
//! - `manager`: a `JobManager`, and what its rules admit.
//! - `jobs`: the events that concern jobs.
//! - `passes`: the events that concern passes, their rules and their batches.
//! - `acting`: any of these events.
#![tactic(auto)]

mod acting;
mod jobs;
mod manager;
mod passes;

pub use acting::closes;
pub use manager::JobManager;
pub use res_path::NoMemory;
