//! Phases of jobs by many workers, each with a pass and a thread of its own, at a workspace that they share.
//!
//! `Host` is what they work at, and `Worker` a worker with its pass; `run_phase` runs one phase, `run_phases` one after
//! another, and by `gather` all passes meet. In specs/, `Passes` says what contracts see of a pass and how it goes on, `Parts`
//! what a pass makes of a job, `Workers` what is known where all passes have met, and `Phases` what is left of phases that were
//! run.
#![tactic(auto)]

mod board;
mod host;
mod meeting;
mod phase;
mod run;
mod worker;

pub use host::Host;
pub use meeting::gather;
pub use phase::run_phase;
pub use res_path::NoMemory;
pub use run::run_phases;
pub use worker::Worker;
