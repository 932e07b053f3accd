//! The phases of a script, run by one worker on a workspace.
//!
//! - `worker`: the worker takes jobs, does their commands and finishes them.
//! - `phase`: pass 0 schedules the jobs, the worker runs them, and pass 0 cancels those that sleep.
//! - `telling`: listeners are told what entries tell.
//! - `run`: the worker enters, the phases are run one after another, and it leaves.
#![tactic(auto)]

mod phase;
mod run;
mod telling;
mod worker;

pub use res_path::NoMemory;
pub use run::run_phases;
