//! Jobs of phases by passes of any room that passes share.
//!
//! - `room`: a `JobRoom`: what the commands of jobs ask of a room, and what its passes make of builds.
//! - `commands`: a pass does the commands of a job that it took, and finishes it.
//! - `scheduling`: pass 0 schedules the jobs of a phase, and cancels those that sleep.
//! - `floor`: a `Floor`: a room as phase_pool's `Host`. Who makes one runs phases over it by `phase_pool::run_phases`.
//!
//! In specs/, `Calls` says what a pass does in one call.
#![tactic(auto)]

mod commands;
mod floor;
mod room;
mod scheduling;

pub use floor::Floor;
pub use res_path::NoMemory;
pub use room::{JobRoom, PassBuilds};
