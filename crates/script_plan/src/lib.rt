//! What a script asks of those who run it.
//!
//! - `plan`: what commands and jobs ask of the workspace.
//! - `book`: the jobs of a phase, by name.
//!
//! In specs/, `Plans` says what a script is to whoever runs it: phases of jobs of commands, and by which entries a pass does a
//! command. How a pass makes a build is left open there, since that is not the same alone and beside others.
#![tactic(auto)]

mod book;
mod plan;

pub use book::{JobBook, PhaseBook};
pub use plan::{Asked, asked_of, schedule_of};
pub use res_path::NoMemory;
