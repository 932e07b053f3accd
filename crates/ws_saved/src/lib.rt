//! An open workspace with the store that it is saved in and who takes part in its saves.
//!
//! - `workspace`: a `SavedWorkspace`, these three as one.
#![tactic(auto)]

mod workspace;

pub use res_path::NoMemory;
pub use workspace::SavedWorkspace;
