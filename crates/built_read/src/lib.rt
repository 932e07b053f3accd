//! What was built last, read from what was kept.
//!
//! - `values`: looking into a JSON value.
//! - `commands`: a build command out of its text.
//! - `records`: the records that a workspace remembers.
#![tactic(auto)]

mod commands;
mod records;
mod values;

pub use commands::command_of;
pub use records::records_of;
pub use res_path::NoMemory;
