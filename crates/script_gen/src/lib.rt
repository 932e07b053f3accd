//! A script that a number gives: sixteen projects with a hundred files each, edits of all of them side by side, builds and a
//! save. `specs/Generated.antt` says which script it is, `specs/Draws.antt` what is drawn.
//!
//! - `draws`: numbers drawn one after another.
//! - `naming`: names and paths with numbers in them.
//! - `commands`: commands, one at a time.
//! - `setup`: the job that makes the projects.
//! - `edits`: the jobs that write files.
//! - `script`: the script.
#![tactic(auto)]

mod commands;
mod draws;
mod edits;
mod naming;
mod script;
mod setup;

pub use script::generate;
pub use script_lang::NoMemory;
