//! What builders that make files of files share.
//!
//! - `roots`: the files of an input root, and their paths from it.
//! - `made_files`: `MadeFiles`, the files that a builder makes, no two of whose paths overlap.
//! - `changes`: the edits by which the files below an output become those that were made.
//! - `problem`: a problem of its four parts.
//! - `since`: what a delta spares, and the edits at its nodes.
//! - `calm`: whether by a delta no more than files that stood alone went.
//! - `clear`: whether the files of a root are clear of each other.
//! - `making`: a `Making`, files and problems so far, and the edits that they come to.
//! - `file_map`: files by path, on which `made_files` stands.
#![tactic(auto)]

mod calm;
mod changes;
mod clear;
mod file_map;
mod made_files;
mod making;
mod problem;
mod roots;
mod since;

pub use calm::is_calm;
pub use changes::changes_to;
pub use clear::is_clear;
pub use made_files::MadeFiles;
pub use making::Making;
pub use problem::problem_of;
pub use res_path::NoMemory;
pub use roots::{files_of_root, relative};
pub use since::{changes_at, is_idle};
