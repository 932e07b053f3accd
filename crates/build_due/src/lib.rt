//! What a build hands for a command.
//!
//! - `site`: a `Site`, a command at its place in the workspace.
//! - `sameness`: whether a command says what it said when it was built last.
//! - `sight`: the files that a command sees.
//! - `handing`: what is handed.
#![tactic(auto)]

mod handing;
mod sameness;
mod sight;
mod site;

pub use handing::is_whole;
pub use res_path::NoMemory;
pub use site::Site;
