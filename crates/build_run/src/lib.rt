//! Builds over any host: each command of a plan is handed what is due and its edits are committed, knots in rounds, and the
//! outcome is what came of it.
//!
//! - `answers`: what a host answers, and what a build answers.
//! - `host`: a `Host`, where builds are made.
//! - `building`: the turns of a build and its rounds.
//! - `groups`: projects and knots in the order of a plan.
//! - `cleaning`: a clean build.
//! - `commands`: a whole build command.
#![tactic(auto)]

mod answers;
mod building;
mod cleaning;
mod commands;
mod groups;
mod host;

pub use answers::{BuildAnswer, Given, Started, Taken};
pub use commands::{build_all, build_project, clean};
pub use host::Host;
