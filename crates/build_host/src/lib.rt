//! Builds by the one worker of a run, over the core of its workspace and its builders.
//!
//! - `answers`: what the core answers, as builds have it.
//! - `steps`: the worker's events of a build, one by one.
//! - `opening`: the events that begin and end a build.
//! - `serving`: what is handed, committed and cleaned.
//! - `host`: the worker as the host of builds.
//! - `building`: a build command.
#![tactic(auto)]

mod answers;
mod building;
mod host;
mod opening;
mod serving;
mod steps;

pub use building::build;
pub use host::WorkerHost;
pub use res_path::NoMemory;
pub use steps::settle;
