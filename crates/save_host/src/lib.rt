//! Saves by a pass of a run, over the core of its workspace and the store of the run.
//!
//! - `keeper`: a `Keeper`, the store of a run.
//! - `durable`: what is kept of a workspace, where it may be kept.
//! - `steps`: the pass's events of a save, one by one.
//! - `host`: the pass as the host of a save.
//! - `saving`: a save command.
#![tactic(auto)]

mod durable;
mod host;
mod keeper;
mod saving;
mod steps;

pub use durable::kept_now;
pub use keeper::Keeper;
pub use res_path::NoMemory;
pub use saving::save;
pub use steps::keep;
