//! What a workspace keeps when no program runs.
//!
//! - `names`: lists of names.
//! - `built`: what the last build of a project's command left.
//! - `kept`: what a participant keeps.
//! - `durable`: all of it.
#![tactic(auto)]

mod built;
mod durable;
mod kept;
mod names;

pub use built::{Builds, Built};
pub use durable::Durable;
pub use kept::{Keeps, Kept};
pub use names::Names;
