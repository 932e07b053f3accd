//! Who takes part in a workspace's life beside jobs and builders.
//!
//! - `listener`: a `Listener`, which is told what changed.
//! - `listeners`: `Listeners`, each of which is told.
#![tactic(auto)]

mod listener;
mod listeners;

pub use listener::Listener;
pub use listeners::Listeners;
