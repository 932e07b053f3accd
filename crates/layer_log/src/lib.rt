//! Recorded changes of a tree.
//!
//! - `change`: a `Change`, what became of one path.
//! - `changes`: `Changes`, what became of some paths, from one tree to another.
//! - `steps`: `Steps`, a count that takes no bytes.
#![tactic(auto)]

mod change;
mod changes;
mod log;
mod same;
mod steps;

pub use change::Change;
pub use changes::Changes;
pub use steps::Steps;
pub use ws_elem::NoMemory;
