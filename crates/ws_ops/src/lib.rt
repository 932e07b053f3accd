//! The operations that change a workspace's resources, over any tree.
//!
//! What an operation is, why it is refused and what it does stands in op_kind.
//! - `applying`: `apply`, which does an operation or refuses it, and `take_back`.
//! - `at_once`: creations that are done with one search.
//! - `creation`, `contents`, `deletion`, `transfer`, `projects`, `marking`, `syncing`, `reading`: the plan of each
//!   operation.
#![tactic(auto)]

mod applying;
mod at_once;
mod contents;
mod creation;
mod deletion;
mod marking;
mod projects;
mod reading;
mod syncing;
mod transfer;

pub use applying::{apply, take_back};
pub use op_kind::{Entries, NoMemory, Op, OpAnswer, OpError, OpRefusal, Partners, Side, Want};
pub use op_plan::{Applied, Back};
