//! What a state text tells, built again.
//!
//! - `base`: a tree as what changes are told against.
//! - `trees`: a tree from another one and the changes.
//! - `records`: names, built records and kept states.
//! - `durable`: all of it.
#![tactic(auto)]

mod base;
mod durable;
mod records;
mod trees;

pub use base::BaseTree;
pub use durable::durable_of;
