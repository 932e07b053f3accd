//! The standard builder `copy`: the files of all inputs, each at its path from its input.
//!
//! - `copying`: what is made of the files of some roots.
//! - `shortcut`: the edits that a delta tells.
//! - `builder`: `Copy`, the builder.
#![tactic(auto)]

mod builder;
mod copying;
mod shortcut;

pub use builder::Copy;
