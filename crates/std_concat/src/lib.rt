//! The standard builder `concat`: one output file, the files of all inputs one after another.
//!
//! - `joining`: the bytes of the files of some roots.
//! - `builder`: `Concat`, the builder.
#![tactic(auto)]

mod builder;
mod joining;

pub use builder::Concat;
