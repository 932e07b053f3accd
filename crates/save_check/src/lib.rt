//! Whether a state may be saved, decided by its parts.
//!
//! - `elements`: whether an element is sound by itself.
//! - `trees`: whether each element of a tree can be told.
//! - `records`: whether names, built records and kept states can be told.
//! - `states`: whether a state is valid, and so may be saved.
#![tactic(auto)]

mod elements;
mod records;
mod states;
mod trees;

pub use states::{is_valid, may_be_saved};
