//! The text of what a workspace keeps, as it is written: from where it stands, to any sink, without copying anything.
//!
//! Trees are told by rows, which come from a source: two trees that are walked side by side, or rows that are recorded.
//!
//! - `source`: sources of rows, and their changes as they are written.
//! - `records`: names, built records and kept states.
//! - `state`: the whole text, and its length.
//! - `narrow`: whether it can be written.
#![tactic(auto)]

mod narrow;
mod records;
mod source;
mod state;

pub use narrow::is_narrow;
pub use records::{put_built, put_kept, put_names};
pub use source::{Source, Trees, are_changes_narrow, put_changes};
pub use state::{put_state, state_len};
