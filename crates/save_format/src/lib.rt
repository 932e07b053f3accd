//! What a workspace is on disk, as bytes.
//!
//! - `lists`: the trees of a state.
//! - `lawful`: whether a state may be kept.
//! - `texts`: images and records, both ways.
#![tactic(auto)]

mod lawful;
mod lists;
mod texts;

pub use lawful::is_lawful;
pub use texts::{image, narrow, read_image, read_record, record};
