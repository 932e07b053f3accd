//! The change of an output by a builder's edits, over any tree.
//!
//! What edits come to, and why they are refused by themselves, stands in output_edits.
//! - `committing`: `commit_edits` and `clean_output`, which change an output or refuse, with a way back.
//! - `planning`: what they are going to change.
//! - `deeds`: what is to be put at one path.
//! - `clearing`, `drawing`, `placing`: what goes, which numbers are drawn, and what is put.
//! - `telling`: the problem markers of a command.
//! - `room`: too many elements, or too great numbers.
#![tactic(auto)]

mod clearing;
mod committing;
mod deeds;
mod drawing;
mod placing;
mod planning;
mod room;
mod telling;

pub use committing::{Committed, clean_output, commit_edits};
pub use op_kind::{NoMemory, Side};
pub use op_plan::Back;
pub use output_edits::{EditError, EditRefusal};
