//! What is there in a workspace, and what is remembered beside it: its tree, the members of closed projects, the tree as it
//! was opened and as it was told last, what was built last, and what participants of saves keep.
//!
//! - `remembering`: trees that are remembered under numbers, told, kept as what was built last, and given up.
//! - `keeping`: what participants keep: set in a save, put back, and let go.
//! - `forgetting`: which operation forgets what was built last.
//! - `handing`: what is due for a command.
//! - `lasting`: what lasts over a save.
//! - `restoring`: what participants kept, as a session that begins has it.
//! - `opening`: the trees that are kept, led through as a workspace is opened.
//! - `operating`: operations, and what is told of them.
//! - `building`: commits of a builder's edits and cleanings, and what is told of them.
//! - `contents`: a `Content`, what is there, and what it was.
#![tactic(auto)]

mod building;
mod contents;
mod forgetting;
mod handing;
mod keeping;
mod lasting;
mod opening;
mod operating;
mod remembering;
mod restoring;

pub use contents::Content;
pub use res_path::NoMemory;
