//! A workspace is opened over a disk, with builders and participants: what the disk's two areas hold becomes its state, and
//! participants get back what they kept in it.
//!
//! - `naming`: the names of builders.
//! - `kept`: which state was opened.
//! - `opened`: a workspace over a state that was kept, with what participants kept in it.
//! - `restoring`: participants get that back, and what they got is told.
//! - `opening`: `open`, which does all of it.
#![tactic(auto)]

mod kept;
mod naming;
mod opened;
mod opening;
mod restoring;

pub use kept::Kept;
pub use naming::names_of;
pub use opened::{Opened, workspace};
pub use opening::{Fresh, open};
pub use res_path::NoMemory;
pub use restoring::{Restored, give_back, restored_of};
