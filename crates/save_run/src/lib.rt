//! Saves over any host: the participants are asked what they keep, it is kept and written, and the outcome is what came
//! of it.
//!
//! - `host`: a `Host`, where saves are made.
//! - `command`: a whole save.
#![tactic(auto)]

mod command;
mod host;

pub use command::{Saved, save, save_begun};
pub use host::{Host, WriteFault};
