//! The run of a script on what two areas hold, from the bytes that come in to the bytes that go out.
//!
//! - `program`: `top`, the one call of the program, and `answer`, which makes it.
//! - `kit`: what a caller brings.
//! - `reading`: a source is read to its end.
//! - `opening`: the areas are opened.
//! - `running`: participants get back what they kept, a script is run on the workspace that was opened, and what was done is
//!   written.
//! - `response`: a script is read, the areas are opened, and it is run on what they hold.
//! - `report`: what was given back, what was done, and what changed since the start, or a summary, is written.
//! - `checking`: what the areas hold is told.
//! - `generating`: the script that a number gives is told.
//! - `loading`: that script is run on what the areas hold.
//! - `refusal`: why the areas couldn't be read is told.
#![tactic(auto)]

mod checking;
mod generating;
mod kit;
mod loading;
mod opening;
mod program;
mod reading;
mod refusal;
mod report;
mod response;
mod running;

pub use builder_api::{Builder, Builders, Meanings, Silent};
pub use kit::{Areas, Kit};
pub use program::{answer, top};
pub use res_path::NoMemory;
pub use response::Outcome;
pub use save_parts::{Listener, Listeners};
pub use save_round::{Participant, Participants};
pub use ws_opening::Kept;
pub use ws_outside::Disk;
