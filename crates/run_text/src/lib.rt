//! The text of a run's entries: their words and lines, and how these are written to a sink.
//!
//! - `under_way`: the command that is under way at each entry.
//! - `service_text`: the words of what concerns the services.
//! - `event_text`: the words of events.
//! - `refusal_text`: the words of refusals.
//! - `read_text`: what was read.
//! - `entry_text`: the lines of entries.
//! - `writing`: bytes are written to a sink, all of them.
//! - `printing`: the lines of entries and deltas are written, gathered in pieces.
#![tactic(auto)]

mod entry_text;
mod event_text;
mod printing;
mod read_text;
mod refusal_text;
mod service_text;
mod under_way;
mod writing;

pub use entry_text::{is_shown, put_line};
pub use event_text::put_event;
pub use printing::{print_entries, print_headed};
pub use read_text::put_digest;
pub use res_path::NoMemory;
pub use under_way::Current;
pub use writing::{Unwritten, write_all, write_waiting};
