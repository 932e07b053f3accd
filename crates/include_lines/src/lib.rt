//! Files whose lines include others.
//!
//! - `lines`: the lines of a file, and the name in a line `@include NAME`.
//! - `cutting`: a `CutFile`, the file cut at those lines.
//! - `message`: what is told of a file that isn't there.
//! - `expanding`: the bytes with each such line replaced by the file's bytes, and the lines for which there is no file.
#![tactic(auto)]

mod cutting;
mod expanding;
mod lines;
mod message;

pub use cutting::{CutFile, IncludeLine, Part};
pub use expanding::{Expanded, Included, Missing};
pub use mark_set::NoMemory;
