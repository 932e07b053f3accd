//! Fields by their bytes: numbers with the highest byte first, and texts behind their length in four bytes.
//!
//! `Out` appends fields to a list of bytes. `In` reads them from the front of one, and answers `Short` where too few
//! bytes remain for a field. What `Out` writes, `In` reads back.
#![tactic(auto)]

mod input;
mod output;

pub use input::{In, Short};
pub use output::Out;
use std::alloc::AllocError;

/// Want of memory, which nothing else can be told of.
pub type NoMemory = AllocError;
