//! The lines of operations: how they are read, and how they are printed.
//!
//! - `verb`: the words that lines begin with.
//! - `operations`: which operation the words of a line are.
//! - `op_text`: how operations are printed.
#![tactic(auto)]

mod op_text;
mod operations;
mod verb;

pub use op_text::{put_doing, put_operation};
pub use operations::operation_with;
use std::alloc::AllocError;
pub use verb::{Verb, verb_of};

/// Want of memory, as std tells it.
pub type NoMemory = AllocError;
