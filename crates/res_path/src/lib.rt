//! Paths of resources: names, and lists of names.
//!
//! - `name`: a `Name`, one segment of a path.
//! - `path`: a `Path`, a list of at most 64 names, kept as one shared text.
//! - `parts`: what stands between the slashes of a text.
//! - `order`: the order of paths, in one pass over their texts.
//! - `error`: why a text is no name or no path.
#![tactic(auto)]

mod error;
mod name;
mod order;
mod parts;
mod path;

pub use error::PathError;
pub use name::Name;
pub use path::Path;
use std::alloc::AllocError;

/// Want of memory, as std tells it.
pub type NoMemory = AllocError;
