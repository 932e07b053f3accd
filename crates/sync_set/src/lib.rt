//! Synchronisation bytes: what a partner, as a version control system, keeps with a resource.
//!
//! A `SyncSet` is a finite map from partner numbers to bytes. Nearly every resource has none, so an empty set is 16 bytes,
//! a tag and a pointer, and owns no memory.
#![tactic(auto)]

mod iter;
mod syncs;
mod table;

pub use iter::Iter;
use std::alloc::AllocError;
pub use syncs::SyncSet;

/// Want of memory, which nothing else can be told of.
pub type NoMemory = AllocError;
