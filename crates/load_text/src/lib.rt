//! The summary of a run: how many jobs were finished, how many builds settled, how many elements the tree has that the run
//! left, and its digest.
//!
//! After want of memory a part of a summary may have been appended.
//!
//! - `counting`: entries of a history are counted.
//! - `summary`: the summary of a history and a tree.
//! - `printing`: the summary of an open workspace is printed.
#![tactic(auto)]

mod counting;
mod printing;
mod summary;

pub use printing::print_summary;
pub use res_path::NoMemory;
pub use summary::put_summary;
