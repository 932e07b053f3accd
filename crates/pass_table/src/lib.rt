//! Passes: who works on a workspace at a time, and what each has: scheduling rules, the job that it runs, open batches.
//!
//! - `pass`: a `Pass`, but for its rules.
//! - `error`: why a transfer of rules is refused.
//! - `table`: passes by their numbers.
//! - `passes`: `Passes`, with the rules that they hold.
#![tactic(auto)]

mod error;
mod pass;
mod passes;
mod table;

pub use error::TransferError;
pub use pass::Pass;
pub use passes::{NoBatch, PassBusy, Passes};
pub use res_path::NoMemory;
