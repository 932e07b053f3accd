//! The scheduling rules of operations.
//!
//! - `making`: the rule by which an operation is admitted.
//! - `containing`: whether a rule contains that of an operation, told without making that.
#![tactic(auto)]

mod containing;
mod making;

pub use containing::{contains_at, contains_operation};
pub use making::operation_rule;
