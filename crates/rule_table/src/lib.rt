//! Who holds which scheduling rules.
//!
//! - `table`: a `RuleTable`, the rules that are held.
//! - `held`: a `Held`, one rule with its holder.
//! - `search`: which of the held rules is asked for.
//! - `error`: why a rule isn't begun, ended or handed over.
#![tactic(auto)]

mod error;
mod held;
mod search;
mod table;

pub use error::{BeginError, EndError};
pub use held::Held;
pub use sched_rules::NoMemory;
pub use table::RuleTable;
