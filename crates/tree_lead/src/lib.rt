//! One tree led to be another.
//!
//! - `leading`: puts and takes at exactly the paths at which they differ.
#![tactic(auto)]

mod leading;

pub use leading::lead;
pub use ws_elem::NoMemory;
