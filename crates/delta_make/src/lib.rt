//! The delta that recorded changes tell, without the trees between which they lead.
//!
//! - `making`: the rows of the changes, and their delta.
#![tactic(auto)]

mod making;

pub use making::delta_of;
