//! A tree of elements over one ordered map.
//!
//! - `flat_tree`: a `FlatTree`, which keeps its newest state alone.
#![tactic(auto)]

mod flat_tree;

pub use flat_tree::FlatTree;
