//! Whether what a text tells may be kept.
//!
//! - `each`: what holds of each element of a tree.
//! - `counters`: every number was drawn, and every partner is registered.
//! - `places`: where elements stand in a tree, and on the shelf.
//! - `numbers`: node numbers and names that differ.
//! - `whole`: whole trees.
//! - `contents`: equal stamps mean equal contents.
//! - `described`: descriptions of projects, and built records of their commands.
#![tactic(auto)]

mod contents;
mod counters;
mod described;
mod each;
mod numbers;
mod places;
mod whole;

pub use contents::do_contents_agree;
pub use counters::Below;
pub use described::{Described, are_built_in};
pub use each::{Test, is_each};
pub use numbers::{do_names_differ, do_nodes_differ};
pub use places::{Placed, Shelved};
pub use whole::is_whole;
