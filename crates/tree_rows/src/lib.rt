//! The rows by which one tree differs from another: in path order, exactly the paths whose entries differ.
//!
//! - `same`: whether two elements are equal.
//! - `pairs`: the entries of two trees, walked side by side.
//! - `rows`: the rows, of two trees or from another source.
#![tactic(auto)]

mod pairs;
mod rows;
mod same;

pub use rows::{Between, Row};
pub use same::are_same;
