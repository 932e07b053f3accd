//! Tests of recorded changes, of the deltas that are made of them, and of trees with marks. What their rows give was worked by hand.
//!
//! - `asserting`: the assertions.
//! - `rows`: a table of rows, each of layers of changes from a tree on, and how a row is told.
//! - `elements`: elements and trees as they are written in rows.
//! - `changes`: changes as they are recorded, composed and undone.
//! - `deltas`: the deltas of changes.
//! - `trees`: trees with marks, beside flat trees.
//! - `many`: ten thousand marks of one tree.
#![tactic(auto)]

#[cfg(test)]
mod asserting;
#[cfg(test)]
mod changes;
#[cfg(test)]
mod deltas;
#[cfg(test)]
mod elements;
#[cfg(test)]
mod many;
#[cfg(test)]
mod rows;
#[cfg(test)]
mod trees;
