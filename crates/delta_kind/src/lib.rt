//! What changed from one tree to another, path by path, as the platform's resource deltas tell it.
//!
//! - `flags`: the platform's kinds and flags of a change, and when each holds.
//! - `place`: a `Place`, where a node was or where it is.
//! - `node`: a `DeltaNode`, what became of one path.
//! - `delta`: a `Delta`, the nodes in path order.
//! - `parts`: a node of some nodes in path order, and the nodes below some paths.
//! - `row`: a `Row`, a path with its entries before and after.
//! - `places`: which paths lost and gained each node.
//! - `walk`: the rows of two trees, walked side by side.
//! - `plain`: the nodes of two trees between which nothing moved.
//! - `making`: the delta of two trees, and the one pass over rows that makes it.
#![tactic(auto)]

mod delta;
mod flags;
mod making;
mod node;
mod parts;
mod place;
mod places;
mod plain;
mod row;
mod walk;

pub use delta::Delta;
pub use flags::{
    ADDED, CHANGED, CONTENT, DERIVED_CHANGED, DESCRIPTION, MARKERS, MOVED_FROM, MOVED_TO,
    NO_CHANGE, OPEN, REMOVED, REPLACED, SYNC, TYPE,
};
pub use making::{compare, delta_of_rows};
pub use node::DeltaNode;
pub use place::Place;
pub use row::{Row, Turn};
