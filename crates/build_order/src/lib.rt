//! The order in which projects are built.
//!
//! - `answer`: a `ProjectOrder`, and how it is found.
//! - `names`: a list of names, and the place of a name in one.
//! - `graph`: which project refers to which, by number.
//! - `lists`: numbers in lists.
//! - `search`: which projects refer to each other.
//! - `groups`: the members of each component, and to what it refers.
//! - `free`: components that may come next.
//! - `places`: which component comes next.
#![tactic(auto)]

mod answer;
mod free;
mod graph;
mod groups;
mod lists;
mod names;
mod places;
mod search;

pub use answer::{ProjectOrder, order};
pub use names::{Knots, Names};
