//! A tree with marks: the newest tree, and what was recorded since each mark.
//!
//! - `slot`: a `Slot`, what a layer keeps of one path.
//! - `notes`: `Notes`, the slots of one layer.
//! - `forgetting`: layers whose mark is given up.
//! - `joining`: two layers made one, the smaller taken into the larger.
//! - `newest`: `Newest`, the newest tree, which can tell its paths with room.
//! - `noting`: puts and takes that note what was there before.
//! - `layer`: a `Mark`, a `Layer`, and the layers from a mark on.
//! - `gathering`: what became of each path since a mark.
//! - `tree`: a `LayerTree`.
#![tactic(auto)]

mod forgetting;
mod gathering;
mod joining;
mod layer;
mod newest;
mod notes;
mod noting;
mod slot;
mod tree;

pub use layer::Mark;
pub use tree::LayerTree;
pub use ws_elem::NoMemory;
