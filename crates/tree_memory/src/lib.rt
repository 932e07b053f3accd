//! Trees that can remember what they were.
//!
//! - `remembers`: `Remembers`, what a tree has to do that remembers.
//! - `copies`: a `CopyTree`, which remembers by whole copies.
//! - `layers`: a `LayerTree` as a tree that remembers.
//! - `sparing`: a `Sparing` tree, to which a memory may be given up without memory of the machine.
#![tactic(auto)]

mod copies;
mod layers;
mod remembers;
mod sparing;

pub use copies::{Copied, CopyTree};
pub use remembers::Remembers;
pub use sparing::Sparing;
pub use ws_elem::NoMemory;
