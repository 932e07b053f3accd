//! State texts: what is saved of a workspace, told against a tree and a shelf that are known.
//!
//! A state text has the counters, the partners, and then changes alone: from the base to the tree and the shelf, and from
//! the tree to the trees of last builds and of kept states. It is a form, so that its value, or the first place at which
//! it can't go on, is exact.
//!
//! - `base`: what changes are told against.
//! - `entry`, `change`: what stands at a path, and the changes of a tree.
//! - `records`: built records and kept states.
//! - `state`, `reading`: a whole state, and how it is read.
//! - `writing`: entries and changes, as they are written.
#![tactic(auto)]

mod base;
mod change;
mod entry;
mod reading;
mod records;
mod state;
mod writing;

pub use base::{Base, Changed, Nothing};
pub use change::Change;
pub use entry::Entry;
pub use reading::read_state;
pub use records::{Built, Kept};
pub use state::State;
pub use writing::{put_change, put_entry};
