//! The store of what a workspace keeps, over a disk's two areas and over every crash.
//!
//! - `faults`: why a store wasn't opened, and why a save failed.
//! - `fresh`: what the fresh workspace keeps.
//! - `meaning`: the state that texts of an area stand for, or where they are refused.
//! - `looking`: the same of areas, as their damage.
//! - `look`: what both areas hold, without opening a store.
//! - `saves`: what a store knows, and how saves are written.
//! - `store`: the store.
#![tactic(auto)]

mod faults;
mod fresh;
mod look;
mod looking;
mod meaning;
mod saves;
mod store;

pub use faults::{OpenFault, SaveFault};
pub use look::Found;
pub use saves::Saves;
pub use store::Store;
