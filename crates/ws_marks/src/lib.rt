//! What a workspace remembers beside its tree: the tree that was told last, what was built, and what participants keep.
//!
//! - `record`: a `Record`, what is remembered of one build command.
//! - `state`: a `State`, what one participant keeps, and a `Replaced`, what it kept before.
//! - `records`: records in the order of their places.
//! - `states`: states by participant.
//! - `saving`: what took whose place while a save is under way.
//! - `marks`: `Marks`, all of these.
#![tactic(auto)]

mod marks;
mod record;
mod records;
mod saving;
mod state;
mod states;

pub use marks::Marks;
pub use record::Record;
pub use res_path::NoMemory;
pub use state::{Replaced, State};
