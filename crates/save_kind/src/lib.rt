//! What a save writes, what it keeps of who takes part in it, and how it ends.
//!
//! - `kind`: a `SaveKind`, what a save writes.
//! - `state`: a `PartState`, what a participant keeps, and `PartStates`, what a save keeps of all.
//! - `answer`: a `SaveAnswer`, how a save ends.
#![tactic(auto)]

mod answer;
mod kind;
mod state;

pub use answer::SaveAnswer;
pub use kind::SaveKind;
pub use res_path::NoMemory;
pub use state::{PartState, PartStates};
