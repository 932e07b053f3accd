//! Who takes part in a save, the rounds of calls that a save makes, and the calls at the beginning of a session.
//!
//! - `participant`: a `Participant`, who takes part.
//! - `participants`: `Participants` in order, of which the first of a name takes part.
//! - `round`: a `SaveRound`, the calls of all participants in a save.
//! - `pass`: one call of each participant, one after another.
//! - `restoring`: `restore_all`, by which participants get what they kept.
//! - `notes`: `Notes`, a participant that counts full saves.
#![tactic(auto)]

mod notes;
mod participant;
mod participants;
mod pass;
mod restoring;
mod round;

pub use notes::Notes;
pub use participant::{PartFault, Participant};
pub use participants::Participants;
pub use res_path::NoMemory;
pub use restoring::{KeptState, kept_for, restore_all};
pub use round::{RoundFault, SaveRound};
