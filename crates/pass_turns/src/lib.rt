//! Turns of passes at a machine that many threads share: it does what they ask, one event at a time, and writes it down.
//! `Machine` is what is shared, `Deed` what a pass does in one turn, `Attempt` what it waits to do, `Pass` a thread's token,
//! and `Room` the machine with its passes. `specs/Turns.antt` says what contracts see.
#![tactic(auto)]

mod attempt;
mod begin;
mod deed;
mod entering;
mod machine;
mod meeting;
mod pass;
mod room;

pub use attempt::Attempt;
pub use deed::Deed;
pub use machine::{LeaveError, Machine};
pub use pass::Pass;
pub use room::Room;
pub use ws_turn::{Logged, NoMemory};
