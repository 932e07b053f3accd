//! Workers that take jobs from a board until it is empty, each in a thread of its own.
//! `Board` is what they work at, `run_phase` lets them. `specs/Workers.antt` says what contracts see of all workers.
#![tactic(auto)]

mod board;
mod pool;

pub use board::Board;
pub use pool::run_phase;
