//! A lock with a history: a value that stands for a list of entries, which one thread at a time takes in turn, and a pass
//! for each thread, which knows what the thread has seen of the list.
//! `Logged` is what the value is, `Pass` a thread's token, `Shared` the lock. `specs/Passes.antt` says what contracts see.
//! The rule that holds at every step, whatever order the threads take, is `Turn` of `specs/Inside/Turn.antt`;
//! `specs/Inside/Steps.antt` says what each step tells its thread.
#![tactic(auto)]

mod logged;
mod pass;
mod plays;
mod shared;
mod steps;
mod view;

pub use logged::Logged;
pub use pass::Pass;
pub use shared::Shared;
use std::alloc::AllocError;

/// Memory ran out.
pub type NoMemory = AllocError;
