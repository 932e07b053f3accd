//! A workspace that many threads share: one core, its services, and a pass for each thread.
//!
//! - `job`: a `JobEvent`, what a pass may ask of a job.
//! - `workspace`: the `Workspace` with its calls of one event.
//! - `working`: what a worker of a pool asks beside a pass's other calls.
//! - `opening`: a workspace is opened over what a disk's two areas hold.
//! - `saving`: a save of a pass, beside what other passes do.
#![tactic(auto)]

mod job;
mod opening;
mod saving;
mod working;
mod workspace;

pub use job::JobEvent;
pub use pass_turns::LeaveError as JoinError;
pub use res_path::NoMemory;
pub use workspace::{Closed, Pass, Workspace};
pub use ws_locked::{CheckInError, Free, Locked, Opening, Services, Vow};
pub use ws_opening::Restored;
