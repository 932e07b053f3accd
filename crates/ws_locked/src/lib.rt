//! What the lock of a workspace keeps, that many threads share: one core with its services, as a machine that does what
//! passes ask, and what passes ask of it in one turn.
//!
//! - `vow`: a `Vow`, what a caller promises of the builders, and `Free`, which promises nothing.
//! - `services`: the `Services`, which one pass at a time has, and the `Opening`, with what a workspace was opened.
//! - `locked`: what the lock keeps: the core, and the services while they are home.
//! - `machine`: that value as a machine that passes share.
//! - `moving`: the services go out to a pass, and come home.
//! - `asking`: an event of a pass, in one turn.
//! - `jobs`: what a pass asks of the jobs, in one turn.
//! - `handing`: the services, in one turn of a pass.
//! - `telling`: what a history tells.
#![tactic(auto)]

mod asking;
mod handing;
mod jobs;
mod locked;
mod machine;
mod moving;
mod services;
mod telling;
mod vow;

pub use asking::{Ask, Commit, Count, Tell, Wish, WishUnless};
pub use handing::{Await, Give, Given, Keep, Take};
pub use jobs::{Asleep, TakeJob};
pub use locked::Locked;
pub use moving::CheckInError;
pub use res_path::NoMemory;
pub use services::{Opening, Services};
pub use vow::{Free, Vow};
