//! A script that many workers run: pass 0 lets a pass in for each, they run its phases, and they are taken in again.
//!
//! `Crew` is what they work at, and `run_script` runs the phases of a script. In specs/, `Passes` says how passes come and go,
//! `Heard` what listeners were told, `Told` what passes that have left told of their own entries, and `Ends` who is there where
//! a run ended.
#![tactic(auto)]

mod admitting;
mod crew;
mod leaving;
mod phases;
mod script;
mod stopped;
mod telling;

pub use crew::Crew;
pub use res_path::NoMemory;
pub use script::run_script;
pub use stopped::{Stays, Stopped};
