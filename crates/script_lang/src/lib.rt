//! Scripts of jobs: what a script is, how a text is read as one, and how one is printed.
//!
//! - `script`: a `Script`: phases of jobs of commands.
//! - `script_copy`: equal scripts.
//! - `line`: what one line of a script says.
//! - `command`: which line the words of a line are.
//! - `open_phase`: a phase that is being read.
//! - `progress`: how far a script is read.
//! - `grammar`: the script that a text spells.
//! - `printing`: the text of a script.
#![tactic(auto)]

mod command;
mod grammar;
mod line;
mod open_phase;
mod printing;
mod progress;
mod script;
mod script_copy;

pub use grammar::{parse, parse_shared};
pub use printing::{print, put_command};
pub use script::{Command, Commands, Job, Jobs, Phase, Phases, Priority, Script};
pub use script_ops::put_operation;
pub use script_parts::ScriptRule;
pub use script_words::{ScriptError, put_word};
use std::alloc::AllocError;

/// Want of memory, as std tells it.
pub type NoMemory = AllocError;
