//! Descriptions of projects, written as JSON: the projects that a project refers to, and its build commands.
//!
//! - `desc`: a `Desc`, read from a text and written again.
//! - `command`, `input`: its commands and their inputs.
//! - `cause`: why a text is no description.
//! - `member`: the names of the members.
//! - `value`: looking into a JSON value.
//! - `shape`: whether a value has a description's shape.
//! - `reading`: names and paths out of a value.
//! - `rules`: what a project's description must keep besides.
//! - `writing`: the value of a description.
#![tactic(auto)]

mod cause;
mod command;
mod desc;
mod input;
mod member;
mod reading;
mod rules;
mod shape;
mod value;
mod writing;

pub use cause::{DescCause, DescError};
pub use command::{Command, Commands};
pub use desc::{Desc, References};
pub use input::{Input, Inputs};
pub use member::Member;
pub use res_path::NoMemory;
