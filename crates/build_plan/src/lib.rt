//! The plan of a build, as a function of the workspace's tree: which projects are built in which order, with which commands.
//!
//! - `described`: the description of a project.
//! - `found`: open projects, with their commands by name.
//! - `walk`: the open projects of a tree.
//! - `planning`: the plan of all of them, or of one.
#![tactic(auto)]

mod described;
mod found;
mod planning;
mod walk;

pub use described::description;
pub use planning::plan_of;
pub use proj_desc::NoMemory;
