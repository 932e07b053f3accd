//! What one line of a script says.
use crate::script::{Command, Priority};
use res_path::Name;
use script_parts::ScriptRule;

/// What one line of a script says.
#[derive(Drop)]
pub enum Line {
    /// A phase begins.
    BeginPhase,
    /// A job of this name and priority begins, asleep or not, and asks for this rule.
    BeginJob(Name, Priority, bool, ScriptRule),
    /// A command of a job.
    InJob(Command),
    /// The job ends.
    EndJob,
    /// The phase ends.
    EndPhase,
}
