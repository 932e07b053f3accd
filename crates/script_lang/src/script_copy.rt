//! Equal scripts, and equal parts of them.
ghost use Rattle.std.specs.Prelude.{◌≡◌, IfOk};

use crate::NoMemory;
use crate::script::{Command, Job, Phase, Script};

impl Command {
    /// An equal command, which shares its texts.
    pub fn copy(&self) -> Result<Command, NoMemory>
        ensures { IfOk result (λ copy. copy ≡ self.now) }
    {
        match self {
            Command::Operation(op) => Ok(Command::Operation(op.copy()?)),
            Command::Batch => Ok(Command::Batch),
            Command::EndBatch => Ok(Command::EndBatch),
            Command::Checkpoint => Ok(Command::Checkpoint),
            Command::Begin(rule) => Ok(Command::Begin(rule.copy()?)),
            Command::TryBegin(rule) => Ok(Command::TryBegin(rule.copy()?)),
            Command::End(rule) => Ok(Command::End(rule.copy()?)),
            Command::Sleep(name) => Ok(Command::Sleep(name.copy()?)),
            Command::Wake(name) => Ok(Command::Wake(name.copy()?)),
            Command::Cancel(name) => Ok(Command::Cancel(name.copy()?)),
            Command::Build(kind, project) => Ok(Command::Build(*kind, project.clone()?)),
            Command::Save(kind) => Ok(Command::Save(*kind)),
        }
    }
}

impl Clone for Command {
    ghost is_clone = { λ command copy. copy ≡ command };

    fn clone(&self) -> Result<Command, NoMemory> {
        self.copy()
    }
}

impl Job {
    /// An equal job, which shares its texts.
    pub fn copy(&self) -> Result<Job, NoMemory>
        ensures { IfOk result (λ copy. copy ≡ self.now) }
    {
        Ok(Job {
            name: self.name.copy()?,
            priority: self.priority,
            asleep: self.asleep,
            rule: self.rule.copy()?,
            commands: self.commands.copy()?,
        })
    }
}

impl Clone for Job {
    ghost is_clone = { λ job copy. copy ≡ job };

    fn clone(&self) -> Result<Job, NoMemory> {
        self.copy()
    }
}

impl Phase {
    /// An equal phase, which shares its texts.
    pub fn copy(&self) -> Result<Phase, NoMemory>
        ensures { IfOk result (λ copy. copy ≡ self.now) }
    {
        Ok(Phase {
            jobs: self.jobs.copy()?,
        })
    }
}

impl Clone for Phase {
    ghost is_clone = { λ phase copy. copy ≡ phase };

    fn clone(&self) -> Result<Phase, NoMemory> {
        self.copy()
    }
}

impl Script {
    /// An equal script, which shares its texts.
    pub fn copy(&self) -> Result<Script, NoMemory>
        ensures { IfOk result (λ copy. copy ≡ self.now) }
    {
        Ok(Script {
            phases: self.phases.copy()?,
        })
    }
}
