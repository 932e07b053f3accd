//! How a save ends.
ghost use Rattle.std.specs.Prelude.{◌≡◌, ℕ, List, IfOk, OnErr};

use res_path::{Name, NoMemory};

/// How a save ends.
#[derive(Debug, Drop, PartialEq, Eq)]
pub enum SaveAnswer {
    /// All was written, and every participant was told so.
    Saved,
    /// A call on the disk failed.
    SaveFailed,
    /// The participant of this name failed.
    ParticipantFailed(Name),
    /// What is to be saved is too large for an area.
    SaveTooLarge,
    /// The save numbers are used.
    SaveNumbers,
    /// Memory wanted.
    NoMemory,
}

impl SaveAnswer {
    /// An equal answer. Only the copy of one that has a name takes memory.
    pub fn copy(&self) -> Result<SaveAnswer, NoMemory>
        ensures equal { IfOk result (λ copy. copy ≡ self.now) }
        ensures wants { OnErr result ((name : List ℕ) × (self.now ≡ SaveAnswer.ParticipantFailed name)) }
    {
        match self {
            SaveAnswer::Saved => Ok(SaveAnswer::Saved),
            SaveAnswer::SaveFailed => Ok(SaveAnswer::SaveFailed),
            SaveAnswer::ParticipantFailed(name) => named(name),
            SaveAnswer::SaveTooLarge => Ok(SaveAnswer::SaveTooLarge),
            SaveAnswer::SaveNumbers => Ok(SaveAnswer::SaveNumbers),
            SaveAnswer::NoMemory => Ok(SaveAnswer::NoMemory),
        }
    }
}

/// That the participant of this name failed.
fn named(name: &Name) -> Result<SaveAnswer, NoMemory>
    ensures { IfOk result (λ answer. answer ≡ SaveAnswer.ParticipantFailed name.now) }
{
    Ok(SaveAnswer::ParticipantFailed(name.copy()?))
}
