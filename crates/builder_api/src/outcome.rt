//! How a build ends.
ghost use Rattle.std.specs.Prelude.{◌≡◌, IfOk};

use crate::Knot;
use res_path::{Name, NoMemory};

/// How a build ends.
#[derive(Drop)]
pub enum BuildOutcome {
    /// All was built.
    Settled,
    /// Ten rounds of this knot each touched a file.
    Unsettled(Knot),
    /// The builder of this project's command of this number, from 0, failed.
    BuilderFailed(Name, u16),
    /// A commit was refused with this number.
    Refused(u8),
    /// All was cleaned.
    Cleaned,
    /// Memory wanted.
    NoMemory,
}

impl BuildOutcome {
    /// An equal outcome, which shares its texts.
    pub fn copy(&self) -> Result<BuildOutcome, NoMemory>
        ensures { IfOk result (λ copy. copy ≡ self.now) }
    {
        match self {
            BuildOutcome::Settled => Ok(BuildOutcome::Settled),
            BuildOutcome::Unsettled(knot) => Ok(BuildOutcome::Unsettled(knot.copy()?)),
            BuildOutcome::BuilderFailed(project, index) => {
                Ok(BuildOutcome::BuilderFailed(project.copy()?, *index))
            }
            BuildOutcome::Refused(number) => Ok(BuildOutcome::Refused(*number)),
            BuildOutcome::Cleaned => Ok(BuildOutcome::Cleaned),
            BuildOutcome::NoMemory => Ok(BuildOutcome::NoMemory),
        }
    }
}
