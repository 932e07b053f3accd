//! Why a call is refused.
use crate::JobState;
use std::alloc::{AllocError, AllocFailed};

/// Why a call of a queue is refused.
#[derive(Clone, Copy, Debug, PartialEq, Eq)]
pub enum JobError {
    /// No job of the name was ever scheduled.
    UnknownJob,
    /// The call isn't for a job in this state.
    WrongState(JobState),
    /// The number of the next job would pass 2^63 - 1.
    NumbersUsed,
    /// Want of memory.
    Memory,
}

impl From<AllocError> for JobError {
    ghost use Rattle.std.specs.Prelude.{◌≡◌};
    ghost use Rattle.job_queue.specs.declared.error.JobError.TheVariants.{Memory};

    ghost from_gives = { λ _ e. e ≡ Memory };

    fn from(_: AllocError) -> JobError {
        JobError::Memory
    }
}

impl<T: Drop> From<AllocFailed<T>> for JobError {
    ghost use Rattle.std.specs.Prelude.{◌≡◌};
    ghost use Rattle.job_queue.specs.declared.error.JobError.TheVariants.{Memory};

    ghost from_gives = { λ _ e. e ≡ Memory };

    fn from(_: AllocFailed<T>) -> JobError {
        JobError::Memory
    }
}
