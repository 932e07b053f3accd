//! What a host answers, and what a build answers.

use builder_api::{BuildOutcome, Handed, Plan};

/// What a build command answers: how it ended, or the number with which its beginning was refused.
#[derive(Drop)]
pub enum BuildAnswer {
    Ended(BuildOutcome),
    Stopped(u8),
}

/// What the beginning of a build command is answered: what is to be built, or the number with which it was refused.
#[derive(Drop)]
pub enum Started {
    Plan(Plan),
    Refused(u8),
}

/// What is handed for a command, or the number with which that was refused.
#[derive(Drop)]
pub enum Given {
    Due(Handed),
    Refused(u8),
}

/// What a commit is answered: how many files it touched and how many problems there are, or the number with which it was
/// refused.
#[derive(Clone, Copy, Drop)]
pub enum Taken {
    Committed { touched: u64, problems: u64 },
    Refused(u8),
}
