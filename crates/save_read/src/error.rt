//! Why bytes are no text of what a workspace keeps.

use std::alloc::AllocError;

/// Why bytes are no text of what a workspace keeps.
#[derive(Clone, Copy, Debug, PartialEq, Eq)]
pub enum TextCause {
    /// They can't go on.
    BadText,
    /// They tell what no workspace keeps.
    BadState,
}

/// Why nothing was read.
#[derive(Clone, Copy, Debug, PartialEq, Eq)]
pub enum ReadError {
    /// For this cause, at this place. A bad state is told at 0.
    Bad { at: usize, cause: TextCause },
    /// Memory wanted.
    Memory,
}

impl From<AllocError> for ReadError {
    ghost use Rattle.std.specs.Prelude.{◌≡◌};
    ghost use Rattle.save_read.specs.declared.error.ReadError.TheVariants.{Memory};

    ghost from_gives = { λ _ e. e ≡ Memory };

    fn from(_: AllocError) -> ReadError {
        ReadError::Memory
    }
}
