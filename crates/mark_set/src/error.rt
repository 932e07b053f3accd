//! Why a change of markers is refused.

ghost use Rattle.std.specs.Prelude.{◌≡◌};
ghost use Rattle.mark_set.specs.declared.error.MarkError.TheVariants.{Memory};

use std::alloc::{AllocError, AllocFailed};

/// What is wrong with a type, a name or a value.
#[derive(Clone, Copy, Debug, PartialEq, Eq)]
pub enum ValueCause {
    /// A type or an attribute's name is empty.
    EmptyName,
    /// A type or an attribute's name has more than 255 bytes.
    LongName,
    /// A text has more than 65,535 bytes.
    LongText,
}

/// Why a change is refused. The set is then as before.
#[derive(Clone, Copy, Debug, PartialEq, Eq)]
pub enum MarkError {
    /// No marker has the id.
    MarkerUnknown,
    BadValue(ValueCause),
    /// Want of memory.
    Memory,
}

impl From<AllocError> for MarkError {
    ghost from_gives = { λ _ e. e ≡ Memory };

    fn from(_e: AllocError) -> MarkError {
        MarkError::Memory
    }
}

impl<T: Drop> From<AllocFailed<T>> for MarkError {
    ghost from_gives = { λ _ e. e ≡ Memory };

    fn from(_e: AllocFailed<T>) -> MarkError {
        MarkError::Memory
    }
}
