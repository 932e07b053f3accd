//! Why a text is no name or no path.
use std::alloc::{AllocError, AllocFailed};

/// Why a text is no name or no path.
#[derive(Clone, Copy, Debug, PartialEq, Eq)]
pub enum PathError {
    /// The segment that begins at this byte is no name; 0 where the text doesn't begin with a slash.
    BadSegment { at: usize },
    /// More than 64 names.
    TooDeep,
    /// More than 4,096 bytes.
    TooLong,
    /// Want of memory.
    Memory,
}

impl From<AllocError> for PathError {
    ghost use Rattle.std.specs.Prelude.{◌≡◌};
    ghost use Rattle.res_path.specs.declared.error.PathError.TheVariants.{Memory};

    ghost from_gives = { λ _ e. e ≡ Memory };

    fn from(_: AllocError) -> PathError {
        PathError::Memory
    }
}

impl<T: Drop> From<AllocFailed<T>> for PathError {
    ghost use Rattle.std.specs.Prelude.{◌≡◌};
    ghost use Rattle.res_path.specs.declared.error.PathError.TheVariants.{Memory};

    ghost from_gives = { λ _ e. e ≡ Memory };

    fn from(_: AllocFailed<T>) -> PathError {
        PathError::Memory
    }
}
