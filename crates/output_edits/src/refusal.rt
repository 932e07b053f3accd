//! Why edits below an output are refused.
ghost use Rattle.std.specs.Prelude.{◌≡◌};
ghost use Rattle.output_edits.specs.Bad.{refusal_number};

use res_path::Path;
use std::alloc::{AllocError, AllocFailed};

/// Why edits below an output are refused. Refused edits change nothing.
#[derive(Debug, Drop)]
pub enum EditRefusal {
    /// This path from the output is the root, comes twice among the edits, or is that of a file above another file.
    BadEdits(Path),
    /// A path would have more than 64 names.
    TooDeep,
    /// A path's text would have more than 4,096 bytes.
    TooLong,
    /// The workspace would have more than 1,048,576 elements.
    TreeFull,
    /// A number would pass 2^63 - 1.
    NumbersUsed,
}

impl EditRefusal {
    /// The refusal's number: 2 and 3 for paths past the limits, 17 for a full tree, 18 for used numbers, 34 for bad edits.
    pub fn number(&self) -> u8
        ensures { result ≡ refusal_number self.now }
    {
        match self {
            EditRefusal::BadEdits(_) => 34,
            EditRefusal::TooDeep => 2,
            EditRefusal::TooLong => 3,
            EditRefusal::TreeFull => 17,
            EditRefusal::NumbersUsed => 18,
        }
    }
}

/// Why edits aren't made: they are refused, or memory wants.
#[derive(Debug, Drop)]
pub enum EditError {
    Refused(EditRefusal),
    Memory,
}

impl From<EditRefusal> for EditError {
    ghost use Rattle.std.specs.Prelude.{◌≡◌};
    ghost use Rattle.output_edits.specs.declared.refusal.EditError.TheVariants.{Refused};

    ghost from_gives = { λ refusal e. e ≡ Refused refusal };

    fn from(refusal: EditRefusal) -> EditError {
        EditError::Refused(refusal)
    }
}

impl From<AllocError> for EditError {
    ghost use Rattle.std.specs.Prelude.{◌≡◌};
    ghost use Rattle.output_edits.specs.declared.refusal.EditError.TheVariants.{Memory};

    ghost from_gives = { λ _ e. e ≡ Memory };

    fn from(_: AllocError) -> EditError {
        EditError::Memory
    }
}

impl<T: Drop> From<AllocFailed<T>> for EditError {
    ghost use Rattle.std.specs.Prelude.{◌≡◌};
    ghost use Rattle.output_edits.specs.declared.refusal.EditError.TheVariants.{Memory};

    ghost from_gives = { λ _ e. e ≡ Memory };

    fn from(_: AllocFailed<T>) -> EditError {
        EditError::Memory
    }
}
