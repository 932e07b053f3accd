//! Why an operation is refused.
ghost use Rattle.std.specs.Prelude.{◌≡◌, IfOk};
ghost use Rattle.op_kind.specs.Refusals.{refusal_number};

use mark_set::ValueCause;
use proj_desc::DescCause;
use res_path::{NoMemory, Path};
use std::alloc::{AllocError, AllocFailed};

/// Why an operation is refused. A refused operation changes nothing.
#[derive(Clone, Debug, PartialEq, Eq, Drop)]
pub enum OpRefusal {
    /// A path would have more than 64 names.
    TooDeep,
    /// A path's text would have more than 4,096 bytes.
    TooLong,
    /// Nothing is at this path.
    NotFound(Path),
    /// Something is at this path already.
    Exists(Path),
    /// A file is at this path, and holds nothing.
    NotContainer(Path),
    /// No resource of the kind that the operation speaks of can be at this path, or is.
    WrongKind(Path),
    /// This project is closed.
    ProjectClosed(Path),
    /// The workspace would have more than 1,048,576 elements.
    TreeFull,
    /// A number would pass 2^63 - 1, or the synchronisation partners would be more than 2^32 - 1.
    NumbersUsed,
    /// No synchronisation partner of this name is registered.
    PartnerUnknown,
    /// No marker of the resource has this id.
    MarkerUnknown(u64),
    /// A type, a name or a text of a marker is past its limits.
    BadValue(ValueCause),
    /// A resource would come to stand in itself.
    IntoItself,
    /// The text is no description of the project.
    BadDescription(DescCause),
}

impl OpRefusal {
    /// The refusal's number: 2 and 3 for paths past the limits, 10 to 14 in the order of the next five, 17 for a full
    /// tree, 18 for used numbers, 21 to 23 in the order of the next three, 24 for a move into itself, 25 for a bad description.
    pub fn number(&self) -> u8
        ensures { result ≡ refusal_number self.now }
    {
        match self {
            OpRefusal::TooDeep => 2,
            OpRefusal::TooLong => 3,
            OpRefusal::NotFound(_) => 10,
            OpRefusal::Exists(_) => 11,
            OpRefusal::NotContainer(_) => 12,
            OpRefusal::WrongKind(_) => 13,
            OpRefusal::ProjectClosed(_) => 14,
            OpRefusal::TreeFull => 17,
            OpRefusal::NumbersUsed => 18,
            OpRefusal::PartnerUnknown => 21,
            OpRefusal::MarkerUnknown(_) => 22,
            OpRefusal::BadValue(_) => 23,
            OpRefusal::IntoItself => 24,
            OpRefusal::BadDescription(_) => 25,
        }
    }

    /// An equal refusal, which shares its texts.
    pub fn copy(&self) -> Result<OpRefusal, NoMemory>
        ensures { IfOk result (λ copy. copy ≡ self.now) }
    {
        self.clone()
    }
}

/// Why an operation isn't done: it is refused, or memory wants.
#[derive(Debug, Drop)]
pub enum OpError {
    Refused(OpRefusal),
    Memory,
}

impl From<OpRefusal> for OpError {
    ghost use Rattle.std.specs.Prelude.{◌≡◌};
    ghost use Rattle.op_kind.specs.declared.refusal.OpError.TheVariants.{Refused};

    ghost from_gives = { λ refusal e. e ≡ Refused refusal };

    fn from(refusal: OpRefusal) -> OpError {
        OpError::Refused(refusal)
    }
}

impl From<AllocError> for OpError {
    ghost use Rattle.std.specs.Prelude.{◌≡◌};
    ghost use Rattle.op_kind.specs.declared.refusal.OpError.TheVariants.{Memory};

    ghost from_gives = { λ _ e. e ≡ Memory };

    fn from(_: AllocError) -> OpError {
        OpError::Memory
    }
}

impl<T: Drop> From<AllocFailed<T>> for OpError {
    ghost use Rattle.std.specs.Prelude.{◌≡◌};
    ghost use Rattle.op_kind.specs.declared.refusal.OpError.TheVariants.{Memory};

    ghost from_gives = { λ _ e. e ≡ Memory };

    fn from(_: AllocFailed<T>) -> OpError {
        OpError::Memory
    }
}
