// Why a save didn't come to an end.
use thiserror::Error;
use ws_outside::Failed;

/// Why a full save failed.
#[derive(Clone, Copy, Debug, PartialEq, Eq, Error)]
pub enum SaveFault {
    /// A call on the disk failed.
    #[error("a call on the disk failed")]
    Disk,
    /// The image with its header and its gate is longer than 1,073,741,824 bytes.
    #[error("the image is too large for an area")]
    TooLarge,
    /// The last save number, 2^63 - 1, is used.
    #[error("the save numbers are used")]
    NumbersUsed,
}

impl From<Failed> for SaveFault {
    ghost use Rattle.std.specs.Prelude.{◌≡◌};
    ghost use Rattle.area_store.specs.declared.faults.SaveFault.TheVariants.{Disk};

    ghost from_gives = { λ _ fault. fault ≡ Disk };

    fn from(_: Failed) -> SaveFault {
        SaveFault::Disk
    }
}
