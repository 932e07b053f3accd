// Why a store wasn't opened, and why a save failed.
use disk_area::{AreaFault, Damage};
use std::alloc::AllocError;
use thiserror::Error;
use ws_outside::Failed;

/// Why a store wasn't opened.
#[derive(Clone, Copy, Debug, PartialEq, Eq, Error)]
pub enum OpenFault {
    /// A call on the disk failed.
    #[error("a call on the disk failed")]
    Disk,
    /// This is the first damage of the areas.
    #[error("the areas are damaged")]
    Damaged(Damage),
    /// Memory wanted.
    #[error("memory wanted")]
    Memory,
}

impl From<AreaFault> for OpenFault {
    ghost use Rattle.std.specs.Prelude.{◌≡◌};
    ghost use Rattle.save_store.specs.Faults.{opening};

    ghost from_gives = { λ fault mine. mine ≡ opening fault };

    fn from(fault: AreaFault) -> OpenFault {
        match fault {
            AreaFault::Disk => OpenFault::Disk,
            AreaFault::Damaged(damage) => OpenFault::Damaged(damage),
            AreaFault::Memory => OpenFault::Memory,
        }
    }
}

impl From<AllocError> for OpenFault {
    ghost use Rattle.std.specs.Prelude.{◌≡◌};
    ghost use Rattle.save_store.specs.declared.faults.OpenFault.TheVariants.{Memory};

    ghost from_gives = { λ _ fault. fault ≡ Memory };

    fn from(_: AllocError) -> OpenFault {
        OpenFault::Memory
    }
}

/// Why a save failed.
#[derive(Clone, Copy, Debug, PartialEq, Eq, Error)]
pub enum SaveFault {
    /// A call on the disk failed.
    #[error("a call on the disk failed")]
    Disk,
    /// The image with its header and its gate is longer than 1,073,741,824 bytes, or it has texts or lists that are too
    /// long for an image.
    #[error("the image is too large for an area")]
    TooLarge,
    /// The last save number, 2^63 - 1, is used.
    #[error("the save numbers are used")]
    NumbersUsed,
    /// Memory wanted. Nothing was written.
    #[error("memory wanted")]
    Memory,
}

impl From<area_store::SaveFault> for SaveFault {
    ghost use Rattle.std.specs.Prelude.{◌≡◌};
    ghost use Rattle.save_store.specs.Faults.{saving};

    ghost from_gives = { λ fault mine. mine ≡ saving fault };

    fn from(fault: area_store::SaveFault) -> SaveFault {
        match fault {
            area_store::SaveFault::Disk => SaveFault::Disk,
            area_store::SaveFault::TooLarge => SaveFault::TooLarge,
            area_store::SaveFault::NumbersUsed => SaveFault::NumbersUsed,
        }
    }
}

impl From<AllocError> for SaveFault {
    ghost use Rattle.std.specs.Prelude.{◌≡◌};
    ghost use Rattle.save_store.specs.declared.faults.SaveFault.TheVariants.{Memory};

    ghost from_gives = { λ _ fault. fault ≡ Memory };

    fn from(_: AllocError) -> SaveFault {
        SaveFault::Memory
    }
}

impl From<Failed> for SaveFault {
    ghost use Rattle.std.specs.Prelude.{◌≡◌};
    ghost use Rattle.save_store.specs.declared.faults.SaveFault.TheVariants.{Disk};

    ghost from_gives = { λ _ fault. fault ≡ Disk };

    fn from(_: Failed) -> SaveFault {
        SaveFault::Disk
    }
}
