// Why an area can't be read.
use std::alloc::AllocError;
use ws_outside::{Failed, Which};

/// What is wrong with an area.
#[derive(Clone, Copy, Debug, PartialEq, Eq)]
pub enum DamageCause {
    /// An open area is longer than 1,073,741,824 bytes.
    TooLarge,
    BadMagic,
    BadVersion(u16),
    /// The save number isn't from 1 to 2^63 - 1.
    BadNumber,
    /// A length reaches past the end of the area, the gate that follows included.
    Truncated,
    /// The digest that is kept isn't that of the bytes.
    BadDigest { kept: [u8; 32], found: [u8; 32] },
    /// A state text can't go on.
    BadText,
    /// A state text stands for no state.
    BadState,
}

/// The first damage of an area, and the place of the byte where it stands.
#[derive(Clone, Copy, Debug, PartialEq, Eq)]
pub struct Damage {
    pub area: Which,
    pub at: u64,
    pub cause: DamageCause,
}

/// Why an area couldn't be read.
#[derive(Clone, Copy, Debug, PartialEq, Eq)]
pub enum AreaFault {
    /// A call on the disk failed.
    Disk,
    Damaged(Damage),
    /// The memory for a piece wasn't to be had.
    Memory,
}

impl From<Failed> for AreaFault {
    ghost use Rattle.std.specs.Prelude.{◌≡◌};
    ghost use Rattle.disk_area.specs.declared.damage.AreaFault.TheVariants.{Disk};

    ghost from_gives = { λ _ fault. fault ≡ Disk };

    fn from(_: Failed) -> AreaFault {
        AreaFault::Disk
    }
}

impl From<AllocError> for AreaFault {
    ghost use Rattle.std.specs.Prelude.{◌≡◌};
    ghost use Rattle.disk_area.specs.declared.damage.AreaFault.TheVariants.{Memory};

    ghost from_gives = { λ _ fault. fault ≡ Memory };

    fn from(_: AllocError) -> AreaFault {
        AreaFault::Memory
    }
}
