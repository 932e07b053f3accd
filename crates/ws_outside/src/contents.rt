// The two areas of a disk, and what they hold.
ghost use Rattle.std.specs.Prelude.{◌≡◌, IfOk};

use crate::{NoMemory, Octets};
use std::alloc::Global;

/// One of a disk's two areas.
#[derive(Clone, Copy, Debug, PartialEq, Eq)]
pub enum Which {
    Left,
    Right,
}

/// What both areas hold, as they read or as a crash leaves them.
#[derive(Debug, Drop)]
pub struct Contents {
    pub left: Octets,
    pub right: Octets,
}

impl Contents {
    ghost use Rattle.ws_outside.specs.Disk.{held};

    /// What an area holds.
    pub fn of(&self, area: Which) -> &[u8]
        ensures { result.now ≡ held area self.now }
    {
        match area {
            Which::Left => self.left.as_slice(),
            Which::Right => self.right.as_slice(),
        }
    }

    /// An equal value.
    pub fn copy(&self, alloc: Global) -> Result<Contents, NoMemory>
        ensures { IfOk result (λ copy. copy ≡ self.now) }
    {
        Ok(Contents {
            left: self.left.copy(alloc)?,
            right: self.right.copy(alloc)?,
        })
    }
}
