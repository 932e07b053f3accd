// What an area is read as.
ghost use Rattle.std.specs.Prelude.{◌≡◌, IfOk};

use std::alloc::Global;
use ws_outside::{NoMemory, Octets};

/// The head of an open area: its save number, from 1 to 2^63 - 1, its version, and the length that it gives its image.
#[derive(Clone, Copy, Debug, PartialEq, Eq)]
pub struct Head {
    pub number: u64,
    pub version: u16,
    pub length: u64,
}

/// An image, or the body of a record, with its place and that of the gate behind it.
#[derive(Debug, Drop)]
pub struct Piece {
    pub body: Octets,
    pub at: u64,
    pub gate: u64,
}

impl Piece {
    /// An equal value, with bytes of its own.
    pub fn copy(&self, alloc: Global) -> Result<Piece, NoMemory>
        ensures { IfOk result (λ copy. copy ≡ self.now) }
    {
        Ok(Piece {
            body: self.body.copy(alloc)?,
            at: self.at,
            gate: self.gate,
        })
    }
}

/// The length and the digest before a body.
#[derive(Clone, Copy, Debug)]
pub(crate) struct Frame {
    pub(crate) size: u64,
    pub(crate) digest: [u8; 32],
}
