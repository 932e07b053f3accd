// Bytes that contracts see as a list.
ghost use Rattle.std.specs.Prelude.{◌≡◌, [], IfOk};

use crate::NoMemory;
use std::alloc::Global;
use std::marker::Model;

/// Bytes as a value: contracts see the list. It is made from a vector, and gives it back, without taking memory.
#[derive(Debug, Drop)]
pub struct Octets {
    bytes: Vec<u8>,
}

impl Model for Octets {
    ghost use Rattle.std.specs.Prelude.{ℕ, List};

    ghost Value = { List ℕ };

    ghost view = { λ octets. octets.bytes.items };
}

impl Octets {
    /// No bytes.
    pub fn empty(alloc: Global) -> Octets
        ensures { result ≡ [] }
    {
        Octets {
            bytes: Vec::new(alloc),
        }
    }

    /// A copy of these bytes.
    pub fn of(alloc: Global, bytes: &[u8]) -> Result<Octets, NoMemory>
        ensures { IfOk result (λ octets. octets ≡ bytes.now) }
    {
        Ok(Octets {
            bytes: bytes.to_vec(alloc)?,
        })
    }

    /// The bytes.
    pub fn as_slice(&self) -> &[u8]
        ensures { result.now ≡ self.now }
    {
        &self.bytes
    }

    /// The bytes as a vector.
    pub fn into_vec(self) -> Vec<u8>
        ensures { result.items ≡ self }
    {
        let Octets { bytes } = self;
        bytes
    }

    /// An equal value.
    pub fn copy(&self, alloc: Global) -> Result<Octets, NoMemory>
        ensures { IfOk result (λ copy. copy ≡ self.now) }
    {
        Octets::of(alloc, &self.bytes)
    }
}

impl From<Vec<u8>> for Octets {
    ghost from_gives = { λ bytes octets. octets ≡ bytes.items };

    fn from(bytes: Vec<u8>) -> Octets {
        Octets { bytes }
    }
}
