// A whole area as it is read.
ghost use Rattle.std.specs.Prelude.{◌≡◌, ◌++◌, [], ◌∷◌, IfOk, OnOk, OnErr};

use crate::DamageCause;
use std::alloc::Global;
use std::marker::Model;
use ws_outside::{NoMemory, Octets};

/// The bodies of records, in their order. Contracts see the list of them.
#[derive(Debug, Drop)]
pub struct Bodies {
    bodies: Vec<Octets>,
}

impl Model for Bodies {
    ghost use Rattle.std.specs.Prelude.{ℕ, List};

    ghost Value = { List (List ℕ) };

    ghost view = { λ all. all.bodies.items };
}

impl Bodies {
    /// No records. Takes no memory.
    pub fn empty(alloc: Global) -> Bodies
        ensures { result ≡ [] }
    {
        Bodies {
            bodies: Vec::new(alloc),
        }
    }

    /// Adds a body behind the last one. Where memory wants all stays as it was.
    pub fn push(&mut self, body: Octets) -> Result<(), NoMemory>
        ensures ok { OnOk result (self.new ≡ self.old ++ body ∷ []) }
        ensures err { OnErr result (self.new ≡ self.old) }
    {
        self.bodies.push(body)?;
        Ok(())
    }

    /// The bodies.
    pub fn as_slice(&self) -> &[Octets]
        ensures { result.now ≡ self.now }
    {
        &self.bodies
    }

    /// An equal list, with bytes of its own.
    pub fn copy(&self, alloc: Global) -> Result<Bodies, NoMemory>
        ensures { IfOk result (λ copy. copy ≡ self.now) }
    {
        let mut copy = Bodies::empty(alloc);
        for body in self.as_slice() {
            copy.push(body.copy(alloc)?)?;
        }
        Ok(copy)
    }

    /// The bodies as a vector.
    pub fn into_vec(self) -> Vec<Octets>
        ensures { result.items ≡ self }
    {
        let Bodies { bodies } = self;
        bodies
    }
}

/// An open area: its save number, its image, the bodies of its records, and where they end: the place of the closed gate
/// behind them, or the first damage there and its place.
#[derive(Debug, Drop)]
pub struct Area {
    pub number: u64,
    pub image: Octets,
    pub records: Bodies,
    pub end: Result<u64, (u64, DamageCause)>,
}

impl Area {
    /// An equal value, with bytes of its own.
    pub fn copy(&self, alloc: Global) -> Result<Area, NoMemory>
        ensures { IfOk result (λ copy. copy ≡ self.now) }
    {
        Ok(Area {
            number: self.number,
            image: self.image.copy(alloc)?,
            records: self.records.copy(alloc)?,
            end: self.end,
        })
    }
}
