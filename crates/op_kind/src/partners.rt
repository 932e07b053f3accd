//! Synchronisation partners by their numbers.
ghost use Rattle.std.specs.Prelude.{◌≡◌, [], ◌∷◌, ◌++◌, take, length, IfOk, OnOk, OnErr};
ghost use Rattle.op_kind.specs.Partners.{place_of};

use res_path::{Name, NoMemory};
use std::alloc::Global;
use std::marker::Model;

/// The names of the registered synchronisation partners, in the order in which they were registered. A partner's number
/// is its place, counted from 0. A contract sees the list.
#[derive(Clone, Debug, Drop)]
pub struct Partners {
    names: Vec<Name>,
}

impl Model for Partners {
    ghost use Rattle.std.specs.Prelude.{List, ℕ};

    ghost Value = { List (List ℕ) };

    ghost view = { λ p. p.names.items };
}

impl Partners {
    /// No partners. It takes no memory.
    pub fn empty(alloc: Global) -> Partners
        ensures { result ≡ [] }
    {
        Partners {
            names: Vec::new(alloc),
        }
    }

    /// Partners of these names. It takes no memory.
    pub fn of(names: Vec<Name>) -> Partners
        ensures { result ≡ names.items }
    {
        Partners { names }
    }

    /// The names given back. It takes no memory.
    pub fn into_vec(self) -> Vec<Name>
        ensures { result.items ≡ self }
    {
        let Partners { names } = self;
        names
    }

    /// The names, in order.
    pub fn as_slice(&self) -> &[Name]
        ensures { result.now ≡ self.now }
    {
        self.names.as_slice()
    }

    /// How many partners.
    pub fn len(&self) -> usize
        ensures { result ≡ length self.now }
    {
        self.names.len()
    }

    /// The place of the partner of this name. Looks at each name before it.
    pub fn place_of(&self, name: &Name) -> Option<usize>
        ensures { result ≡ place_of self.now name.now }
    {
        self.names
            .iter()
            .position(|other| other.text() == name.text())
    }

    /// Adds a partner as the last.
    pub fn push(&mut self, name: Name) -> Result<(), NoMemory>
        ensures ok { OnOk result (self.new ≡ self.old ++ name ∷ []) }
        ensures err { OnErr result (self.new ≡ self.old) }
    {
        self.names.push(name)?;
        Ok(())
    }

    /// Takes all but the first so many away. It takes no memory.
    pub fn cut(&mut self, count: usize)
        ensures { self.new ≡ take count self.old }
    {
        self.names.truncate(count);
    }

    /// Equal partners, whose names share their texts.
    pub fn copy(&self) -> Result<Partners, NoMemory>
        ensures { IfOk result (λ copy. copy ≡ self.now) }
    {
        self.clone()
    }
}
