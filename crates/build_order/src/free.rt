//! Components that may come next.
ghost use Rattle.std.specs.Prelude.{◌≡◌, ◌<◌, ℕ, [], ◌∷◌, OnOk, IfSome, MatchOption};
ghost use Rattle.std.specs.List.{Contains};
ghost use Rattle.std.specs.Ordering.{nat_cmp};
ghost use Rattle.std.specs.BTreeSet.{insert_key};

use res_path::NoMemory;
use std::alloc::Global;
use std::collections::BTreeSet;
use std::marker::Model;

/// Numbers in order, none twice. A contract sees the list.
#[derive(Drop)]
pub struct Free {
    numbers: BTreeSet<usize>,
}

impl Model for Free {
    ghost use Rattle.std.specs.Prelude.{ℕ, List};

    ghost Value = { List ℕ };

    ghost view = { λ f. f.numbers.keys };
}

impl Free {
    /// No numbers. It takes no memory.
    pub fn empty(alloc: Global) -> Free
        ensures { result ≡ [] }
    {
        Free {
            numbers: BTreeSet::new(alloc),
        }
    }

    /// Adds the number, unless it is there.
    pub fn add(&mut self, number: usize) -> Result<(), NoMemory>
        ensures { OnOk result (self.new ≡ insert_key nat_cmp self.old number) }
    {
        self.numbers.insert(number)?;
        Ok(())
    }

    /// Takes the least number.
    pub fn pop(&mut self) -> Option<usize>
        ensures least { MatchOption result (self.old ≡ []) (λ n. self.old ≡ n ∷ self.new) }
        ensures others { IfSome result (λ n. (m : ℕ) → Contains self.new m → n < m) }
    {
        self.numbers.pop_first()
    }
}
