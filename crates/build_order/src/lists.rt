//! Numbers in lists.
ghost use Rattle.std.specs.Prelude.{◌≡◌, ◌<◌, ◌-◌, ◌++◌, [], ◌∷◌, length, get_or, set, take, replicate, IfOk, OnOk};

use res_path::NoMemory;
use std::alloc::Global;
use std::marker::Model;

/// Numbers in a list. A contract sees the list.
#[derive(Drop)]
pub struct Numbers {
    numbers: Vec<usize>,
}

impl Model for Numbers {
    ghost use Rattle.std.specs.Prelude.{ℕ, List};

    ghost Value = { List ℕ };

    ghost view = { λ n. n.numbers.items };
}

impl Numbers {
    /// No numbers. It takes no memory.
    pub fn empty(alloc: Global) -> Numbers
        ensures { result ≡ [] }
    {
        Numbers {
            numbers: Vec::new(alloc),
        }
    }

    /// The numbers.
    pub fn as_slice(&self) -> &[usize]
        ensures { result.now ≡ self.now }
    {
        self.numbers.as_slice()
    }

    fn push(&mut self, number: usize) -> Result<(), NoMemory>
        ensures { OnOk result (self.new ≡ self.old ++ number ∷ []) }
    {
        self.numbers.push(number)?;
        Ok(())
    }

    fn extend(&mut self, numbers: &[usize]) -> Result<(), NoMemory>
        ensures { OnOk result (self.new ≡ self.old ++ numbers.now) }
    {
        self.numbers.extend_from_slice(numbers)?;
        Ok(())
    }

    fn drop_last(&mut self)
        ensures { self.new ≡ take (length self.old - 1) self.old }
    {
        self.numbers.pop();
    }
}

/// A list of numbers for each number below some count. A contract sees the list of the lists.
#[derive(Drop)]
pub struct Lists {
    lists: Vec<Numbers>,
}

impl Model for Lists {
    ghost use Rattle.std.specs.Prelude.{ℕ, List};

    ghost Value = { List (List ℕ) };

    ghost view = { λ l. l.lists.items };
}

impl Lists {
    /// This many lists without numbers.
    pub fn empty(alloc: Global, count: usize) -> Result<Lists, NoMemory>
        ensures { IfOk result (λ lists. lists ≡ replicate count []) }
    {
        let mut lists = Vec::with_capacity(alloc, count)?;
        for _ in 0..count {
            lists.push(Numbers::empty(alloc))?;
        }
        Ok(Lists { lists })
    }

    /// How many lists.
    pub fn len(&self) -> usize
        ensures { result ≡ length self.now }
    {
        self.lists.len()
    }

    /// The list at the place.
    pub fn at(&self, at: usize) -> &[usize]
        requires { at < length self.now }
        ensures { result.now ≡ get_or self.now at [] }
    {
        self.lists[at].as_slice()
    }

    /// Puts the number at the end of a list.
    pub fn push(&mut self, at: usize, number: usize) -> Result<(), NoMemory>
        requires { at < length self.old }
        ensures { OnOk result (self.new ≡ set self.old at (get_or self.old at [] ++ number ∷ [])) }
    {
        self.lists[at].push(number)
    }

    /// Puts the numbers at the end of a list.
    pub fn extend(&mut self, at: usize, numbers: &[usize]) -> Result<(), NoMemory>
        requires { at < length self.old }
        ensures { OnOk result (self.new ≡ set self.old at (get_or self.old at [] ++ numbers.now)) }
    {
        self.lists[at].extend(numbers)
    }

    /// Takes the last number from a list, if it has any.
    pub fn drop_last(&mut self, at: usize)
        requires { at < length self.old }
        ensures { self.new ≡ set self.old at (take (length (get_or self.old at []) - 1) (get_or self.old at [])) }
    {
        self.lists[at].drop_last();
    }

    /// Takes a whole list, and leaves none of its numbers.
    pub fn take(&mut self, alloc: Global, at: usize) -> Numbers
        requires { at < length self.old }
        ensures list { result ≡ get_or self.old at [] }
        ensures others { self.new ≡ set self.old at [] }
    {
        std::mem::replace(&mut self.lists[at], Numbers::empty(alloc))
    }
}
