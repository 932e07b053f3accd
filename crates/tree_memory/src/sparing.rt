//! A tree to which a memory may be given up without memory of the machine.
ghost use Rattle.std.specs.Prelude.{◌≡◌, ◌≢◌, ◌<◌, ◌≤◌, ◌+◌, ◌-◌, [], ℕ, true, Some, None, IfOk, IfSome, IsSome, OnOk, OnErr, length, map};
ghost use Rattle.std.specs.Vec.{vec_len, vec_capacity};
ghost use Rattle.delta_kind.specs.Deltas.{delta};
ghost use Rattle.tree_memory.specs.Spared.{left, without};
ghost use Rattle.tree_memory.specs.Inside.{AreSpent};

use crate::{NoMemory, Remembers};
use delta_kind::Delta;
use res_path::Path;
use std::alloc::{AllocError, Global};
use std::marker::Model;
use ws_elem::{ElemMap, Element, TreeRep};

/// A tree that remembers, to which a memory may be given up at any time: that takes no memory, and what is given up isn't
/// remembered any more. It still costs memory, until the next `remember` that can forget it.
///
/// A contract sees the tree, the numbers that were given up and that it still remembers, and how many more can be given up
/// without memory.
#[derive(Drop)]
pub struct Sparing<T: Remembers> {
    tree: T,
    // Given up, and not forgotten yet.
    spent: Vec<T::Memory>,
    // How many were given out and not given up, at most. Each has a place in `spent`.
    places: usize,
}

impl<T: Remembers> Model for Sparing<T> {
    ghost use Rattle.std.specs.Prelude.{◌+◌, ◌≤◌, map};
    ghost use Rattle.std.specs.Vec.{vec_len, vec_capacity};
    ghost use Rattle.tree_memory.specs.Spared.{SparedTree};
    ghost use Rattle.tree_memory.specs.Inside.{AreSpent, spared_code};

    ghost Value = { SparedTree T };

    ghost coded = { spared_code T.code };

    ghost view = { λ s. record { tree = s.tree; spent = map T.number s.spent.items; places = s.places } };

    ghost invariant = { λ s. AreSpent (T.remembered s.tree) (map T.number s.spent.items) × (vec_len s.spent + s.places ≤ vec_capacity s.spent) };
}

impl<T: Remembers> Sparing<T> {
    /// The tree, to which nothing was given up. It takes no memory.
    pub fn of(alloc: Global, tree: T) -> Sparing<T>
        ensures { result ≡ record { tree = tree; spent = []; places = 0 } }
    {
        Sparing {
            tree,
            spent: Vec::new(alloc),
            places: 0,
        }
    }

    /// The tree, which may still remember what was given up.
    pub fn tree(&self) -> &T
        ensures { result.now ≡ self.now.tree }
    {
        &self.tree
    }

    /// The tree as it is is remembered from now on, under a number that isn't in use. Every other tree that is
    /// remembered stays. Where memory wants all is as before. First it forgets what was given up, as far as there is
    /// memory for that, of which no clause speaks.
    pub fn remember(&mut self, alloc: Global) -> Result<T::Memory, NoMemory>
        ensures own { IfOk result (λ memory. left T.remembered self.new (T.number memory) ≡ Some (T.tree self.old.tree)) }
        ensures fresh { IfOk result (λ memory. left T.remembered self.old (T.number memory) ≡ None) }
        ensures others { IfOk result (λ memory. (k : ℕ) → k ≢ T.number memory → left T.remembered self.new k ≡ left T.remembered self.old k) }
        ensures err { OnErr result (left T.remembered self.new ≡ left T.remembered self.old) }
        ensures place { OnOk result (self.new.places ≡ self.old.places + 1) }
        ensures tree { T.tree self.new.tree ≡ T.tree self.old.tree }
        ensures room { T.room self.new.tree ≡ T.room self.old.tree }
    {
        forget_spent(alloc, &mut self.tree, &mut self.spent);
        let Some(places) = self.places.checked_add(1) else {
            return Err(AllocError);
        };
        self.spent.reserve(places)?;
        let memory = self.tree.remember(alloc)?;
        self.places = places;
        Ok(memory)
    }

    /// Gives the memory up. Every other tree that is remembered stays. While there are places, of which `remember` makes one
    /// for each memory that it gives, it takes no memory, and the tree isn't remembered any more. Without one the memory
    /// waits, or is forgotten, where there is memory for that, and else is let go: then its tree stays remembered.
    pub fn give_up(&mut self, alloc: Global, memory: T::Memory)
        requires { IsSome (left T.remembered self.old (T.number memory)) }
        ensures gone { 0 < self.old.places → left T.remembered self.new (T.number memory) ≡ None }
        ensures others { (k : ℕ) → k ≢ T.number memory → left T.remembered self.new k ≡ left T.remembered self.old k }
        ensures place { self.new.places ≡ self.old.places - 1 }
        ensures tree { T.tree self.new.tree ≡ T.tree self.old.tree }
        ensures room { T.room self.new.tree ≡ T.room self.old.tree }
    {
        self.places = self.places.saturating_sub(1);
        spend(alloc, &mut self.tree, &mut self.spent, memory);
    }

    /// What changed since the tree was the one that is remembered.
    pub fn since(&self, alloc: Global, from: &T::Memory) -> Result<Delta, NoMemory>
        ensures { IfOk result (λ d. IfSome (left T.remembered self.now (T.number from.now)) (λ t. d ≡ delta t (T.tree self.now.tree))) }
    {
        self.tree.since(alloc, from)
    }

    /// The tree that is remembered, as a value of its own.
    pub fn at(&self, alloc: Global, memory: &T::Memory) -> Result<ElemMap, NoMemory>
        ensures { IfOk result (λ map. IfSome (left T.remembered self.now (T.number memory.now)) (λ t. map.map ≡ t)) }
    {
        self.tree.at(alloc, memory)
    }
}

impl<T: Remembers> TreeRep for Sparing<T> {
    ghost tree = { λ s. T.tree s.tree };

    ghost room = { λ s. T.room s.tree };

    ghost remembered = { left T.remembered };

    fn get(&self, path: &Path) -> Option<&Element> {
        self.tree.get(path)
    }

    fn next(&self, after: &Path) -> Option<(&Path, &Element)> {
        self.tree.next(after)
    }

    fn put(&mut self, path: Path, element: Element) -> Result<Option<Element>, NoMemory> {
        self.tree.put(path, element)
    }

    fn put_new(&mut self, path: &Path, element: Element) -> Result<bool, NoMemory> {
        self.tree.put_new(path, element)
    }

    fn take(&mut self, path: &Path) -> Result<Option<Element>, NoMemory> {
        self.tree.take(path)
    }

    fn len(&self) -> usize {
        self.tree.len()
    }

    fn make_room(&mut self, path: &Path) -> Result<(), NoMemory> {
        self.tree.make_room(path)
    }

    fn drop_room(&mut self) {
        self.tree.drop_room();
    }
}

/// Forgets what was given up, as far as there is memory for that.
fn forget_spent<T: Remembers>(alloc: Global, tree: &mut T, spent: &mut Vec<T::Memory>)
    requires { AreSpent (T.remembered tree.old) (map T.number spent.old.items) }
    ensures spent { AreSpent (T.remembered tree.new) (map T.number spent.new.items) }
    ensures left { without (T.remembered tree.new) (map T.number spent.new.items) ≡ without (T.remembered tree.old) (map T.number spent.old.items) }
    ensures tree { T.tree tree.new ≡ T.tree tree.old }
    ensures room { T.room tree.new ≡ T.room tree.old }
    ensures len { vec_len spent.new ≤ vec_len spent.old }
    ensures capacity { vec_capacity spent.new ≡ vec_capacity spent.old }
{
    while forget_last(alloc, tree, spent) {}
}

/// Forgets the last that was given up. Whether there was one, and memory for that.
fn forget_last<T: Remembers>(alloc: Global, tree: &mut T, spent: &mut Vec<T::Memory>) -> bool
    requires { AreSpent (T.remembered tree.old) (map T.number spent.old.items) }
    ensures spent { AreSpent (T.remembered tree.new) (map T.number spent.new.items) }
    ensures left { without (T.remembered tree.new) (map T.number spent.new.items) ≡ without (T.remembered tree.old) (map T.number spent.old.items) }
    ensures tree { T.tree tree.new ≡ T.tree tree.old }
    ensures room { T.room tree.new ≡ T.room tree.old }
    ensures len { vec_len spent.new ≤ vec_len spent.old }
    ensures capacity { vec_capacity spent.new ≡ vec_capacity spent.old }
    ensures fewer { result ≡ true → length spent.new.items < length spent.old.items }
{
    match spent.pop() {
        None => false,
        Some(memory) => match tree.forget(alloc, memory) {
            Ok(()) => true,
            Err((_, memory)) => {
                spent.push_reserved(memory);
                false
            }
        },
    }
}

/// The memory is given up: it is among the spent ones, or forgotten, or let go.
fn spend<T: Remembers>(alloc: Global, tree: &mut T, spent: &mut Vec<T::Memory>, memory: T::Memory)
    requires spent { AreSpent (T.remembered tree.old) (map T.number spent.old.items) }
    requires there { IsSome (without (T.remembered tree.old) (map T.number spent.old.items) (T.number memory)) }
    ensures spent { AreSpent (T.remembered tree.new) (map T.number spent.new.items) }
    ensures gone { vec_len spent.old < vec_capacity spent.old → without (T.remembered tree.new) (map T.number spent.new.items) (T.number memory) ≡ None }
    ensures others { (k : ℕ) → k ≢ T.number memory → without (T.remembered tree.new) (map T.number spent.new.items) k ≡ without (T.remembered tree.old) (map T.number spent.old.items) k }
    ensures tree { T.tree tree.new ≡ T.tree tree.old }
    ensures room { T.room tree.new ≡ T.room tree.old }
    ensures len { vec_len spent.new ≤ vec_len spent.old + 1 }
    ensures capacity { vec_capacity spent.old ≤ vec_capacity spent.new }
    ensures fits { vec_len spent.new ≤ vec_capacity spent.new }
{
    if let Err(wanted) = spent.push(memory) {
        let _ = tree.forget(alloc, wanted.value);
    }
}
