//! A tree that remembers by whole copies.
ghost use Rattle.std.specs.Prelude.{◌≡◌, ◌<◌, ℕ, None, IfSome, IsSome};
ghost use Rattle.std.specs.Ordering.{nat_cmp};
ghost use Rattle.std.specs.Option.{option_map};
ghost use Rattle.std.specs.BTreeMap.{get};

use crate::{NoMemory, Remembers};
use delta_kind::{Delta, compare};
use res_path::Path;
use std::alloc::{AllocError, Global};
use std::collections::BTreeMap;
use tree_flat::FlatTree;
use ws_elem::{ElemMap, Element, TreeRep};

/// A tree over one ordered map, which remembers by whole copies: the plain form, for comparison. A contract sees it as a
/// tree that remembers, and no more.
#[derive(Debug, Drop)]
pub struct CopyTree {
    tree: FlatTree,
    copies: BTreeMap<u64, ElemMap>,
    // The number of the next copy.
    next: u64,
    ghost below: { (k : ℕ) → IsSome (get nat_cmp copies k) → k < next },
}

/// A copy that a `CopyTree` keeps.
#[derive(Debug, Drop)]
pub struct Copied {
    number: u64,
}

impl CopyTree {
    /// The tree over this map, with the map's room, that remembers nothing. It takes no memory.
    pub fn of(alloc: Global, map: ElemMap) -> CopyTree
        ensures tree { ⟦<CopyTree as TreeRep>⟧.tree result ≡ map.map }
        ensures room { ⟦<CopyTree as TreeRep>⟧.room result ≡ map.room }
        ensures none { (k : ℕ) → ⟦<CopyTree as TreeRep>⟧.remembered result k ≡ None }
    {
        CopyTree {
            tree: FlatTree::of(map),
            copies: BTreeMap::new(alloc),
            next: 0,
        }
    }

    /// The copy, and where there is none the tree as it is.
    fn copy_of(&self, memory: &Copied) -> &ElemMap
        ensures { IfSome (⟦<CopyTree as TreeRep>⟧.remembered self.now memory.now.number) (λ t. result.now.map ≡ t) }
    {
        match self.copies.get(&memory.number) {
            Some(copy) => copy,
            None => self.tree.map(),
        }
    }
}

impl TreeRep for CopyTree {
    ghost tree = { λ t. t.tree.map };

    ghost room = { λ t. t.tree.room };

    ghost remembered = { λ t k. option_map (λ copy. copy.map) (get nat_cmp t.copies k) };

    fn get(&self, path: &Path) -> Option<&Element> {
        self.tree.get(path)
    }

    fn next(&self, after: &Path) -> Option<(&Path, &Element)> {
        self.tree.next(after)
    }

    fn put(&mut self, path: Path, element: Element) -> Result<Option<Element>, NoMemory> {
        self.tree.put(path, element)
    }

    fn put_new(&mut self, path: &Path, element: Element) -> Result<bool, NoMemory> {
        self.tree.put_new(path, element)
    }

    fn take(&mut self, path: &Path) -> Result<Option<Element>, NoMemory> {
        self.tree.take(path)
    }

    fn len(&self) -> usize {
        self.tree.len()
    }

    fn make_room(&mut self, path: &Path) -> Result<(), NoMemory> {
        self.tree.make_room(path)
    }

    fn drop_room(&mut self) {
        self.tree.drop_room();
    }
}

impl Remembers for CopyTree {
    type Memory = Copied;

    ghost number = { λ copied. copied.number };

    fn remember(&mut self, alloc: Global) -> Result<Copied, NoMemory> {
        let number = self.next;
        let Some(next) = number.checked_add(1) else {
            return Err(AllocError);
        };
        let copy = self.tree.map().copy()?;
        self.copies.insert(number, copy)?;
        self.next = next;
        Ok(Copied { number })
    }

    fn since(&self, alloc: Global, from: &Copied) -> Result<Delta, NoMemory> {
        compare(alloc, self.copy_of(from), self.tree.map())
    }

    fn at(&self, alloc: Global, memory: &Copied) -> Result<ElemMap, NoMemory> {
        self.copy_of(memory).copy()
    }

    fn forget(&mut self, alloc: Global, memory: Copied) -> Result<(), (NoMemory, Copied)> {
        self.copies.remove(&memory.number);
        Ok(())
    }
}
