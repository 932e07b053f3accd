//! Elements by path.
ghost use Rattle.std.specs.Prelude.{◌≡◌, ◌↔◌, None, IfOk, OnOk, OnErr, IsOk, IsTrue, true, false, not};
ghost use Rattle.std.specs.Option.{option_copied, option_map};
ghost use Rattle.std.specs.Map.Iter.{deref_pair};
ghost use Rattle.std.specs.FinMap as map;
ghost use Rattle.ws_elem.specs.Trees.{Whole, fresh_tree, entry_after, paths_below, with_new, without};
ghost use Rattle.ws_elem.specs.Rooms.{no_room, has_room, with_room};
ghost use Rattle.ws_elem.specs.Inside.Walks.{first_below, without_all};

use crate::entries::Entries;
use crate::room::RoomSet;
use crate::slots::{
    close_last, close_slot, element_in, fill_slot, one_more, open_slot, take_from, undo_room,
};
use crate::{Element, Kind, NoMemory, TreeRep};
use res_path::Path;
use std::alloc::Global;
use std::collections::BTreeMap;
use std::marker::Model;
use std::ops::Bound;

/// Elements by path, in path order. A contract sees the finite map from path to element, and the set of paths with
/// room.
///
/// A look-up, a `put` and a `take` cost a few comparisons of paths, in the logarithm of the size.
#[derive(Debug, Drop)]
pub struct ElemMap {
    // A slot for each path that has an element, and an empty one for each other path with room.
    slots: BTreeMap<Path, Option<Element>>,
    room: RoomSet,
    // How many slots have an element.
    elements: usize,
}

impl Model for ElemMap {
    ghost use Rattle.std.specs.FinSet as set;
    ghost use Rattle.ws_elem.specs.RoomyTrees.{RoomyTree, roomy_code};
    ghost use Rattle.ws_elem.specs.Inside.Slots.{tree_of, IsKept};
    ghost use Rattle.ws_elem.specs.contracts.element.Element as element;

    ghost Value = { RoomyTree };

    ghost coded = { roomy_code element.the_row.coded };

    ghost view = { λ m. record { map = tree_of m.slots.entries; room = set.from_list m.room } };

    ghost invariant = { λ m. IsKept m.slots.entries m.room m.elements };
}

impl ElemMap {
    /// The map without elements. It takes no memory.
    pub fn empty(alloc: Global) -> ElemMap
        ensures map { result.map ≡ map.empty }
        ensures room { result.room ≡ no_room }
    {
        ElemMap {
            slots: BTreeMap::new(alloc),
            room: RoomSet::new(alloc),
            elements: 0,
        }
    }

    /// The fresh workspace: the root alone, as node 1.
    pub fn fresh(alloc: Global) -> Result<ElemMap, NoMemory>
        ensures tree { IfOk result (λ tree. tree.map ≡ fresh_tree) }
        ensures room { IfOk result (λ tree. tree.room ≡ no_room) }
        ensures whole { IfOk result (λ tree. Whole tree.map) }
    {
        let mut tree = ElemMap::empty(alloc);
        tree.put(Path::root(), Element::bare(Kind::Root, 1))?;
        Ok(tree)
    }

    /// How many elements.
    pub fn len(&self) -> usize
        ensures { result ≡ map.len self.now.map }
    {
        self.elements
    }

    /// Whether there is no element.
    pub fn is_empty(&self) -> bool
        ensures { IsTrue result ↔ (map.len self.now.map ≡ 0) }
    {
        self.len() == 0
    }

    /// The element at the path.
    pub fn get(&self, path: &Path) -> Option<&Element>
        ensures { option_copied result ≡ map.get self.now.map path.now }
    {
        element_in(self.slots.get(path))
    }

    /// Whether there is an element at the path.
    pub fn contains(&self, path: &Path) -> bool
        ensures { result ≡ map.contains_key self.now.map path.now }
    {
        self.get(path).is_some()
    }

    /// The first entry above the path, in path order. The path itself need not be there.
    pub fn next(&self, after: &Path) -> Option<(&Path, &Element)>
        ensures { option_map deref_pair result ≡ entry_after self.now.map after.now }
    {
        let above = self.slots.range((Bound::Excluded(after), Bound::Unbounded));
        Entries::of(above).next()
    }

    /// The entries, in path order.
    pub fn iter(&self) -> Entries<'_>
        ensures { result ≡ map.entries self.now.map }
    {
        Entries::of(self.slots.range(..))
    }

    /// Puts the element at the path, and gives the one that was there. Only a path that had none, and no room, can
    /// want memory.
    pub fn put(&mut self, path: Path, element: Element) -> Result<Option<Element>, NoMemory>
        ensures before { IfOk result (λ before. before ≡ map.get self.old.map path) }
        ensures ok { OnOk result (self.new.map ≡ map.insert self.old.map path element) }
        ensures err { OnErr result (self.new.map ≡ self.old.map) }
        ensures room { self.new.room ≡ self.old.room }
        ensures absent { OnErr result (map.contains_key self.old.map path ≡ false) }
        ensures never { has_room self.old.room path ≡ true → IsOk result }
    {
        let before = self.slots.insert(path, Some(element))?.flatten();
        match before {
            Some(before) => Ok(Some(before)),
            None => {
                self.elements = one_more(self.elements, &self.slots);
                Ok(None)
            }
        }
    }

    /// Puts the element at the path where there is none, and gives the path room either way. Whether it was put there.
    /// Costs one search for the path, and one among those with room.
    pub fn put_new(&mut self, path: &Path, element: Element) -> Result<bool, NoMemory>
        ensures answer { IfOk result (λ puts. puts ≡ not (map.contains_key self.old.map path.now)) }
        ensures ok { OnOk result (self.new.map ≡ with_new self.old.map path.now element) }
        ensures err { OnErr result (self.new.map ≡ self.old.map) }
        ensures room { OnOk result (self.new.room ≡ with_room self.old.room path.now) }
        ensures no_room { OnErr result (self.new.room ≡ self.old.room) }
    {
        let added = self.room.add(path)?;
        let puts = match fill_slot(&mut self.slots, path, element) {
            Ok(puts) => puts,
            Err(wanted) => {
                undo_room(&mut self.room, path, added);
                return Err(wanted);
            }
        };
        if puts {
            self.elements = one_more(self.elements, &self.slots);
        }
        Ok(puts)
    }

    /// Takes the element at the path out, if there is one. It takes no memory.
    pub fn take(&mut self, path: &Path) -> Option<Element>
        ensures before { result ≡ map.get self.old.map path.now }
        ensures taken { self.new.map ≡ map.remove self.old.map path.now }
        ensures room { self.new.room ≡ self.old.room }
    {
        let stays = self.room.contains(path);
        let taken = take_from(&mut self.slots, path, stays)?;
        self.elements -= 1;
        Some(taken)
    }

    /// The paths at or below this one, in path order. Costs one step per path given.
    pub fn below(&self, alloc: Global, path: &Path) -> Result<Vec<Path>, NoMemory>
        ensures { IfOk result (λ paths. paths.items ≡ paths_below self.now.map path.now) }
    {
        first_below(alloc, Entries::of(self.slots.range(path..)), path)
    }

    /// Takes the path and all below it out. Costs what it takes out, each a few comparisons of paths. Where memory
    /// wants the map stays as it was.
    pub fn remove_below(&mut self, alloc: Global, path: &Path) -> Result<(), NoMemory>
        ensures ok { OnOk result (self.new.map ≡ without self.old.map path.now) }
        ensures err { OnErr result (self.new.map ≡ self.old.map) }
        ensures room { self.new.room ≡ self.old.room }
    {
        let paths = self.below(alloc, path)?;
        self.take_all(paths.as_slice());
        Ok(())
    }

    /// Takes out what is at these paths.
    fn take_all(&mut self, paths: &[Path])
        ensures map { self.new.map ≡ without_all self.old.map paths.now }
        ensures room { self.new.room ≡ self.old.room }
    {
        for path in paths {
            self.take(path);
        }
    }

    /// An equal map, with the same room, whose elements share their texts.
    pub fn copy(&self) -> Result<ElemMap, NoMemory>
        ensures { IfOk result (λ copy. copy ≡ self.now) }
    {
        self.clone()
    }
}

impl Clone for ElemMap {
    ghost use Rattle.std.specs.Prelude.{◌≡◌};

    ghost is_clone = { λ tree copy. copy ≡ tree };

    fn clone(&self) -> Result<ElemMap, NoMemory> {
        let slots = self.slots.clone()?;
        let room = self.room.clone()?;
        Ok(ElemMap {
            slots,
            room,
            elements: self.elements,
        })
    }
}

impl TreeRep for ElemMap {
    ghost tree = { λ m. m.map };

    ghost room = { λ m. m.room };

    ghost remembered = { λ _ _. None };

    fn get(&self, path: &Path) -> Option<&Element> {
        ElemMap::get(self, path)
    }

    fn next(&self, after: &Path) -> Option<(&Path, &Element)> {
        ElemMap::next(self, after)
    }

    fn put(&mut self, path: Path, element: Element) -> Result<Option<Element>, NoMemory> {
        ElemMap::put(self, path, element)
    }

    fn put_new(&mut self, path: &Path, element: Element) -> Result<bool, NoMemory> {
        ElemMap::put_new(self, path, element)
    }

    fn take(&mut self, path: &Path) -> Result<Option<Element>, NoMemory> {
        Ok(ElemMap::take(self, path))
    }

    fn len(&self) -> usize {
        ElemMap::len(self)
    }

    fn make_room(&mut self, path: &Path) -> Result<(), NoMemory> {
        if self.room.contains(path) {
            return Ok(());
        }
        open_slot(&mut self.slots, path)?;
        if let Err(wanted) = self.room.add(path) {
            close_slot(&mut self.slots, path);
            return Err(wanted);
        }
        Ok(())
    }

    /// Costs a few comparisons of paths for each path with room, and none where each of them has an element.
    fn drop_room(&mut self) {
        if self.elements == self.slots.len() {
            self.room.clear();
            return;
        }
        while let Some(path) = self.room.pop() {
            close_last(&mut self.slots, path);
        }
    }
}

/// The paths of the first entries, as long as they are at or below this one.
fn first_below(alloc: Global, entries: Entries<'_>, path: &Path) -> Result<Vec<Path>, NoMemory>
    ensures { IfOk result (λ paths. paths.items ≡ first_below path.now entries.entry) }
{
    let mut paths = Vec::new(alloc);
    for (at, _) in entries {
        if !path.is_prefix_of(at) {
            break;
        }
        paths.push(at.copy()?)?;
    }
    Ok(paths)
}
