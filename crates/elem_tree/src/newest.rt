//! The newest tree.
ghost use Rattle.std.specs.Prelude.{◌≡◌, not, true, IfOk, OnOk, OnErr, IsOk};
ghost use Rattle.std.specs.FinMap as map;
ghost use Rattle.std.specs.FinSet as set;
ghost use Rattle.ws_elem.specs.Trees.{with_new};
ghost use Rattle.ws_elem.specs.Rooms.{no_room, has_room, with_room};

use crate::NoMemory;
use res_path::Path;
use std::alloc::Global;
use std::marker::Model;
use ws_elem::{ElemMap, Element, TreeRep};

/// The newest tree, which can tell its paths with room. A contract sees the map.
#[derive(Debug, Drop)]
pub(crate) struct Newest {
    elements: ElemMap,
    // The paths with room; one may stand twice.
    roomy: Vec<Path>,
}

impl Model for Newest {
    ghost use Rattle.std.specs.Prelude.{◌≡◌};
    ghost use Rattle.std.specs.FinSet as set;
    ghost use Rattle.ws_elem.specs.RoomyTrees.{RoomyTree, roomy_code};
    ghost use Rattle.ws_elem.specs.contracts.element.Element as element;

    ghost Value = { RoomyTree };

    ghost coded = { roomy_code element.the_row.coded };

    ghost view = { λ t. t.elements };

    ghost invariant = { λ t. set.from_list t.roomy.items ≡ t.elements.room };
}

impl Newest {
    /// The tree, without room. It takes no memory.
    pub(crate) fn of(alloc: Global, map: ElemMap) -> Newest
        ensures map { result.map ≡ map.map }
        ensures room { result.room ≡ no_room }
    {
        let mut elements = map;
        elements.drop_room();
        Newest {
            elements,
            roomy: Vec::new(alloc),
        }
    }

    pub(crate) fn elements(&self) -> &ElemMap
        ensures { result.now ≡ self.now }
    {
        &self.elements
    }

    /// The paths with room; one may stand twice.
    pub(crate) fn roomy(&self) -> &[Path]
        ensures { set.from_list result.now ≡ self.now.room }
    {
        self.roomy.as_slice()
    }

    pub(crate) fn put(&mut self, path: Path, element: Element) -> Result<Option<Element>, NoMemory>
        ensures before { IfOk result (λ before. before ≡ map.get self.old.map path) }
        ensures ok { OnOk result (self.new.map ≡ map.insert self.old.map path element) }
        ensures err { OnErr result (self.new.map ≡ self.old.map) }
        ensures room { self.new.room ≡ self.old.room }
        ensures never { has_room self.old.room path ≡ true → IsOk result }
    {
        self.elements.put(path, element)
    }

    pub(crate) fn take(&mut self, path: &Path) -> Option<Element>
        ensures before { result ≡ map.get self.old.map path.now }
        ensures taken { self.new.map ≡ map.remove self.old.map path.now }
        ensures room { self.new.room ≡ self.old.room }
    {
        self.elements.take(path)
    }

    pub(crate) fn make_room(&mut self, path: &Path) -> Result<(), NoMemory>
        ensures map { self.new.map ≡ self.old.map }
        ensures ok { OnOk result (self.new.room ≡ with_room self.old.room path.now) }
        ensures err { OnErr result (self.new.room ≡ self.old.room) }
    {
        self.roomy.push(path.copy()?)?;
        if let Err(wanted) = self.elements.make_room(path) {
            self.roomy.pop();
            return Err(wanted);
        }
        Ok(())
    }

    pub(crate) fn drop_room(&mut self)
        ensures map { self.new.map ≡ self.old.map }
        ensures room { self.new.room ≡ no_room }
    {
        self.roomy.clear();
        self.elements.drop_room();
    }
}
