//! A tree over one ordered map.
ghost use Rattle.std.specs.Prelude.{◌≡◌, None, IfOk};

use res_path::Path;
use std::marker::Model;
use ws_elem::{ElemMap, Element, NoMemory, TreeRep};

/// A tree over one ordered map, which keeps its newest state alone. A contract sees the map: the finite map from path
/// to element, and the set of paths with room.
///
/// Each call costs what it costs the map.
#[derive(Debug, Drop)]
pub struct FlatTree {
    elements: ElemMap,
}

impl Model for FlatTree {
    ghost use Rattle.ws_elem.specs.RoomyTrees.{RoomyTree, roomy_code};
    ghost use Rattle.ws_elem.specs.contracts.element.Element as element;

    ghost Value = { RoomyTree };

    ghost coded = { roomy_code element.the_row.coded };

    ghost view = { λ t. t.elements };
}

impl FlatTree {
    /// The tree over this map, with the map's room. It takes no memory.
    pub fn of(map: ElemMap) -> FlatTree
        ensures { result ≡ map }
    {
        FlatTree { elements: map }
    }

    /// The map.
    pub fn map(&self) -> &ElemMap
        ensures { result.now ≡ self.now }
    {
        &self.elements
    }

    /// The map, as a value of its own. It takes no memory.
    pub fn into_map(self) -> ElemMap
        ensures { result ≡ self }
    {
        let FlatTree { elements } = self;
        elements
    }

    /// An equal tree, with the same room, whose elements share their texts.
    pub fn copy(&self) -> Result<FlatTree, NoMemory>
        ensures { IfOk result (λ copy. copy ≡ self.now) }
    {
        Ok(FlatTree {
            elements: self.elements.copy()?,
        })
    }
}

impl TreeRep for FlatTree {
    ghost tree = { λ t. t.map };

    ghost room = { λ t. t.room };

    ghost remembered = { λ _ _. None };

    fn get(&self, path: &Path) -> Option<&Element> {
        self.elements.get(path)
    }

    fn next(&self, after: &Path) -> Option<(&Path, &Element)> {
        self.elements.next(after)
    }

    fn put(&mut self, path: Path, element: Element) -> Result<Option<Element>, NoMemory> {
        self.elements.put(path, element)
    }

    fn put_new(&mut self, path: &Path, element: Element) -> Result<bool, NoMemory> {
        self.elements.put_new(path, element)
    }

    fn take(&mut self, path: &Path) -> Result<Option<Element>, NoMemory> {
        Ok(self.elements.take(path))
    }

    fn len(&self) -> usize {
        self.elements.len()
    }

    fn make_room(&mut self, path: &Path) -> Result<(), NoMemory> {
        self.elements.make_room(path)
    }

    fn drop_room(&mut self) {
        self.elements.drop_room();
    }
}
