//! A tree with marks.
ghost use Rattle.std.specs.Prelude.{◌≡◌, ◌≢◌, ◌+◌, ◌≤◌, ◌++◌, ◌∷◌, [], ℕ, length, not, true, IfOk, IfErr, OnOk, OnErr, IsOk, IfSome, Some, None};
ghost use Rattle.std.specs.Option.{option_copied, option_map};
ghost use Rattle.std.specs.Map.Iter.{deref_pair};
ghost use Rattle.std.specs.FinMap as map;
ghost use Rattle.ws_elem.specs.Trees.{Tree, entry_after, with_new};
ghost use Rattle.ws_elem.specs.Rooms.{no_room, has_room, with_room};
ghost use Rattle.layer_log.specs.Records.{Leads, Net};
ghost use Rattle.elem_tree.specs.Layers.{from_mark, noted, records, tree_at, without_mark};

use crate::NoMemory;
use crate::forgetting::forget_layer;
use crate::gathering::changes_of;
use crate::layer::{Layer, Mark, end_layer, layers_from};
use crate::newest::Newest;
use crate::noting::{drop_room_noted, make_room_noted, put_noted, ready_notes, take_noted};
use layer_log::{Changes, Steps};
use res_path::Path;
use std::alloc::{AllocError, Global};
use std::marker::Model;
use std::sync::ledger::Ledger;
use ws_elem::{ElemMap, Element, TreeRep};

/// A tree with marks: its newest state, and what was recorded since each mark that isn't forgotten. A contract sees the
/// newest map from path to element, the paths with room, and the layers: of each mark what was recorded up to the next,
/// from which follows the tree that was the newest one then.
///
/// A mark costs what is put and taken after it, and never a copy of the tree.
#[derive(Debug, Drop)]
pub struct LayerTree {
    newest: Newest,
    // Those that ended, the oldest first.
    layers: Vec<Layer>,
    // That of the last mark.
    current: Option<Layer>,
    // The number of the next mark.
    next: u64,
}

impl Model for LayerTree {
    ghost use Rattle.ws_elem.specs.contracts.element.Element as element;
    ghost use Rattle.elem_tree.specs.Layers.{LayeredTree};
    ghost use Rattle.elem_tree.specs.Inside.Codes.{layered_code};
    ghost use Rattle.elem_tree.specs.Inside.Shown.{shown_all, with_current, IsKept};

    ghost Value = { LayeredTree };

    ghost coded = { layered_code element.the_row.coded };

    ghost view = { λ t. record { map = t.newest.map; room = t.newest.room; layers = shown_all (with_current t.layers.items t.current) } };

    ghost invariant = { λ t. IsKept t.layers.items t.current t.next t.newest.map t.newest.room };
}

impl LayerTree {
    /// The tree with these elements, without room and marks. It takes no memory.
    pub fn of(alloc: Global, map: ElemMap) -> LayerTree
        ensures { result ≡ record { map = map.map; room = no_room; layers = [] } }
    {
        LayerTree {
            newest: Newest::of(alloc, map),
            layers: Vec::new(alloc),
            current: None,
            next: 0,
        }
    }

    /// The newest elements.
    pub fn newest(&self) -> &ElemMap
        ensures map { result.now.map ≡ self.now.map }
        ensures room { result.now.room ≡ self.now.room }
    {
        self.newest.elements()
    }

    /// Puts the element at the path, and gives the one that was there, which the newest mark's layer records. Every
    /// mark keeps its tree. After `NoMemory` the tree is as before.
    pub fn put(&mut self, path: Path, element: Element) -> Result<Option<Element>, NoMemory>
        ensures before { IfOk result (λ before. before ≡ map.get self.old.map path) }
        ensures ok { OnOk result (self.new.map ≡ map.insert self.old.map path element) }
        ensures noted { OnOk result (self.new.layers ≡ noted self.old.layers path (map.get self.old.map path)) }
        ensures err { OnErr result (self.new ≡ self.old) }
        ensures room { self.new.room ≡ self.old.room }
        ensures never { has_room self.old.room path ≡ true → IsOk result }
        ensures marks { (m : ℕ) → tree_at self.new m ≡ tree_at self.old m }
    {
        match &mut self.current {
            Some(current) => put_noted(&mut current.notes, &mut self.newest, path, element),
            None => self.newest.put(path, element),
        }
    }

    /// As `put`, where there is no element at the path; the path has room either way. Whether the element was put. After
    /// `NoMemory` the tree is as before.
    pub fn put_new(&mut self, path: &Path, element: Element) -> Result<bool, NoMemory>
        ensures answer { IfOk result (λ puts. puts ≡ not (map.contains_key self.old.map path.now)) }
        ensures ok { OnOk result (self.new.map ≡ with_new self.old.map path.now element) }
        ensures err { OnErr result (self.new ≡ self.old) }
        ensures room { OnOk result (self.new.room ≡ with_room self.old.room path.now) }
        ensures marks { (m : ℕ) → tree_at self.new m ≡ tree_at self.old m }
    {
        let at = path.copy()?;
        self.make_room(path)?;
        if self.newest.elements().contains(path) {
            return Ok(false);
        }
        self.put(at, element)?;
        Ok(true)
    }

    /// Takes the element at the path out, and gives it, which the newest mark's layer records. Every mark keeps its
    /// tree. After `NoMemory` the tree is as before.
    pub fn take(&mut self, path: &Path) -> Result<Option<Element>, NoMemory>
        ensures before { IfOk result (λ before. before ≡ map.get self.old.map path.now) }
        ensures ok { OnOk result (self.new.map ≡ map.remove self.old.map path.now) }
        ensures noted { OnOk result (self.new.layers ≡ noted self.old.layers path.now (map.get self.old.map path.now)) }
        ensures err { OnErr result (self.new ≡ self.old) }
        ensures room { self.new.room ≡ self.old.room }
        ensures never { has_room self.old.room path.now ≡ true → IsOk result }
        ensures marks { (m : ℕ) → tree_at self.new m ≡ tree_at self.old m }
    {
        match &mut self.current {
            Some(current) => take_noted(&mut current.notes, &mut self.newest, path),
            None => Ok(self.newest.take(path)),
        }
    }

    /// Gives the path room. Tree and marks are as before.
    pub fn make_room(&mut self, path: &Path) -> Result<(), NoMemory>
        ensures ok { OnOk result (self.new ≡ record self.old { room = with_room self.old.room path.now }) }
        ensures err { OnErr result (self.new ≡ self.old) }
    {
        match &mut self.current {
            Some(current) => make_room_noted(&mut current.notes, &mut self.newest, path),
            None => self.newest.make_room(path),
        }
    }

    /// Takes all room away. Tree and marks are as before. It takes no memory.
    pub fn drop_room(&mut self)
        ensures { self.new ≡ record self.old { room = no_room } }
    {
        match &mut self.current {
            Some(current) => drop_room_noted(&mut current.notes, &mut self.newest),
            None => self.newest.drop_room(),
        }
    }

    /// Remembers the tree as it is: a new mark, since which nothing is recorded. Every other mark keeps its tree. Where
    /// memory wants, or 2^64 - 1 marks were made, all is as before. Costs a copy of the elements with room, and of no
    /// others.
    pub fn seal(&mut self, alloc: Global) -> Result<Mark, NoMemory>
        ensures ok { IfOk result (λ mark. self.new ≡ record self.old { layers = self.old.layers ++ record { mark = mark; befores = map.empty } ∷ [] }) }
        ensures fresh { IfOk result (λ mark. tree_at self.old mark ≡ None) }
        ensures own { IfOk result (λ mark. tree_at self.new mark ≡ Some self.new.map) }
        ensures marks { (m : ℕ) → IfSome (tree_at self.old m) (λ t. tree_at self.new m ≡ Some t) }
        ensures err { OnErr result (self.new ≡ self.old) }
    {
        let number = self.next;
        let Some(next) = number.checked_add(1) else {
            return Err(AllocError);
        };
        let notes = ready_notes(alloc, &self.newest)?;
        end_layer(&mut self.layers, &mut self.current, self.newest.roomy())?;
        self.current = Some(Layer {
            mark: number,
            notes,
        });
        self.next = next;
        Ok(Mark { number })
    }

    /// The net change from the mark's tree to the newest one: exactly the paths whose entries differ. Takes one step
    /// for each path that was recorded since the mark, and besides these a search for each record.
    pub fn between<L: Ledger>(
        &self,
        alloc: Global,
        from: &Mark,
        steps: &mut Steps<L>,
    ) -> Result<Changes, NoMemory>
        ensures net { IfOk result (λ c. IfSome (tree_at self.now from.now) (λ t. Net t self.now.map c)) }
        ensures counted { IfOk result (λ c. steps.old + map.len c ≤ steps.new) }
        ensures bound { IfSome (tree_at self.now from.now) (λ _. steps.new ≤ steps.old + records (from_mark from.now self.now.layers)) }
    {
        let changes = self.changes_since(alloc, from.number())?;
        Changes::none(alloc).then(&changes, steps)
    }

    /// The tree at the mark, as a value of its own, with the newest tree's room. Costs a copy of the newest tree, and
    /// a search for each record since the mark.
    pub fn at(&self, alloc: Global, mark: &Mark) -> Result<ElemMap, NoMemory>
        ensures { IfOk result (λ tree. IfSome (tree_at self.now mark.now) (λ t. tree.map ≡ t)) }
    {
        self.changes_since(alloc, mark.number())?
            .undo(self.newest.elements())
    }

    /// Forgets the mark: its tree can't be asked for any more, and every other mark keeps its tree. What was recorded
    /// since it is recorded since the mark before it from then on, if there is one, the smaller part taken into the larger
    /// and no element copied; so there are as many layers as marks that aren't forgotten. After `NoMemory`, with which the
    /// mark comes back, the tree is as before.
    pub fn forget(&mut self, alloc: Global, mark: Mark) -> Result<(), (NoMemory, Mark)>
        ensures ok { OnOk result (self.new ≡ record self.old { layers = without_mark mark self.old.layers }) }
        ensures gone { OnOk result (tree_at self.new mark ≡ None) }
        ensures marks { OnOk result ((m : ℕ) → m ≢ mark → tree_at self.new m ≡ tree_at self.old m) }
        ensures fewer { OnOk result (IfSome (tree_at self.old mark) (λ _. length self.new.layers + 1 ≡ length self.old.layers)) }
        ensures records { OnOk result (records self.new.layers ≤ records self.old.layers) }
        ensures err { OnErr result (self.new ≡ self.old) }
        ensures back { IfErr result (λ e. e.1 ≡ mark) }
    {
        match self.forget_number(alloc, mark.number()) {
            Ok(()) => Ok(()),
            Err(wanted) => Err((wanted, mark)),
        }
    }

    fn forget_number(&mut self, alloc: Global, mark: u64) -> Result<(), NoMemory>
        ensures ok { OnOk result (self.new ≡ record self.old { layers = without_mark mark self.old.layers }) }
        ensures gone { OnOk result (tree_at self.new mark ≡ None) }
        ensures marks { OnOk result ((m : ℕ) → m ≢ mark → tree_at self.new m ≡ tree_at self.old m) }
        ensures fewer { OnOk result (IfSome (tree_at self.old mark) (λ _. length self.new.layers + 1 ≡ length self.old.layers)) }
        ensures records { OnOk result (records self.new.layers ≤ records self.old.layers) }
        ensures err { OnErr result (self.new ≡ self.old) }
    {
        forget_layer(alloc, &mut self.layers, &mut self.current, mark)
    }

    /// What became of each path that was recorded since the mark.
    fn changes_since(&self, alloc: Global, mark: u64) -> Result<Changes, NoMemory>
        ensures leads { IfOk result (λ c. IfSome (tree_at self.now mark) (λ t. Leads t c self.now.map)) }
        ensures most { IfOk result (λ c. IfSome (tree_at self.now mark) (λ _. map.len c ≤ records (from_mark mark self.now.layers))) }
    {
        changes_of(
            alloc,
            layers_from(self.layers.as_slice(), mark),
            self.current.as_ref(),
            self.newest.elements(),
        )
    }
}

impl TreeRep for LayerTree {
    ghost tree = { λ t. t.map };

    ghost room = { λ t. t.room };

    ghost remembered = { tree_at };

    fn get(&self, path: &Path) -> Option<&Element> {
        self.newest.elements().get(path)
    }

    fn next(&self, after: &Path) -> Option<(&Path, &Element)> {
        self.newest.elements().next(after)
    }

    fn put(&mut self, path: Path, element: Element) -> Result<Option<Element>, NoMemory> {
        LayerTree::put(self, path, element)
    }

    /// Costs what `make_room` and then a look and a `put` cost.
    fn put_new(&mut self, path: &Path, element: Element) -> Result<bool, NoMemory> {
        LayerTree::put_new(self, path, element)
    }

    fn take(&mut self, path: &Path) -> Result<Option<Element>, NoMemory> {
        LayerTree::take(self, path)
    }

    fn len(&self) -> usize {
        self.newest.elements().len()
    }

    fn make_room(&mut self, path: &Path) -> Result<(), NoMemory> {
        LayerTree::make_room(self, path)
    }

    fn drop_room(&mut self) {
        LayerTree::drop_room(self);
    }
}
