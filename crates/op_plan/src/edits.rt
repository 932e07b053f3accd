//! Edits: what is to stand at some paths, and what stood there.
ghost use Rattle.std.specs.Prelude.{◌≡◌, ◌+◌, ◌≤◌, ◌∷◌, ◌++◌, [], true, length, reverse, IfOk, OnOk, OnErr};
ghost use Rattle.std.specs.FinMap.{get};
ghost use Rattle.std.specs.Vec.{vec_len, vec_capacity};
ghost use Rattle.ws_elem.specs.Rooms.{has_room};
ghost use Rattle.ws_elem.specs.Trees.{set_at};
ghost use Rattle.op_plan.specs.Edits.{changed, HasRooms, KeepsRoom};
ghost use Rattle.op_plan.specs.Inside.Lists.{undoing, taken, put};

use crate::Entries;
use res_path::{NoMemory, Path};
use std::alloc::Global;
use std::marker::Model;
use ws_elem::{Element, TreeRep};

/// What is to stand at a path: an element, or nothing.
#[derive(Drop)]
pub struct Edit {
    path: Path,
    // the same path again, so that one can be kept when the other is given away
    place: Path,
    entry: Option<Element>,
}

impl Model for Edit {
    ghost use Rattle.std.specs.Prelude.{◌≡◌, Option};
    ghost use Rattle.res_path.specs.Paths.{Names};
    ghost use Rattle.ws_elem.specs.declared.element.Element.{Element};
    ghost use Rattle.std.specs.Coded.{coded×, coded_option, coded_list, coded_ℕ};
    ghost use Rattle.ws_elem.specs.contracts.element.Element as element;

    ghost Value = { Names × Option Element };

    ghost coded = { coded× (coded_list (coded_list coded_ℕ)) (coded_option element.the_row.coded) };

    ghost view = { λ c. (c.path, c.entry) };

    ghost invariant = { λ c. c.place ≡ c.path };
}

impl Edit {
    /// This entry at this path.
    fn of(path: Path, entry: Option<Element>) -> Result<Edit, NoMemory>
        ensures { IfOk result (λ change. change ≡ (path, entry)) }
    {
        let place = path.copy()?;
        Ok(Edit { path, place, entry })
    }

    /// The path.
    fn path(&self) -> &Path
        ensures { result.now ≡ self.now.0 }
    {
        &self.path
    }

    /// The path twice, and what is to stand there.
    fn into_parts(self) -> (Path, Path, Option<Element>)
        ensures { result ≡ (self.0, self.0, self.1) }
    {
        let Edit { path, place, entry } = self;
        (path, place, entry)
    }
}

/// What is to stand at some paths, one after another. A contract sees the list of paths, each with its entry.
#[derive(Drop)]
pub struct Edits {
    edits: Vec<Edit>,
}

impl Model for Edits {
    ghost use Rattle.op_plan.specs.Edits.{Edits};
    ghost use Rattle.std.specs.Coded.{coded×, coded_option, coded_list, coded_ℕ};
    ghost use Rattle.ws_elem.specs.contracts.element.Element as element;

    ghost Value = { Edits };

    ghost coded = { coded_list (coded× (coded_list (coded_list coded_ℕ)) (coded_option element.the_row.coded)) };

    ghost view = { λ c. c.edits.items };
}

impl Edits {
    /// No edits. It takes no memory.
    pub fn none(alloc: Global) -> Edits
        ensures { result ≡ [] }
    {
        Edits {
            edits: Vec::new(alloc),
        }
    }

    /// How many edits.
    pub fn len(&self) -> usize
        ensures { result ≡ length self.now }
    {
        self.edits.len()
    }

    /// The element is to stand at the path, after what is planned already.
    pub fn put(&mut self, path: Path, element: Element) -> Result<(), NoMemory>
        ensures ok { OnOk result (self.new ≡ self.old ++ (path, Some element) ∷ []) }
        ensures err { OnErr result (self.new ≡ self.old) }
    {
        self.edits.push(Edit::of(path, Some(element))?)?;
        Ok(())
    }

    /// Nothing is to stand at the path, after what is planned already.
    pub fn take(&mut self, path: Path) -> Result<(), NoMemory>
        ensures ok { OnOk result (self.new ≡ self.old ++ (path, None) ∷ []) }
        ensures err { OnErr result (self.new ≡ self.old) }
    {
        self.edits.push(Edit::of(path, None)?)?;
        Ok(())
    }

    /// The elements are to be gone from their paths, after what is planned already.
    pub fn take_all(&mut self, entries: &Entries) -> Result<(), NoMemory>
        ensures { OnOk result (self.new ≡ self.old ++ taken entries.now) }
    {
        for (path, _) in entries.as_slice() {
            self.take(path.copy()?)?;
        }
        Ok(())
    }

    /// The elements are to stand at their paths, after what is planned already.
    pub fn put_all(&mut self, entries: Entries) -> Result<(), NoMemory>
        ensures { OnOk result (self.new ≡ self.old ++ put entries) }
    {
        for (path, element) in entries.into_vec() {
            self.put(path, element)?;
        }
        Ok(())
    }

    /// Makes the changes, and gives what stood at their paths, in a list that has space for it. It takes no memory.
    #[tactic(auto, using(crate::proofs::Made::all_undone))]
    pub fn make<T: TreeRep>(self, tree: &mut T, space: Vec<(Path, Option<Element>)>) -> Earlier
        requires rooms { HasRooms (T.room tree.old) self }
        requires empty { space.items ≡ [] }
        requires space { length self ≤ vec_capacity space }
        ensures tree { T.tree tree.new ≡ changed (T.tree tree.old) self }
        ensures room { T.room tree.new ≡ T.room tree.old }
        ensures remembered { T.remembered tree.new ≡ T.remembered tree.old }
        ensures earlier { result ≡ undoing (T.tree tree.old) self }
    {
        let mut entries = space;
        make(self, tree, &mut entries);
        Earlier { entries }
    }

    /// Gives each path room in the tree, which stays as it is.
    pub fn make_room<T: TreeRep>(&self, tree: &mut T) -> Result<(), NoMemory>
        ensures tree { T.tree tree.new ≡ T.tree tree.old }
        ensures kept { KeepsRoom (T.room tree.old) (T.room tree.new) }
        ensures ok { OnOk result (HasRooms (T.room tree.new) self.now) }
        ensures remembered { T.remembered tree.new ≡ T.remembered tree.old }
    {
        for edit in self.edits.as_slice() {
            tree.make_room(edit.path())?;
        }
        Ok(())
    }
}

/// What stood at some paths before they were changed. A contract sees the list of paths, each with what stood there,
/// the path that was changed last first.
#[derive(Drop)]
pub struct Earlier {
    entries: Vec<(Path, Option<Element>)>,
}

impl Model for Earlier {
    ghost use Rattle.std.specs.Prelude.{reverse};
    ghost use Rattle.op_plan.specs.Edits.{Edits};
    ghost use Rattle.std.specs.Coded.{coded×, coded_option, coded_list, coded_ℕ};
    ghost use Rattle.ws_elem.specs.contracts.element.Element as element;

    ghost Value = { Edits };

    ghost coded = { coded_list (coded× (coded_list (coded_list coded_ℕ)) (coded_option element.the_row.coded)) };

    ghost view = { λ e. reverse e.entries.items };
}

impl Earlier {
    /// Nothing was changed. It takes no memory.
    pub fn nothing(alloc: Global) -> Earlier
        ensures { result ≡ [] }
    {
        Earlier {
            entries: Vec::new(alloc),
        }
    }

    /// Nothing stood at the path.
    pub fn free(alloc: Global, path: &Path) -> Result<Earlier, NoMemory>
        ensures { IfOk result (λ earlier. earlier ≡ (path.now, None) ∷ []) }
    {
        let mut entries = Vec::with_capacity(alloc, 1)?;
        entries.push_reserved((path.copy()?, None));
        Ok(Earlier { entries })
    }

    /// Puts back what stood at the paths. It takes no memory.
    pub fn put_back<T: TreeRep>(self, tree: &mut T)
        requires { HasRooms (T.room tree.old) self }
        ensures tree { T.tree tree.new ≡ changed (T.tree tree.old) self }
        ensures room { T.room tree.new ≡ T.room tree.old }
        ensures remembered { T.remembered tree.new ≡ T.remembered tree.old }
    {
        let Earlier { mut entries } = self;
        put_back_from(&mut entries, tree);
    }
}

/// Puts back what stood at the paths, the last one first.
fn put_back_from<T: TreeRep>(entries: &mut Vec<(Path, Option<Element>)>, tree: &mut T)
    requires { HasRooms (T.room tree.old) (reverse entries.old.items) }
    ensures tree { T.tree tree.new ≡ changed (T.tree tree.old) (reverse entries.old.items) }
    ensures room { T.room tree.new ≡ T.room tree.old }
    ensures remembered { T.remembered tree.new ≡ T.remembered tree.old }
{
    while let Some((path, entry)) = entries.pop() {
        let _ = set_entry(tree, path, entry);
    }
}

/// Room for what stands at so many paths.
pub fn room_for(alloc: Global, count: usize) -> Result<Vec<(Path, Option<Element>)>, NoMemory>
    ensures items { IfOk result (λ v. v.items ≡ []) }
    ensures room { IfOk result (λ v. count ≤ vec_capacity v) }
{
    Vec::with_capacity(alloc, count)
}

/// Makes the changes, and adds what stood at their paths to `earlier`. It takes no memory.
fn make<T: TreeRep>(edits: Edits, tree: &mut T, earlier: &mut Vec<(Path, Option<Element>)>)
    requires rooms { HasRooms (T.room tree.old) edits }
    requires space { vec_len earlier.old + length edits ≤ vec_capacity earlier.old }
    ensures tree { T.tree tree.new ≡ changed (T.tree tree.old) edits }
    ensures room { T.room tree.new ≡ T.room tree.old }
    ensures remembered { T.remembered tree.new ≡ T.remembered tree.old }
    ensures earlier { reverse earlier.new.items ≡ undoing (T.tree tree.old) edits ++ reverse earlier.old.items }
{
    let Edits { edits } = edits;
    for edit in edits {
        let (path, place, entry) = edit.into_parts();
        let before = set_entry(tree, place, entry);
        earlier.push_reserved((path, before));
    }
}

/// The entry stands at the path, in the place of what it gives. It takes no memory.
fn set_entry<T: TreeRep>(tree: &mut T, path: Path, entry: Option<Element>) -> Option<Element>
    requires { has_room (T.room tree.old) path ≡ true }
    ensures before { result ≡ get (T.tree tree.old) path }
    ensures tree { T.tree tree.new ≡ set_at (T.tree tree.old) path entry }
    ensures room { T.room tree.new ≡ T.room tree.old }
    ensures remembered { T.remembered tree.new ≡ T.remembered tree.old }
{
    let changed = match entry {
        None => tree.take(&path),
        Some(element) => tree.put(path, element),
    };
    match changed {
        Ok(before) => before,
        Err(_) => unreachable!(),
    }
}
