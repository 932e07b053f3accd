//! What serves as a tree of elements.
ghost use Rattle.std.specs.Prelude.{◌≡◌, ℕ, true, not, Option, IfOk, OnOk, OnErr, IsOk};
ghost use Rattle.std.specs.Option.{option_copied, option_map};
ghost use Rattle.std.specs.Map.Iter.{deref_pair};
ghost use Rattle.std.specs.FinMap as map;
ghost use Rattle.ws_elem.specs.Trees.{Tree, entry_after, with_new};
ghost use Rattle.ws_elem.specs.Rooms.{Room, no_room, has_room, with_room};

use crate::{Element, NoMemory};
use res_path::Path;

/// Elements by path. A contract sees two things: `tree`, the finite map from path to element, and `room`, the set of
/// paths with room. At a path with room a `put` or a `take` never answers `NoMemory`. Only `make_room` and
/// `put_new` add to the room, and only `drop_room` takes room away.
///
/// A tree may also remember what it was before: `remembered` is the tree that is remembered under a number, if there is
/// one. No call of this trait changes any such tree.
pub trait TreeRep {
    ghost tree: { Self → Tree };

    ghost room: { Self → Room };

    ghost remembered: { Self → ℕ → Option Tree };

    /// The element at the path.
    fn get(&self, path: &Path) -> Option<&Element>
        ensures { option_copied result ≡ map.get (tree self.now) path.now };

    /// The first entry above the path, in path order. The path itself need not be there.
    fn next(&self, after: &Path) -> Option<(&Path, &Element)>
        ensures { option_map deref_pair result ≡ entry_after (tree self.now) after.now };

    /// Puts the element at the path, and gives the one that was there. After `NoMemory` the tree is as before.
    fn put(&mut self, path: Path, element: Element) -> Result<Option<Element>, NoMemory>
        ensures before { IfOk result (λ before. before ≡ map.get (tree self.old) path) }
        ensures ok { OnOk result (tree self.new ≡ map.insert (tree self.old) path element) }
        ensures err { OnErr result (tree self.new ≡ tree self.old) }
        ensures room { room self.new ≡ room self.old }
        ensures never { has_room (room self.old) path ≡ true → IsOk result }
        ensures remembered { remembered self.new ≡ remembered self.old };

    /// Puts the element at the path where there is none, and gives the path room either way. Whether it was put there.
    /// After `NoMemory` tree and room are as before.
    fn put_new(&mut self, path: &Path, element: Element) -> Result<bool, NoMemory>
        ensures answer { IfOk result (λ puts. puts ≡ not (map.contains_key (tree self.old) path.now)) }
        ensures ok { OnOk result (tree self.new ≡ with_new (tree self.old) path.now element) }
        ensures err { OnErr result (tree self.new ≡ tree self.old) }
        ensures room { OnOk result (room self.new ≡ with_room (room self.old) path.now) }
        ensures no_room { OnErr result (room self.new ≡ room self.old) }
        ensures remembered { remembered self.new ≡ remembered self.old };

    /// Takes the element at the path out, and gives it. After `NoMemory` the tree is as before.
    fn take(&mut self, path: &Path) -> Result<Option<Element>, NoMemory>
        ensures before { IfOk result (λ before. before ≡ map.get (tree self.old) path.now) }
        ensures ok { OnOk result (tree self.new ≡ map.remove (tree self.old) path.now) }
        ensures err { OnErr result (tree self.new ≡ tree self.old) }
        ensures room { room self.new ≡ room self.old }
        ensures never { has_room (room self.old) path.now ≡ true → IsOk result }
        ensures remembered { remembered self.new ≡ remembered self.old };

    /// How many elements.
    fn len(&self) -> usize
        ensures { result ≡ map.len (tree self.now) };

    /// Gives the path room. The tree is as before.
    fn make_room(&mut self, path: &Path) -> Result<(), NoMemory>
        ensures tree { tree self.new ≡ tree self.old }
        ensures ok { OnOk result (room self.new ≡ with_room (room self.old) path.now) }
        ensures err { OnErr result (room self.new ≡ room self.old) }
        ensures remembered { remembered self.new ≡ remembered self.old };

    /// Takes all room away. The tree is as before. It takes no memory.
    fn drop_room(&mut self)
        ensures tree { tree self.new ≡ tree self.old }
        ensures room { room self.new ≡ no_room }
        ensures remembered { remembered self.new ≡ remembered self.old };
}
