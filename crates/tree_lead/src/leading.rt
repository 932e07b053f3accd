//! Puts and takes that lead one tree to another.
ghost use Rattle.std.specs.Prelude.{◌≡◌, OnOk};
ghost use Rattle.std.specs.Option.{option_copied};
ghost use Rattle.ws_elem.specs.Trees.{set_at};

use crate::NoMemory;
use res_path::Path;
use tree_rows::Between;
use ws_elem::{ElemMap, Element, TreeRep};

/// Leads the tree, whose elements are those of `before`, to those of `wanted`, by a put or a take at each path at which
/// they differ, and at no other. Every tree that is remembered stays, and so does the room. What is put shares the texts
/// of `wanted`. After `NoMemory` the tree is one on the way. Costs one walk of both maps, and a put or a take for each
/// path at which they differ.
pub fn lead<T: TreeRep>(tree: &mut T, before: &ElemMap, wanted: &ElemMap) -> Result<(), NoMemory>
    requires { T.tree tree.old ≡ before.now.map }
    ensures tree { OnOk result (T.tree tree.new ≡ wanted.now.map) }
    ensures remembered { T.remembered tree.new ≡ T.remembered tree.old }
    ensures room { T.room tree.new ≡ T.room tree.old }
{
    for row in Between::of(before, wanted) {
        set(tree, row.path, row.entry)?;
    }
    Ok(())
}

/// Puts the element at the path, or takes the one that is there.
fn set<T: TreeRep>(tree: &mut T, path: &Path, entry: Option<&Element>) -> Result<(), NoMemory>
    ensures tree { OnOk result (T.tree tree.new ≡ set_at (T.tree tree.old) path.now (option_copied entry.entry)) }
    ensures remembered { T.remembered tree.new ≡ T.remembered tree.old }
    ensures room { T.room tree.new ≡ T.room tree.old }
{
    match entry {
        None => {
            tree.take(path)?;
        }
        Some(element) => {
            tree.put(path.copy()?, element.copy()?)?;
        }
    }
    Ok(())
}
