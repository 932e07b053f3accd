//! What is put.
ghost use Rattle.std.specs.Prelude.{◌≡◌, ◌+◌, ◌<◌, ◌^◌, ◌++◌, OnOk};
ghost use Rattle.std.specs.FinMap.{entries};
ghost use Rattle.op_kind.specs.Members.{found_at};
ghost use Rattle.op_plan.specs.Inside.Lists.{put};
ghost use Rattle.output_commit.specs.Placed.{placed, total, nodes_of, stamps_of};

use crate::NoMemory;
use crate::deeds::{fresh, nodes_of, stamps_of};
use op_plan::edits::Edits;
use res_path::Path;
use ws_elem::{ElemMap, Element, TreeRep};

/// What is wanted and isn't there is to stand at its path, after what is planned already, with numbers from these on.
pub(crate) fn place<T: TreeRep>(
    tree: &T,
    wanted: &ElemMap,
    node: u64,
    stamp: u64,
    edits: &mut Edits,
) -> Result<(), NoMemory>
    requires nodes { node + total nodes_of (T.tree tree.now) (entries wanted.now.map) < 2 ^ 64 }
    requires stamps { stamp + total stamps_of (T.tree tree.now) (entries wanted.now.map) < 2 ^ 64 }
    ensures { OnOk result (edits.new ≡ edits.old ++ put (placed (T.tree tree.now) node stamp (entries wanted.now.map))) }
{
    let mut node = node;
    let mut stamp = stamp;
    for (path, element) in wanted.iter() {
        let there = tree.get(path);
        put_some(path, fresh(node, stamp, element, there)?, edits)?;
        node += nodes_of(element, there);
        stamp += stamps_of(element, there);
    }
    Ok(())
}

/// The element is to stand at the path, if there is one.
pub(crate) fn put_some(
    path: &Path,
    element: Option<Element>,
    edits: &mut Edits,
) -> Result<(), NoMemory>
    ensures { OnOk result (edits.new ≡ edits.old ++ put (found_at path.now element)) }
{
    match element {
        None => Ok(()),
        Some(element) => edits.put(path.copy()?, element),
    }
}
