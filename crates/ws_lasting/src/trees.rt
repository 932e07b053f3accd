//! Trees without transient markers.
ghost use Rattle.std.specs.Prelude.{◌≡◌, [], IfOk, OnOk};
ghost use Rattle.std.specs.Option.{option_map};
ghost use Rattle.std.specs.FinMap as map;
ghost use Rattle.ws_elem.specs.Rooms.{no_room};
ghost use Rattle.ws_lasting.specs.Lasting.{lasting, lasting_element};
ghost use Rattle.ws_lasting.specs.Inside.{lasting_at, transient_paths, with_some};

use crate::NoMemory;
use crate::elements::{has_transient, lasting_element};
use res_path::Path;
use std::alloc::Global;
use ws_elem::{ElemMap, Element, TreeRep};

/// The tree without its transient markers, with the same room. It costs a look at each element, and what has a transient
/// marker is put anew; all else stays where it is.
pub fn lasting(alloc: Global, tree: ElemMap) -> Result<ElemMap, NoMemory>
    ensures map { IfOk result (λ t. t.map ≡ lasting tree.map) }
    ensures room { IfOk result (λ t. t.room ≡ tree.room) }
{
    let mut tree = tree;
    let paths = transient_paths(alloc, &tree)?;
    for path in paths.as_slice() {
        leave_out(alloc, &mut tree, path)?;
    }
    Ok(tree)
}

/// The paths of the elements that have transient markers, in path order.
fn transient_paths(alloc: Global, tree: &ElemMap) -> Result<Vec<Path>, NoMemory>
    ensures { IfOk result (λ paths. paths.items ≡ transient_paths tree.now.map) }
{
    let mut paths = Vec::new(alloc);
    for (path, element) in tree.iter() {
        if has_transient(element) {
            paths.push(path.copy()?)?;
        }
    }
    Ok(paths)
}

/// Leaves out the transient markers of the element at the path, if there is one.
fn leave_out(alloc: Global, tree: &mut ElemMap, path: &Path) -> Result<(), NoMemory>
    ensures map { OnOk result (tree.new.map ≡ lasting_at tree.old.map path.now) }
    ensures room { tree.new.room ≡ tree.old.room }
{
    let Some(element) = tree.get(path) else {
        return Ok(());
    };
    let element = lasting_element(alloc, element)?;
    tree.put(path.copy()?, element)?;
    Ok(())
}

/// The elements of the tree as it is, without their transient markers, as a value of its own, without room. They share
/// their texts with the tree's. Costs a search and a put for each element.
pub fn lasting_now<T: TreeRep>(alloc: Global, tree: &T) -> Result<ElemMap, NoMemory>
    ensures map { IfOk result (λ found. found.map ≡ lasting (T.tree tree.now)) }
    ensures room { IfOk result (λ found. found.room ≡ no_room) }
{
    let mut at = Path::root();
    let mut found = at_root(alloc, tree)?;
    while let Some((path, element)) = tree.next(&at) {
        add(alloc, &mut found, path, element)?;
        at = path.copy()?;
    }
    Ok(found)
}

/// What the tree has at the root, without transient markers.
fn at_root<T: TreeRep>(alloc: Global, tree: &T) -> Result<ElemMap, NoMemory>
    ensures map { IfOk result (λ found. found.map ≡ with_some map.empty [] (option_map lasting_element (map.get (T.tree tree.now) []))) }
    ensures room { IfOk result (λ found. found.room ≡ no_room) }
{
    let root = Path::root();
    let mut found = ElemMap::empty(alloc);
    if let Some(element) = tree.get(&root) {
        add(alloc, &mut found, &root, element)?;
    }
    Ok(found)
}

/// Adds the element without its transient markers.
fn add(alloc: Global, found: &mut ElemMap, path: &Path, element: &Element) -> Result<(), NoMemory>
    ensures map { OnOk result (found.new.map ≡ map.insert found.old.map path.now (lasting_element element.now)) }
    ensures room { found.new.room ≡ found.old.room }
{
    found.put(path.copy()?, lasting_element(alloc, element)?)?;
    Ok(())
}
