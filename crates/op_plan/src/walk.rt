//! A resource with all below it.
ghost use Rattle.std.specs.Prelude.{◌≡◌, ◌++◌, [], ◌∷◌, true, filter, if◌then◌else◌, IfOk, OnOk, MatchOption};
ghost use Rattle.std.specs.FinMap.{get};
ghost use Rattle.std.specs.Map.Iter.{deref_pair};
ghost use Rattle.std.specs.Option.{option_map};
ghost use Rattle.res_path.specs.Paths.{is_prefix};
ghost use Rattle.ws_elem.specs.Depths.{is_within};
ghost use Rattle.op_kind.specs.Marking.{reached};
ghost use Rattle.ws_elem.specs.Trees.{branch};
ghost use Rattle.op_kind.specs.Members.{found_at, members};
ghost use Rattle.op_plan.specs.Inside.Walks.{members_after, IsFirst};

use crate::{Entries, NoMemory};
use res_path::{Name, Path};
use std::alloc::Global;
use ws_elem::{Depth, Element, TreeRep};

/// What is below the path, in path order. Costs one look-up for each element that it gives.
pub fn members<T: TreeRep>(alloc: Global, tree: &T, path: &Path) -> Result<Entries, NoMemory>
    ensures { IfOk result (λ found. found ≡ members (T.tree tree.now) path.now) }
{
    let mut found = Entries::empty(alloc);
    add_members(tree, path, &mut found)?;
    Ok(found)
}

/// What is at or below the path, in path order. Costs one look-up for each element that it gives.
pub fn branch<T: TreeRep>(alloc: Global, tree: &T, path: &Path) -> Result<Entries, NoMemory>
    ensures { IfOk result (λ found. found ≡ branch (T.tree tree.now) path.now) }
{
    let mut found = Entries::empty(alloc);
    add_at(tree, path, &mut found)?;
    add_members(tree, path, &mut found)?;
    Ok(found)
}

/// What is at the path, with its path.
pub fn at<T: TreeRep>(alloc: Global, tree: &T, path: &Path) -> Result<Entries, NoMemory>
    ensures { IfOk result (λ found. found ≡ found_at path.now (get (T.tree tree.now) path.now)) }
{
    let mut found = Entries::empty(alloc);
    add_at(tree, path, &mut found)?;
    Ok(found)
}

/// What is at the path and below it, no deeper than the depth says, in path order. Costs one look-up for each element
/// that it gives: what lies deeper is passed by.
#[tactic(auto, using(crate::proofs::Skipped::found_alone))]
pub fn reached<T: TreeRep>(
    alloc: Global,
    tree: &T,
    path: &Path,
    depth: Depth,
) -> Result<Entries, NoMemory>
    ensures { IfOk result (λ found. found ≡ reached (T.tree tree.now) path.now depth) }
{
    match depth {
        Depth::Zero => {
            let found = at(alloc, tree, path)?;
            Ok(found)
        }
        Depth::One | Depth::Infinite => reached_below(alloc, tree, path, depth),
    }
}

/// The same, of what is below the path too.
fn reached_below<T: TreeRep>(
    alloc: Global,
    tree: &T,
    path: &Path,
    depth: Depth,
) -> Result<Entries, NoMemory>
    ensures { IfOk result (λ found. found ≡ reached (T.tree tree.now) path.now depth) }
{
    let mut found = Entries::empty(alloc);
    add_at(tree, path, &mut found)?;
    add_within(alloc, tree, path, depth, &mut found)?;
    Ok(found)
}

/// Adds what is below the path, no deeper than the depth says, in path order.
fn add_within<T: TreeRep>(
    alloc: Global,
    tree: &T,
    path: &Path,
    depth: Depth,
    found: &mut Entries,
) -> Result<(), NoMemory>
    ensures { OnOk result (found.new ≡ found.old ++ filter (λ e. is_within depth path.now e.0) (members (T.tree tree.now) path.now)) }
{
    let mut last = path.copy()?;
    while let Some((at, element)) = next_member(tree, path, &last) {
        add_where(is_within(depth, path, at), at, element, found)?;
        last = beyond(alloc, depth, at)?;
    }
    Ok(())
}

/// From where a walk goes on after this path: where what is below it is too deep, from one of the last that may stand
/// below it.
#[tactic(auto, using(crate::proofs::Skipped::begins_itself))]
fn beyond(alloc: Global, depth: Depth, path: &Path) -> Result<Path, NoMemory>
    ensures under { IfOk result (λ q. is_prefix path.now q ≡ true) }
    ensures all { depth ≡ Depth.Infinite → IfOk result (λ q. q ≡ path.now) }
{
    match depth {
        Depth::Infinite => path.copy(),
        Depth::Zero | Depth::One => last_below(alloc, path),
    }
}

/// The path with the greatest name of one character below it; the path itself where it is too deep or too long for one.
#[tactic(auto, using(crate::proofs::Skipped::begins_itself, crate::proofs::Skipped::begins_joined))]
fn last_below(alloc: Global, path: &Path) -> Result<Path, NoMemory>
    ensures { IfOk result (λ q. is_prefix path.now q ≡ true) }
{
    let Ok(name) = Name::parse(alloc, "\u{10ffff}") else {
        return path.copy();
    };
    match path.join(alloc, &name) {
        Ok(below) => Ok(below),
        Err(_) => path.copy(),
    }
}

/// Adds the element where this is so.
fn add_where(
    is_so: bool,
    path: &Path,
    element: &Element,
    found: &mut Entries,
) -> Result<(), NoMemory>
    ensures { OnOk result (found.new ≡ found.old ++ (if is_so then (path.now, element.now) ∷ [] else [])) }
{
    if is_so {
        found.push(path.copy()?, element.copy()?)
    } else {
        Ok(())
    }
}

/// Whether the path is the top one, or lies below it and no deeper than the depth says.
fn is_within(depth: Depth, top: &Path, path: &Path) -> bool
    ensures { result ≡ is_within depth top.now path.now }
{
    if !top.is_prefix_of(path) {
        return false;
    }
    match depth {
        Depth::Zero => path.depth() <= top.depth(),
        Depth::One => path.depth() <= top.depth() + 1,
        Depth::Infinite => true,
    }
}

/// Adds what is at the path.
fn add_at<T: TreeRep>(tree: &T, path: &Path, found: &mut Entries) -> Result<(), NoMemory>
    ensures { OnOk result (found.new ≡ found.old ++ found_at path.now (get (T.tree tree.now) path.now)) }
{
    match tree.get(path) {
        None => Ok(()),
        Some(element) => found.push(path.copy()?, element.copy()?),
    }
}

/// Adds what is below the path, in path order.
fn add_members<T: TreeRep>(tree: &T, path: &Path, found: &mut Entries) -> Result<(), NoMemory>
    ensures { OnOk result (found.new ≡ found.old ++ members (T.tree tree.now) path.now) }
{
    let mut last = path.copy()?;
    while let Some((at, element)) = next_member(tree, path, &last) {
        found.push(at.copy()?, element.copy()?)?;
        last = at.copy()?;
    }
    Ok(())
}

/// The first of what is below `top` and above `last`, which is at or below `top` itself.
fn next_member<'a, T: TreeRep>(
    tree: &'a T,
    top: &Path,
    last: &Path,
) -> Option<(&'a Path, &'a Element)>
    requires { is_prefix top.now last.now ≡ true }
    ensures { MatchOption (option_map deref_pair result) (members_after (T.tree tree.now) top.now last.now ≡ [])
        (IsFirst (T.tree tree.now) top.now last.now) }
{
    let Some((at, element)) = tree.next(last) else {
        return None;
    };
    if top.is_prefix_of(at) {
        return Some((at, element));
    }
    None
}
