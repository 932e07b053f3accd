//! The open projects of a tree.
ghost use Rattle.std.specs.Prelude.{◌≡◌, ◌++◌, Some, IfOk, OnOk};
ghost use Rattle.std.specs.FinMap.{get};
ghost use Rattle.ws_elem.specs.Trees.{Tree};
ghost use Rattle.build_plan.specs.Plans.{project_of, projects_of};
ghost use Rattle.build_plan.specs.Inside.Walks.{HasCommands, IsPast, only_name};

use crate::NoMemory;
use crate::described::described_by;
use crate::found::Found;
use res_path::{Name, Path};
use std::alloc::{AllocError, Global};
use ws_elem::{Element, TreeRep};

/// The open projects in the order of their names, with what they describe. Each description is read once. Below a project
/// only those members are looked at whose names begin with U+10FFFF, and what is below them.
pub fn open_projects<T: TreeRep>(alloc: Global, tree: &T) -> Result<Found, NoMemory>
    ensures projects { IfOk result (λ found. found.projects ≡ projects_of (T.tree tree.now)) }
    ensures commands { IfOk result (λ found. HasCommands (T.tree tree.now) (projects_of (T.tree tree.now)) found.commands) }
{
    let last = name_of(alloc, "\u{10FFFF}")?;
    let mut found = Found::nothing(alloc);
    let mut at = Path::root();
    while let Some((path, element)) = tree.next(&at) {
        add_open(alloc, &mut found, path, element)?;
        at = past(alloc, path, &last)?;
    }
    Ok(found)
}

/// Adds the project that the element at the path is, if it is an open one.
fn add_open(
    alloc: Global,
    found: &mut Found,
    path: &Path,
    element: &Element,
) -> Result<(), NoMemory>
    ensures projects { OnOk result (found.new.projects ≡ found.old.projects ++ project_of path.now element.now) }
    ensures commands { OnOk result ((t : Tree) → get t path.now ≡ Some element.now
        → HasCommands t found.old.projects found.old.commands
        → HasCommands t found.new.projects found.new.commands) }
{
    let Some(name) = only_name(alloc, path)? else {
        return Ok(());
    };
    match described_by(alloc, &name, element)? {
        None => Ok(()),
        Some(desc) => found.add(name, desc),
    }
}

/// The name, where the path is of one.
fn only_name(alloc: Global, path: &Path) -> Result<Option<Name>, NoMemory>
    ensures { IfOk result (λ name. name ≡ only_name path.now) }
{
    if path.depth() != 1 {
        return Ok(None);
    }
    match path.last() {
        None => Ok(None),
        Some(text) => Ok(Some(name_of(alloc, text)?)),
    }
}

fn name_of(alloc: Global, text: &str) -> Result<Name, NoMemory>
    ensures { IfOk result (λ name. name ≡ text.now) }
{
    match Name::parse(alloc, text) {
        Ok(name) => Ok(name),
        Err(_) => Err(AllocError),
    }
}

/// The path, and below a project the path of a member that would come after all others.
fn past(alloc: Global, path: &Path, last: &Name) -> Result<Path, NoMemory>
    ensures { IfOk result (IsPast path.now) }
{
    if path.depth() != 1 {
        return path.copy();
    }
    match path.join(alloc, last) {
        Ok(below) => Ok(below),
        Err(_) => Err(AllocError),
    }
}
