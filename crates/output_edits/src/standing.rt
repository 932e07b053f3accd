//! What is to stand where files are to lie below an output.
ghost use Rattle.std.specs.Prelude.{◌≡◌, ◌++◌, ◌-◌, map, length, IfOk, OnOk};
ghost use Rattle.std.specs.FinMap.{entries};
ghost use Rattle.std.specs.List.{flat_map};
ghost use Rattle.res_path.specs.Paths.{parent};
ghost use Rattle.op_kind.specs.Effects.{new_folder};
ghost use Rattle.op_kind.specs.Members.{put_all};
ghost use Rattle.output_edits.specs.Wanted.{above, standing, wanted};

use crate::NoMemory;
use res_path::Path;
use std::alloc::{AllocError, Global};
use ws_elem::{ElemMap, Element, Kind};

/// All of what is to stand, where these files are to lie below the output: they, and folders above them. No path may be
/// past the limits. Costs a few comparisons of paths for each file, and for each folder above it.
pub fn wanted(alloc: Global, output: &Path, files: &ElemMap) -> Result<ElemMap, NoMemory>
    ensures { IfOk result (λ w. w.map ≡ wanted output.now files.now.map) }
{
    let mut all = ElemMap::empty(alloc);
    add_all(alloc, output, files, &mut all)?;
    Ok(all)
}

/// Adds what is to stand for each file.
#[tactic(auto, using(crate::proofs::Placed::put_all_append))]
fn add_all(alloc: Global, output: &Path, files: &ElemMap, all: &mut ElemMap) -> Result<(), NoMemory>
    ensures { OnOk result (all.new.map ≡ put_all all.old.map (flat_map (λ e. standing (output.now ++ e.0) e.1) (entries files.now.map))) }
{
    for (path, file) in files.iter() {
        let place = joined(alloc, output, path)?;
        add_standing(place, file.copy()?, all)?;
    }
    Ok(())
}

/// Adds the element at the path, and a folder at each path above it but for the root's and the project's.
fn add_standing(path: Path, element: Element, all: &mut ElemMap) -> Result<(), NoMemory>
    ensures { OnOk result (all.new.map ≡ put_all all.old.map (standing path element)) }
{
    let place = path.copy()?;
    all.put(place, element)?;
    add_folders(&path, all)
}

/// Adds a folder at each path above this one but for the root's and the project's.
#[tactic(auto, using(crate::proofs::Placed::above_next, crate::proofs::Placed::above_none, crate::proofs::Placed::parent_shorter))]
fn add_folders(path: &Path, all: &mut ElemMap) -> Result<(), NoMemory>
    ensures { OnOk result (all.new.map ≡ put_all all.old.map (map (λ q. (q, new_folder 0)) (above (length path.now - 2) path.now))) }
{
    if path.depth() <= 2 {
        return Ok(());
    }
    let folder = parent_of(path)?;
    let place = folder.copy()?;
    all.put(place, Element::bare(Kind::Folder, 0))?;
    add_folders(&folder, all)
}

/// The path without its last name, and the root for the root.
fn parent_of(path: &Path) -> Result<Path, NoMemory>
    ensures { IfOk result (λ p. p ≡ parent path.now) }
{
    match path.parent()? {
        None => Ok(Path::root()),
        Some(parent) => Ok(parent),
    }
}

/// The path below the output. It may be past no limit.
fn joined(alloc: Global, output: &Path, path: &Path) -> Result<Path, NoMemory>
    ensures { IfOk result (λ p. p ≡ output.now ++ path.now) }
{
    match path.rebase(alloc, &Path::root(), output) {
        Ok(place) => Ok(place),
        Err(_) => Err(AllocError),
    }
}
