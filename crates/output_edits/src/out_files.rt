//! The files below an output, and after edits.
ghost use Rattle.std.specs.Prelude.{◌≡◌, ◌++◌, true, [], ◌∷◌, drop, length, if◌then◌else◌, filter, IfOk, OnOk};
ghost use Rattle.std.specs.FinMap as map;
ghost use Rattle.std.specs.List.{AllByRecursion};
ghost use Rattle.res_path.specs.Paths.{is_prefix};
ghost use Rattle.ws_elem.specs.Kinds.{is_file};
ghost use Rattle.op_kind.specs.Effects.{new_file};
ghost use Rattle.op_kind.specs.Members.{put_all, carried};
ghost use Rattle.output_edits.specs.Outputs.{outputs_among, edit, edited};

use crate::NoMemory;
use bytes::Bytes;
use op_kind::Entries;
use res_path::Path;
use std::alloc::{AllocError, Global};
use ws_elem::{ElemMap, Element, Kind};

/// The files among what lies below the output, by their paths from there.
pub fn outputs(alloc: Global, output: &Path, found: &Entries) -> Result<ElemMap, NoMemory>
    requires { AllByRecursion (λ e. is_prefix output.now e.0 ≡ true) found.now }
    ensures { IfOk result (λ files. files.map ≡ outputs_among output.now found.now) }
{
    let mut files = ElemMap::empty(alloc);
    add_outputs(alloc, output, found.as_slice(), &mut files)?;
    Ok(files)
}

/// Adds the files among these.
#[tactic(auto, using(crate::proofs::Placed::put_kept))]
fn add_outputs(
    alloc: Global,
    output: &Path,
    found: &[(Path, Element)],
    files: &mut ElemMap,
) -> Result<(), NoMemory>
    requires { AllByRecursion (λ e. is_prefix output.now e.0 ≡ true) found.now }
    ensures { OnOk result (files.new.map ≡ put_all files.old.map (carried output.now [] (filter (λ e. is_file e.1.kind) found.now))) }
{
    let mut rest = found;
    while let Some((entry, others)) = rest.split_first() {
        add_output(alloc, output, &entry.0, &entry.1, files)?;
        rest = others;
    }
    Ok(())
}

/// Adds the element, if it is a file.
fn add_output(
    alloc: Global,
    output: &Path,
    path: &Path,
    element: &Element,
    files: &mut ElemMap,
) -> Result<(), NoMemory>
    requires { is_prefix output.now path.now ≡ true }
    ensures { OnOk result (files.new.map ≡ put_all files.old.map (carried output.now [] (if is_file element.now.kind then (path.now, element.now) ∷ [] else []))) }
{
    if element.kind.is_file() {
        files.put(below(alloc, output, path)?, element.copy()?)?;
    }
    Ok(())
}

/// The path from the output.
fn below(alloc: Global, output: &Path, path: &Path) -> Result<Path, NoMemory>
    requires { is_prefix output.now path.now ≡ true }
    ensures { IfOk result (λ rest. rest ≡ drop (length output.now) path.now) }
{
    // The rest of a path is neither too deep nor too long.
    match path.rebase(alloc, output, &Path::root()) {
        Ok(rest) => Ok(rest),
        Err(_) => Err(AllocError),
    }
}

/// The files after these edits, made in their order.
pub fn edited(files: &mut ElemMap, edits: &[(Path, Option<Bytes>)]) -> Result<(), NoMemory>
    ensures { OnOk result (files.new.map ≡ edited files.old.map edits.now) }
{
    let mut rest = edits;
    while let Some((change, others)) = rest.split_first() {
        edit(files, &change.0, &change.1)?;
        rest = others;
    }
    Ok(())
}

/// The files after one edit.
fn edit(files: &mut ElemMap, path: &Path, bytes: &Option<Bytes>) -> Result<(), NoMemory>
    ensures { OnOk result (files.new.map ≡ edit files.old.map (path.now, bytes.now)) }
{
    match bytes {
        None => {
            files.take(path);
            Ok(())
        }
        Some(bytes) => put(files, path, bytes),
    }
}

/// The files after one is put.
fn put(files: &mut ElemMap, path: &Path, bytes: &Bytes) -> Result<(), NoMemory>
    ensures { OnOk result (files.new.map ≡ map.insert files.old.map path.now (new_file 0 0 bytes.now)) }
{
    files.put(path.copy()?, new_file(0, 0, bytes)?)?;
    Ok(())
}

/// A file with these contents, this node and this stamp.
pub fn new_file(node: u64, stamp: u64, bytes: &Bytes) -> Result<Element, NoMemory>
    ensures { IfOk result (λ e. e ≡ new_file node stamp bytes.now) }
{
    let mut element = Element::bare(Kind::File, node);
    element.stamp = stamp;
    element.bytes = bytes.clone()?;
    Ok(element)
}
