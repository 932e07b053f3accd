//! The edits that make files of others.
ghost use Rattle.std.specs.Prelude.{◌≡◌, ◌++◌, Some, IfOk, OnOk};
ghost use Rattle.std.specs.FinMap.{get, entries};
ghost use Rattle.std_kit.specs.Changes.{AreChanges, change_of};
ghost use Rattle.std_kit.specs.Inside.Walks.{edits_at, left_after, edits_along, puts};

use crate::MadeFiles;
use crate::file_map::FileMap;
use crate::roots::{below, files_of_root};
use builder_api::{FileEdits, View, is_below};
use bytes::Bytes;
use res_path::{NoMemory, Path};
use std::alloc::Global;

/// The edits by which the files below the output become those that were made: a removal of each other file that the
/// view has there, and a put of each made one that it hasn't there with these bytes. Files that are there are left
/// alone. Bytes are shared. Costs a search among the made files for each file that the view has below the output.
pub fn changes_to(
    alloc: Global,
    output: &Path,
    view: &View,
    made: MadeFiles,
) -> Result<FileEdits, NoMemory>
    ensures { IfOk result (λ edits. AreChanges output.now view.now made edits) }
{
    let mut edits = Vec::new(alloc);
    let mut left = made.into_map();
    compare_all(
        alloc,
        &mut edits,
        &mut left,
        output,
        files_of_root(view, output),
    )?;
    put_all(&mut edits, left)?;
    Ok(FileEdits::of(edits))
}

/// Edits for the files that are there, each of which is taken out of those that are left to be put.
fn compare_all(
    alloc: Global,
    edits: &mut Vec<(Path, Option<Bytes>)>,
    left: &mut FileMap,
    output: &Path,
    files: &[(Path, Bytes)],
) -> Result<(), NoMemory>
    ensures { OnOk result (edits.new.items ++ puts left.new ≡ edits.old.items ++ edits_along output.now files.now left.old) }
{
    for file in files {
        compare(alloc, edits, left, output, file)?;
    }
    Ok(())
}

/// An edit for the file, where it is below the output and isn't as it was made.
fn compare(
    alloc: Global,
    edits: &mut Vec<(Path, Option<Bytes>)>,
    left: &mut FileMap,
    output: &Path,
    file: &(Path, Bytes),
) -> Result<(), NoMemory>
    ensures edits { OnOk result (edits.new.items ≡ edits.old.items ++ edits_at output.now file.now left.old) }
    ensures left { OnOk result (left.new ≡ left_after output.now file.now left.old) }
{
    if !is_below(output, &file.0) {
        return Ok(());
    }
    let path = below(alloc, output, &file.0)?;
    match change_of(&file.1, left.take(&path)) {
        Some(change) => {
            edits.push((path, change))?;
            Ok(())
        }
        None => Ok(()),
    }
}

/// What is to be done where these bytes are there and that file, or none, was made.
fn change_of(bytes: &Bytes, made: Option<Bytes>) -> Option<Option<Bytes>>
    ensures { result ≡ change_of (Some bytes.now) made }
{
    match made {
        Some(made) => {
            if made == *bytes {
                None
            } else {
                Some(Some(made))
            }
        }
        None => Some(None),
    }
}

/// Puts of all that are left.
fn put_all(edits: &mut Vec<(Path, Option<Bytes>)>, left: FileMap) -> Result<(), NoMemory>
    ensures { OnOk result (edits.new.items ≡ edits.old.items ++ puts left) }
{
    let mut left = left;
    while let Some((path, bytes)) = left.take_first() {
        edits.push((path, Some(bytes)))?;
    }
    Ok(())
}
