//! The paths for which edits are refused.
ghost use Rattle.std.specs.Prelude.{◌≡◌, ◌++◌, false, filter, IfOk, OnOk};
ghost use Rattle.std.specs.FinMap as map;
ghost use Rattle.std.specs.List.{list_any};
ghost use Rattle.std.specs.Option.{option_map};
ghost use Rattle.op_kind.specs.Effects.{new_folder};
ghost use Rattle.op_kind.specs.Members.{is_below};
ghost use Rattle.op_kind.specs.Places.{is_root_path};
ghost use Rattle.builder_api.specs.Edits.{edit_paths};
ghost use Rattle.proj_desc.specs.FirstCause.{first_cause};
ghost use Rattle.output_edits.specs.Bad.{least_of, repeated, above_another, bad_path, edit_causes};
ghost use Rattle.output_edits.specs.Judging.{Judges};

use crate::least::keep_if;
use crate::limits::check_limits;
use crate::{EditError, EditRefusal, NoMemory};
use bytes::Bytes;
use res_path::Path;
use std::alloc::Global;
use ws_elem::{ElemMap, Element, Kind};

/// Refused where edits below the output can't be made, whatever room and numbers there are: with the least path that
/// is the root, that comes twice, or that is of a file above another in the files after the edits; then where a file
/// would be put at a path that is too deep, and then at one that is too long.
pub fn check_edits(
    alloc: Global,
    output: &Path,
    edits: &[(Path, Option<Bytes>)],
    files: &ElemMap,
) -> Result<(), EditError>
    ensures { Judges (first_cause (edit_causes output.now edits.now files.now.map)) result }
{
    check_paths(alloc, edits, files)?;
    Ok(check_limits(output, edits)?)
}

/// Refused with the least bad path.
fn check_paths(
    alloc: Global,
    edits: &[(Path, Option<Bytes>)],
    files: &ElemMap,
) -> Result<(), EditError>
    ensures { Judges (option_map EditRefusal.BadEdits (bad_path edits.now files.now.map)) result }
{
    match bad_path(alloc, edits, files)? {
        None => Ok(()),
        Some(path) => Err(EditError::Refused(EditRefusal::BadEdits(path))),
    }
}

/// The least bad path.
fn bad_path(
    alloc: Global,
    edits: &[(Path, Option<Bytes>)],
    files: &ElemMap,
) -> Result<Option<Path>, NoMemory>
    ensures { IfOk result (λ path. path ≡ bad_path edits.now files.now.map) }
{
    let mut found = None;
    find(alloc, edits, files, &mut found)?;
    Ok(found)
}

/// The least of the bad paths and of what was found before.
#[tactic(auto, using(crate::proofs::Lesser::least_append, crate::proofs::Lesser::none_seen))]
fn find(
    alloc: Global,
    edits: &[(Path, Option<Bytes>)],
    files: &ElemMap,
    found: &mut Option<Path>,
) -> Result<(), NoMemory>
    ensures { OnOk result (found.new ≡ least_of found.old (filter is_root_path (edit_paths edits.now)
        ++ repeated (λ _. false) (edit_paths edits.now) ++ above_another files.now.map)) }
{
    find_root(edits, found)?;
    let mut seen = ElemMap::empty(alloc);
    find_repeated(edits, &mut seen, found)?;
    find_above(files, found)
}

/// The least of the roots among the edits and of what was found before.
#[tactic(auto, using(crate::proofs::Lesser::least_kept))]
fn find_root(edits: &[(Path, Option<Bytes>)], found: &mut Option<Path>) -> Result<(), NoMemory>
    ensures { OnOk result (found.new ≡ least_of found.old (filter is_root_path (edit_paths edits.now))) }
{
    let mut rest = edits;
    while let Some((change, others)) = rest.split_first() {
        keep_if(change.0.depth() == 0, found, &change.0)?;
        rest = others;
    }
    Ok(())
}

/// The least of the edits' paths that were seen or come again, and of what was found before.
#[tactic(auto, using(crate::proofs::Lesser::least_seen))]
fn find_repeated(
    edits: &[(Path, Option<Bytes>)],
    seen: &mut ElemMap,
    found: &mut Option<Path>,
) -> Result<(), NoMemory>
    ensures { OnOk result (found.new ≡ least_of found.old (repeated (map.contains_key seen.old.map) (edit_paths edits.now))) }
{
    let mut rest = edits;
    while let Some((change, others)) = rest.split_first() {
        let comes_again = see(seen, &change.0)?;
        keep_if(comes_again, found, &change.0)?;
        rest = others;
    }
    Ok(())
}

/// Whether the path was seen; it is from now on.
fn see(seen: &mut ElemMap, path: &Path) -> Result<bool, NoMemory>
    ensures was { IfOk result (λ was. was ≡ map.contains_key seen.old.map path.now) }
    ensures is { OnOk result (seen.new.map ≡ map.insert seen.old.map path.now (new_folder 0)) }
{
    let before = seen.put(path.copy()?, Element::bare(Kind::Folder, 0))?;
    Ok(before.is_some())
}

/// The least of the files' paths that lie above another, and of what was found before.
#[tactic(auto, using(crate::proofs::Lesser::least_kept))]
fn find_above(files: &ElemMap, found: &mut Option<Path>) -> Result<(), NoMemory>
    ensures { OnOk result (found.new ≡ least_of found.old (above_another files.now.map)) }
{
    for (path, _file) in files.iter() {
        keep_if(is_above_another(files, path), found, path)?;
    }
    Ok(())
}

/// Whether something lies below the path. If so, then what comes next.
fn is_above_another(files: &ElemMap, path: &Path) -> bool
    ensures { result ≡ list_any (is_below path.now) (map.keys files.now.map) }
{
    match files.next(path) {
        None => false,
        Some((next, _file)) => path.is_prefix_of(next),
    }
}
