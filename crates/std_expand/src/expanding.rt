//! What is made of the files of roots.
ghost use Rattle.std.specs.Prelude.{◌≡◌, true, OnOk, IfOk, is_some};
ghost use Rattle.std.specs.List.{list_all, list_any};
ghost use Rattle.res_path.specs.Paths.{is_prefix};
ghost use Rattle.std_kit.specs.Making.{nothing_made};
ghost use Rattle.std_kit.specs.Roots.{rooted};
ghost use Rattle.std_expand.specs.Expand.{with_source, with_sources, with_roots, file_named};
ghost use Rattle.std_expand.specs.Sources.{source_stem};
ghost use Rattle.std_expand.specs.Inside.Lookups.{found};

use crate::kept::Kept;
use crate::named::{Named, named_files};
use crate::outputs::Outputs;
use crate::sources::{source_stem, with_stem};
use builder_api::View;
use bytes::Bytes;
use res_path::{NoMemory, Path};
use std::alloc::Global;
use std_kit::{files_of_root, relative};

/// What is made of the files of all roots, root by root.
pub(crate) fn expand_roots(
    alloc: Global,
    kept: &mut Kept,
    roots: &[Path],
    view: &View,
) -> Result<Outputs, NoMemory>
    ensures { IfOk result (λ made. made ≡ with_roots nothing_made (rooted roots.now view.now)) }
{
    let mut made = Outputs::nothing(alloc);
    for root in roots {
        expand_root(alloc, kept, &mut made, root, files_of_root(view, root))?;
    }
    Ok(made)
}

/// Adds what is made of the files of a root. They are looked up by name only where one counts.
fn expand_root(
    alloc: Global,
    kept: &mut Kept,
    made: &mut Outputs,
    root: &Path,
    files: &[(Path, Bytes)],
) -> Result<(), NoMemory>
    requires { list_all (λ e. is_prefix root.now e.0) files.now ≡ true }
    ensures { OnOk result (made.new ≡ with_sources (file_named root.now files.now) root.now made.old files.now) }
{
    if !has_sources(files) {
        return Ok(());
    }
    let named = named_files(alloc, root, files)?;
    expand_files(alloc, kept, made, root, &named, files)
}

/// Whether one of the files counts.
fn has_sources(files: &[(Path, Bytes)]) -> bool
    ensures { result ≡ list_any (λ e. is_some (source_stem e.0)) files.now }
{
    files.iter().any(|file| is_source(file))
}

/// Whether the file counts.
fn is_source(file: &(Path, Bytes)) -> bool
    ensures { result ≡ is_some (source_stem file.now.0) }
{
    source_stem(&file.0).is_some()
}

/// Adds what is made of these files of a root.
fn expand_files(
    alloc: Global,
    kept: &mut Kept,
    made: &mut Outputs,
    root: &Path,
    named: &Named,
    files: &[(Path, Bytes)],
) -> Result<(), NoMemory>
    requires { list_all (λ e. is_prefix root.now e.0) files.now ≡ true }
    ensures { OnOk result (made.new ≡ with_sources (found named.now.files.entries) root.now made.old files.now) }
{
    for file in files {
        expand_file(alloc, kept, made, root, named, file)?;
    }
    Ok(())
}

/// Adds what is made of a file of the root, where it counts.
fn expand_file(
    alloc: Global,
    kept: &mut Kept,
    made: &mut Outputs,
    root: &Path,
    named: &Named,
    file: &(Path, Bytes),
) -> Result<(), NoMemory>
    requires { is_prefix root.now file.now.0 ≡ true }
    ensures { OnOk result (made.new ≡ with_source (found named.now.files.entries) root.now made.old file.now) }
{
    let (location, bytes) = file;
    let Some(stem) = source_stem(location) else {
        return Ok(());
    };
    let path = with_stem(alloc, &relative(alloc, root, location)?, stem)?;
    let expanded = kept.expand(alloc, named, bytes)?;
    made.place(
        alloc,
        location,
        path,
        expanded.bytes,
        expanded.missing.as_slice(),
    )
}
