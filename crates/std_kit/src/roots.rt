//! The files of an input root.
ghost use Rattle.std.specs.Prelude.{◌≡◌, T, true, not, filter, length, drop, IfOk};
ghost use Rattle.std.specs.FinMap.{is_sorted};
ghost use Rattle.std.specs.List.{list_all};
ghost use Rattle.std.specs.Ordering.{is_lt};
ghost use Rattle.res_path.specs.Paths.{path_cmp, is_prefix};
ghost use Rattle.std_kit.specs.Roots.{files_of_root, relative};

use builder_api::View;
use bytes::Bytes;
use res_path::{NoMemory, Path};
use std::alloc::{AllocError, Global};

/// The files at or below the root, in path order, with their paths in the workspace. They are one run of the view:
/// costs two searches in it.
pub fn files_of_root<'a>(view: &'a View, root: &Path) -> &'a [(Path, Bytes)]
    ensures { result.now ≡ files_of_root root.now view.now }
{
    files_under(files_from(view.as_slice(), root), root)
}

/// The files from the root on.
fn files_from<'a>(files: &'a [(Path, Bytes)], root: &Path) -> &'a [(Path, Bytes)]
    requires { T (is_sorted path_cmp files.now) }
    ensures { result.now ≡ filter (λ e. not (is_lt (path_cmp e.0 root.now))) files.now }
{
    let before = files.partition_point(|file| file.0 < *root);
    files.split_at(before).1
}

/// Those of the files from the root on that are at or below it.
fn files_under<'a>(files: &'a [(Path, Bytes)], root: &Path) -> &'a [(Path, Bytes)]
    requires sorted { T (is_sorted path_cmp files.now) }
    requires from { list_all (λ e. not (is_lt (path_cmp e.0 root.now))) files.now ≡ true }
    ensures { result.now ≡ filter (λ e. is_prefix root.now e.0) files.now }
{
    let under = files.partition_point(|file| root.is_prefix_of(&file.0));
    files.split_at(under).0
}

/// The path of a root's file from there; its last name, where the file is the root itself.
pub fn relative(alloc: Global, root: &Path, path: &Path) -> Result<Path, NoMemory>
    requires { is_prefix root.now path.now ≡ true }
    ensures { IfOk result (λ from. from ≡ relative root.now path.now) }
{
    if *root != *path {
        return below(alloc, root, path);
    }
    match path.parent()? {
        Some(parent) => below(alloc, &parent, path),
        None => Ok(Path::root()),
    }
}

/// The path from one above it, or from itself.
pub(crate) fn below(alloc: Global, from: &Path, path: &Path) -> Result<Path, NoMemory>
    requires { is_prefix from.now path.now ≡ true }
    ensures { IfOk result (λ rest. rest ≡ drop (length from.now) path.now) }
{
    // The rest of a path is neither too deep nor too long.
    match path.rebase(alloc, from, &Path::root()) {
        Ok(rest) => Ok(rest),
        Err(_) => Err(AllocError),
    }
}
