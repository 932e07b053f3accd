//! Whether files are clear of each other.
ghost use Rattle.std.specs.Prelude.{◌≡◌, true};
ghost use Rattle.std_kit.specs.Roots.{IsClear};
ghost use Rattle.std_kit.specs.Inside.Walks.{is_over_first, are_apart};

use crate::roots::files_of_root;
use builder_api::View;
use bytes::Bytes;
use res_path::Path;

/// Whether no file lies at the root, and none of the root's files below another. Costs a look at the path of each of
/// them, and no memory.
pub fn is_clear(view: &View, root: &Path) -> bool
    ensures { result ≡ true → IsClear root.now view.now }
{
    match view.find(root) {
        Some(_) => false,
        None => are_apart(files_of_root(view, root)),
    }
}

/// Whether none of the files, in path order, lies below the one before it.
fn are_apart(files: &[(Path, Bytes)]) -> bool
    ensures { result ≡ are_apart files.now }
{
    let mut left = files;
    while let Some((file, later)) = left.split_first() {
        if is_over_first(&file.0, later) {
            return false;
        }
        left = later;
    }
    true
}

/// Whether the first of the files lies at or below the path.
fn is_over_first(path: &Path, files: &[(Path, Bytes)]) -> bool
    ensures { result ≡ is_over_first path.now files.now }
{
    match files.first() {
        Some(file) => path.is_prefix_of(&file.0),
        None => false,
    }
}
