//! The bytes of the files of some roots.
ghost use Rattle.std.specs.Prelude.{◌≡◌, ◌≢◌, [], ◌++◌, OnOk, MatchBool};
ghost use Rattle.std_concat.specs.Concat.{files_of_roots, joined};

use builder_api::View;
use bytes::Bytes;
use res_path::{NoMemory, Path};
use std_kit::files_of_root;

/// Whether one of the roots has files.
pub(crate) fn has_files(roots: &[Path], view: &View) -> bool
    ensures { MatchBool result (files_of_roots roots.now view.now ≢ []) (files_of_roots roots.now view.now ≡ []) }
{
    for root in roots {
        if !files_of_root(view, root).is_empty() {
            return true;
        }
    }
    false
}

/// Adds the bytes of the files of all roots, root by root.
pub(crate) fn add_roots(bytes: &mut Vec<u8>, roots: &[Path], view: &View) -> Result<(), NoMemory>
    ensures { OnOk result (bytes.new.items ≡ bytes.old.items ++ joined (files_of_roots roots.now view.now)) }
{
    for root in roots {
        add_files(bytes, files_of_root(view, root))?;
    }
    Ok(())
}

/// Adds the bytes of these files.
fn add_files(bytes: &mut Vec<u8>, files: &[(Path, Bytes)]) -> Result<(), NoMemory>
    ensures { OnOk result (bytes.new.items ≡ bytes.old.items ++ joined files.now) }
{
    for file in files {
        bytes.extend_from_slice(file.1.as_slice())?;
    }
    Ok(())
}
