//! What is made of the files of some roots.
ghost use Rattle.std.specs.Prelude.{◌≡◌, true, IfOk, OnOk};
ghost use Rattle.res_path.specs.Paths.{is_prefix};
ghost use Rattle.std_kit.specs.Roots.{files_of_root, rooted};
ghost use Rattle.std_copy.specs.Copied.{with_copy, with_root, copied};

use builder_api::View;
use bytes::Bytes;
use res_path::{NoMemory, Path};
use std::alloc::Global;
use std_kit::{Making, files_of_root, relative};

/// The files of all roots that the view has, root by root.
pub(crate) fn made_of(alloc: Global, roots: &[Path], view: &View) -> Result<Making, NoMemory>
    ensures { IfOk result (λ made. made ≡ copied (rooted roots.now view.now)) }
{
    let mut making = Making::nothing(alloc);
    let mut left = roots;
    while let Some((root, later)) = left.split_first() {
        place_root(alloc, &mut making, root, view)?;
        left = later;
    }
    Ok(making)
}

/// Places the files of a root.
fn place_root(alloc: Global, making: &mut Making, root: &Path, view: &View) -> Result<(), NoMemory>
    ensures { OnOk result (making.new ≡ with_root making.old (root.now, files_of_root root.now view.now)) }
{
    for file in files_of_root(view, root) {
        place_file(alloc, making, root, file)?;
    }
    Ok(())
}

/// Places a file of the root; its bytes are shared.
fn place_file(
    alloc: Global,
    making: &mut Making,
    root: &Path,
    file: &(Path, Bytes),
) -> Result<(), NoMemory>
    requires { is_prefix root.now file.now.0 ≡ true }
    ensures { OnOk result (making.new ≡ with_copy root.now making.old file.now) }
{
    let path = relative(alloc, root, &file.0)?;
    let bytes = file.1.clone()?;
    making.place(alloc, &file.0, path, bytes)
}
