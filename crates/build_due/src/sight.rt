//! The files that a command sees.
ghost use Rattle.std.specs.Prelude.{◌≡◌, ◌++◌, [], ◌||◌, IfOk, OnOk, MatchOption};
ghost use Rattle.std.specs.FinMap.{entries, get};
ghost use Rattle.std.specs.Option.{option_copied};
ghost use Rattle.res_path.specs.Paths.{is_prefix};
ghost use Rattle.builder_api.specs.Files.{files_of};
ghost use Rattle.builder_api.specs.Places.{is_within};
ghost use Rattle.op_kind.specs.Members.{found_at};
ghost use Rattle.op_plan.specs.Inside.Walks.{entries_after};
ghost use Rattle.build_due.specs.Sights.{is_seen, seen};
ghost use Rattle.build_due.specs.Inside.Walks.{seen_files, roots, is_before, nearer, IsNextRoot, IsNext};

use crate::{NoMemory, Site};
use builder_api::{View, is_below, is_within};
use bytes::Bytes;
use res_path::Path;
use std::alloc::Global;
use ws_elem::{Element, Kind, TreeRep};

impl Site {
    /// The files of the tree at or below the command's inputs, and below its output. Contents are shared. Costs a look-up
    /// for each resource there, which is compared with each input, and two for each input.
    pub fn view<T: TreeRep>(&self, alloc: Global, tree: &T) -> Result<View, NoMemory>
        ensures { IfOk result (λ view. view ≡ seen self.now.inputs self.now.output (files_of (T.tree tree.now))) }
    {
        let files = seen_files(alloc, tree, self.inputs.as_slice(), &self.output)?;
        Ok(View::of(files))
    }
}

/// The files that are seen, in path order.
fn seen_files<T: TreeRep>(
    alloc: Global,
    tree: &T,
    inputs: &[Path],
    output: &Path,
) -> Result<Vec<(Path, Bytes)>, NoMemory>
    ensures { IfOk result (λ files. files.items ≡ seen_files inputs.now output.now (entries (T.tree tree.now))) }
{
    let mut files = Vec::new(alloc);
    let mut last = Path::root();
    add_seen(inputs, output, &last, tree.get(&last), &mut files)?;
    while let Some((at, element)) = next_place(tree, inputs, output, &last) {
        add_seen(inputs, output, at, element, &mut files)?;
        last = at.copy()?;
    }
    Ok(files)
}

/// Adds what is at the path, where it is a file that is seen.
fn add_seen(
    inputs: &[Path],
    output: &Path,
    path: &Path,
    element: Option<&Element>,
    files: &mut Vec<(Path, Bytes)>,
) -> Result<(), NoMemory>
    ensures { OnOk result (files.new.items ≡ files.old.items ++ seen_files inputs.now output.now (found_at path.now (option_copied element.entry))) }
{
    let Some(element) = element else {
        return Ok(());
    };
    if element.kind == Kind::File && is_seen(inputs, output, path) {
        files.push((path.copy()?, element.bytes.clone()?))?;
    }
    Ok(())
}

/// Whether a file at the path is seen.
fn is_seen(inputs: &[Path], output: &Path, path: &Path) -> bool
    ensures { result ≡ is_seen inputs.now output.now path.now }
{
    is_within(inputs, path) || is_below(output, path)
}

/// The next path above `last` at which a file may be seen, with what is there: the next one in the tree, where it is at or
/// below a root, and else the next root.
fn next_place<'a, T: TreeRep>(
    tree: &'a T,
    inputs: &'a [Path],
    output: &'a Path,
    last: &Path,
) -> Option<(&'a Path, Option<&'a Element>)>
    ensures { MatchOption result (seen_files inputs.now output.now (entries_after (T.tree tree.now) last.now) ≡ [])
        (λ x. IsNext inputs.now output.now (T.tree tree.now) last.now (x.0.now, option_copied x.1)) }
{
    let Some((at, element)) = tree.next(last) else {
        return None;
    };
    if is_in_a_root(inputs, output, at) {
        return Some((at, Some(element)));
    }
    let Some(root) = next_root(inputs, output, at) else {
        return None;
    };
    Some((root, tree.get(root)))
}

/// Whether the path is at or below an input or the output.
fn is_in_a_root(inputs: &[Path], output: &Path, path: &Path) -> bool
    ensures { result ≡ is_within (roots inputs.now output.now) path.now }
{
    output.is_prefix_of(path) || is_within(inputs, path)
}

/// The first in path order of the inputs and the output that are above the path.
fn next_root<'a>(inputs: &'a [Path], output: &'a Path, path: &Path) -> Option<&'a Path>
    ensures { IsNextRoot (roots inputs.now output.now) path.now (option_copied result) }
{
    let mut next = nearer(path, None, output);
    for input in inputs {
        next = nearer(path, next, input);
    }
    next
}

/// The root, where it is above the path and before the next one so far; else that one.
fn nearer<'a>(path: &Path, next: Option<&'a Path>, root: &'a Path) -> Option<&'a Path>
    ensures { option_copied result ≡ nearer path.now (option_copied next.entry) root.now }
{
    let is_nearer = path < root && is_before(next, root);
    if is_nearer { Some(root) } else { next }
}

fn is_before(next: Option<&Path>, root: &Path) -> bool
    ensures { result ≡ is_before (option_copied next.entry) root.now }
{
    match next {
        Some(found) => root < found,
        None => true,
    }
}
