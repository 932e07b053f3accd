//! Whether no more than files that stood alone went.
ghost use Rattle.std.specs.Prelude.{◌≡◌, true, IfOk};
ghost use Rattle.delta_kind.specs.Flags.{is_set};
ghost use Rattle.std_kit.specs.Since.{loses, IsCalm};
ghost use Rattle.std_kit.specs.Inside.Walks.{has_none, is_over_node, is_file_of, has_above, stands_alone, is_calm_at, are_calm};

use crate::roots::files_of_root;
use builder_api::{View, is_below};
use bytes::Bytes;
use delta_kind::{Delta, DeltaNode, REMOVED, TYPE};
use res_path::{NoMemory, Path};

/// Whether by the delta nothing changed below the output, and each file that may have gone from the root stood alone: no
/// file of the root lies above or below it, and nothing changed below it. Costs a pass over the nodes, and a search in the
/// view for each path above a file that went.
pub fn is_calm(delta: &Delta, root: &Path, output: &Path, view: &View) -> Result<bool, NoMemory>
    ensures { IfOk result (λ calm. calm ≡ true → IsCalm root.now output.now view.now delta.now) }
{
    are_calm(delta.nodes(), root, output, view)
}

fn are_calm(nodes: &[DeltaNode], root: &Path, output: &Path, view: &View) -> Result<bool, NoMemory>
    ensures { IfOk result (λ calm. calm ≡ are_calm root.now output.now view.now nodes.now) }
{
    let mut left = nodes;
    while let Some((node, later)) = left.split_first() {
        if !is_calm_at(node, later, root, output, view)? {
            return Ok(false);
        }
        left = later;
    }
    Ok(true)
}

fn is_calm_at(
    node: &DeltaNode,
    later: &[DeltaNode],
    root: &Path,
    output: &Path,
    view: &View,
) -> Result<bool, NoMemory>
    ensures { IfOk result (λ calm. calm ≡ is_calm_at root.now output.now view.now node.now later.now) }
{
    if is_below(output, &node.path) {
        return Ok(false);
    }
    if !(root.is_prefix_of(&node.path) && loses(node)) {
        return Ok(true);
    }
    stands_alone(&node.path, later, root, view)
}

/// Whether no file of the root lies above or below the path, and nothing changed below it.
fn stands_alone(
    path: &Path,
    later: &[DeltaNode],
    root: &Path,
    view: &View,
) -> Result<bool, NoMemory>
    ensures { IfOk result (λ alone. alone ≡ stands_alone root.now view.now path.now later.now) }
{
    if !is_below(root, path) || is_over_node(path, later) {
        return Ok(false);
    }
    if !has_none(files_of_root(view, path)) {
        return Ok(false);
    }
    Ok(!has_above(path, root, view)?)
}

/// Whether a file may have gone from the node's path: what was there went, or is of another kind.
fn loses(node: &DeltaNode) -> bool
    ensures { result ≡ loses node.now }
{
    node.kind == REMOVED || is_of_other_kind(node.flags)
}

fn is_of_other_kind(flags: u32) -> bool
    ensures { result ≡ is_set 0x8000 flags }
{
    flags & TYPE != 0
}

/// Whether the first of the nodes lies at or below the path.
fn is_over_node(path: &Path, nodes: &[DeltaNode]) -> bool
    ensures { result ≡ is_over_node path.now nodes.now }
{
    match nodes.first() {
        Some(node) => path.is_prefix_of(&node.path),
        None => false,
    }
}

fn has_none(files: &[(Path, Bytes)]) -> bool
    ensures { result ≡ has_none files.now }
{
    match files.first() {
        Some(_) => false,
        None => true,
    }
}

/// Whether a file of the root lies above the path.
fn has_above(path: &Path, root: &Path, view: &View) -> Result<bool, NoMemory>
    ensures { IfOk result (λ has. has ≡ has_above root.now view.now path.now) }
{
    let Some(parent) = path.parent()? else {
        return Ok(false);
    };
    if is_file_of(&parent, root, view) {
        return Ok(true);
    }
    has_above(&parent, root, view)
}

/// Whether a file lies at the path, at or below the root.
fn is_file_of(path: &Path, root: &Path, view: &View) -> bool
    ensures { result ≡ is_file_of root.now view.now path.now }
{
    match view.find(path) {
        Some(_) => root.is_prefix_of(path),
        None => false,
    }
}
