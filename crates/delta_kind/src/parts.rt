//! A node of some nodes in path order, and the nodes below some paths.
ghost use Rattle.std.specs.Prelude.{◌≡◌, [], ◌∷◌, ◌++◌, IfOk, OnOk};
ghost use Rattle.std.specs.List.{list_any};
ghost use Rattle.std.specs.Option.{option_copied};
ghost use Rattle.res_path.specs.Paths.{is_prefix};
ghost use Rattle.delta_kind.specs.Deltas.{node_with, cut, InPathOrder, paths_of};

use crate::DeltaNode;
use res_path::Path;
use std::alloc::Global;
use std::cmp::Ordering;
use ws_elem::NoMemory;

/// The node of the path among nodes in path order, of which each step leaves half.
pub fn node_with<'a>(nodes: &'a [DeltaNode], path: &Path) -> Option<&'a DeltaNode>
    requires { InPathOrder (paths_of nodes.now) }
    ensures { option_copied result ≡ node_with path.now nodes.now }
{
    let (lower, rest) = nodes.split_at(nodes.len() / 2);
    let Some((node, higher)) = rest.split_first() else {
        return None;
    };
    match path.cmp(&node.path) {
        Ordering::Less => node_with(lower, path),
        Ordering::Equal => Some(node),
        Ordering::Greater => node_with(higher, path),
    }
}

/// Copies of the nodes at or below one of these paths, in their order.
pub fn cut(
    alloc: Global,
    nodes: &[DeltaNode],
    prefixes: &[Path],
) -> Result<Vec<DeltaNode>, NoMemory>
    ensures { IfOk result (λ kept. kept.items ≡ cut prefixes.now nodes.now) }
{
    let mut kept = Vec::new(alloc);
    for node in nodes {
        keep(&mut kept, node, prefixes)?;
    }
    Ok(kept)
}

/// Keeps a copy of the node where it is at or below one of these paths.
fn keep(kept: &mut Vec<DeltaNode>, node: &DeltaNode, prefixes: &[Path]) -> Result<(), NoMemory>
    ensures { OnOk result (kept.new.items ≡ kept.old.items ++ cut prefixes.now (node.now ∷ [])) }
{
    if is_under(prefixes, &node.path) {
        kept.push(node.copy()?)?;
    }
    Ok(())
}

/// Whether the path is at or below one of these.
fn is_under(prefixes: &[Path], path: &Path) -> bool
    ensures { result ≡ list_any (λ prefix. is_prefix prefix path.now) prefixes.now }
{
    for prefix in prefixes {
        if prefix.is_prefix_of(path) {
            return true;
        }
    }
    false
}
