//! What may be taken from a delta.
ghost use Rattle.std.specs.Prelude.{◌≡◌, ◌++◌, true, length, drop, IfOk, IfSome};
ghost use Rattle.std.specs.Option.{option_copied, option_eq};
ghost use Rattle.std.specs.Str.{bytes_eq};
ghost use Rattle.res_path.specs.Paths.{is_prefix};
ghost use Rattle.std_kit.specs.Changes.{AreChangesAt};
ghost use Rattle.std_kit.specs.Since.{IsIdle, touches};
ghost use Rattle.std_kit.specs.Inside.Walks.{edits_from, edits_at_nodes};

use crate::roots::below;
use builder_api::{FileEdits, Handed, View, is_below, is_within};
use bytes::Bytes;
use delta_kind::{Delta, DeltaNode};
use res_path::{NoMemory, Path, PathError};
use std::alloc::{AllocError, Global};

/// Whether something changed at or below one of the inputs, or below the output.
fn touches(delta: &Delta, inputs: &[Path], output: &Path) -> bool
    ensures { result ≡ touches inputs.now output.now delta.now }
{
    delta.nodes().iter().any(|node| is_within(inputs, &node.path) || is_below(output, &node.path))
}

/// Whether a delta is handed by which nothing changed at or below the inputs, nor below the output. Costs a pass over the
/// nodes.
pub fn is_idle(handed: &Handed) -> bool
    ensures { result ≡ true → IsIdle handed.now }
{
    match &handed.delta {
        Some(delta) => !touches(delta, handed.inputs.as_slice(), &handed.output),
        None => false,
    }
}

/// The edits by which, at each node below the root, what is at its path from the root becomes below the output what is
/// there at the node. Bytes are shared. Costs two searches in the view for each node, and a comparison of two files.
///
/// There are none where a path below the output would be longer than paths are.
pub fn changes_at(
    alloc: Global,
    root: &Path,
    output: &Path,
    view: &View,
    delta: &Delta,
) -> Result<Option<FileEdits>, NoMemory>
    ensures { IfOk result (λ found. IfSome found (λ edits. AreChangesAt output.now root.now view.now delta.now edits)) }
{
    let mut edits = Vec::new(alloc);
    if !compare_nodes(alloc, &mut edits, root, output, view, delta.nodes())? {
        return Ok(None);
    }
    Ok(Some(FileEdits::of(edits)))
}

/// Edits at these nodes. Whether all paths could be looked up.
fn compare_nodes(
    alloc: Global,
    edits: &mut Vec<(Path, Option<Bytes>)>,
    root: &Path,
    output: &Path,
    view: &View,
    nodes: &[DeltaNode],
) -> Result<bool, NoMemory>
    ensures { IfOk result (λ all. all ≡ true → edits.new.items ≡ edits.old.items ++ edits_at_nodes output.now root.now view.now nodes.now) }
{
    for node in nodes {
        if !compare_node(alloc, edits, root, output, view, &node.path)? {
            return Ok(false);
        }
    }
    Ok(true)
}

/// An edit for the root's file at the path, where one is to be made. Whether its path below the output could be looked up.
fn compare_node(
    alloc: Global,
    edits: &mut Vec<(Path, Option<Bytes>)>,
    root: &Path,
    output: &Path,
    view: &View,
    path: &Path,
) -> Result<bool, NoMemory>
    ensures { IfOk result (λ all. all ≡ true → edits.new.items ≡ edits.old.items ++ edits_from output.now root.now view.now path.now) }
{
    if !is_below(root, path) {
        return Ok(true);
    }
    let Some(there) = moved(alloc, root, output, path)? else {
        return Ok(false);
    };
    if is_same(view.find(&there), view.find(path)) {
        return Ok(true);
    }
    edits.push((below(alloc, root, path)?, copied(view.find(path))?))?;
    Ok(true)
}

/// The path with the output in the place of the root, unless it is longer than paths are.
fn moved(alloc: Global, root: &Path, output: &Path, path: &Path) -> Result<Option<Path>, NoMemory>
    requires { is_prefix root.now path.now ≡ true }
    ensures { IfOk result (λ found. IfSome found (λ there. there ≡ output.now ++ drop (length root.now) path.now)) }
{
    match path.rebase(alloc, root, output) {
        Ok(there) => Ok(Some(there)),
        Err(PathError::Memory) => Err(AllocError),
        Err(_) => Ok(None),
    }
}

/// Whether both are there with these bytes, or neither is.
fn is_same(was: Option<&Bytes>, now: Option<&Bytes>) -> bool
    ensures { result ≡ option_eq bytes_eq (option_copied was.entry) (option_copied now.entry) }
{
    match (was, now) {
        (Some(was), Some(now)) => was == now,
        (None, None) => true,
        _ => false,
    }
}

fn copied(bytes: Option<&Bytes>) -> Result<Option<Bytes>, NoMemory>
    ensures { IfOk result (λ copy. copy ≡ option_copied bytes.entry) }
{
    match bytes {
        Some(bytes) => Ok(Some(bytes.clone()?)),
        None => Ok(None),
    }
}
