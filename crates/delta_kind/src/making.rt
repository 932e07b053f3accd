//! The delta of two trees.
ghost use Rattle.std.specs.Prelude.{◌≡◌, ◌↔◌, false, if◌then◌else◌, Option, Some, None, [], ◌++◌, map, IfOk, OnOk};
ghost use Rattle.std.specs.FinMap.{get, find};
ghost use Rattle.std.specs.Option.{option_copied};
ghost use Rattle.res_path.specs.Paths.{Names, path_cmp, path_eq, is_prefix, parent};
ghost use Rattle.std.specs.List.{list_any};
ghost use Rattle.ws_elem.specs.Stamps.{SameContents};
ghost use Rattle.ws_elem.specs.Trees.{Whole};
ghost use Rattle.delta_kind.specs.Flags.{differs};
ghost use Rattle.delta_kind.specs.Deltas.{delta, changed, InPathOrder, paths_of, TellsMoves, TellsPaths, TellsContents};
ghost use Rattle.delta_kind.specs.Rows.{shown, row_paths, node_by, delta_of_rows};
ghost use Rattle.delta_kind.specs.Inside.Passes.{nodes_from, is_above, new_above, untouched};

use crate::places::Moves;
use crate::plain::unmoved_nodes;
use crate::walk::Walk;
use crate::{CHANGED, Delta, DeltaNode, Place, Row, Turn, flags};
use mark_set::MarkerDeltas;
use res_path::Path;
use std::alloc::Global;
use ws_elem::{ElemMap, NoMemory};

/// The delta from one tree to another. Costs one walk of both trees and then one pass over the paths that differ, in
/// which each node that came or went is looked up among those that went; no element and no tree is copied, and the
/// delta's paths share their texts with the trees'.
pub fn compare(alloc: Global, before: &ElemMap, after: &ElemMap) -> Result<Delta, NoMemory>
    ensures delta { IfOk result (λ d. d ≡ delta before.now.map after.now.map) }
    // A path has a node exactly where it, or a path below it, came, went or has a flag.
    ensures paths { IfOk result (λ d. (p : Names) → list_any (path_eq p) (paths_of d)
        ≡ list_any (is_prefix p) (changed before.now.map after.now.map)) }
    ensures none { IfOk result (λ d. (d ≡ []) ↔ ((p : Names) → differs (get before.now.map p) (get after.now.map p) ≡ false)) }
    ensures same { IfOk result (λ d. before.now.map ≡ after.now.map → d ≡ []) }
    // A node has each flag exactly where what the flag stands for holds.
    ensures tells { IfOk result (λ d. TellsPaths before.now.map after.now.map d) }
    // Where equal stamps mean equal contents, a path without a node holds the same file bytes, or no file, in both.
    ensures contents { IfOk result (λ d. SameContents before.now.map after.now.map → TellsContents before.now.map after.now.map d) }
    // In whole trees a node tells just where what is at its path was, and where what was there is.
    ensures moves { IfOk result (λ d. Whole before.now.map → Whole after.now.map → TellsMoves before.now.map after.now.map d) }
{
    delta_between(alloc, before, after)
}

/// The delta from one tree to another. Where nothing can have moved it is told in one walk, without rows.
fn delta_between(alloc: Global, before: &ElemMap, after: &ElemMap) -> Result<Delta, NoMemory>
    ensures { IfOk result (λ d. d ≡ delta before.now.map after.now.map) }
{
    match unmoved_nodes(alloc, before, after)? {
        Some(nodes) => Ok(Delta::of(nodes)),
        None => moved_delta(alloc, before, after),
    }
}

/// The delta from one tree to another, between which nodes may have moved.
fn moved_delta(alloc: Global, before: &ElemMap, after: &ElemMap) -> Result<Delta, NoMemory>
    ensures { IfOk result (λ d. d ≡ delta before.now.map after.now.map) }
{
    let rows = changed_rows(alloc, before, after)?;
    delta_of_rows(alloc, rows.as_slice())
}

/// The rows of the paths that differ in two trees, in path order.
fn changed_rows<'a>(
    alloc: Global,
    before: &'a ElemMap,
    after: &'a ElemMap,
) -> Result<Vec<Row<'a>>, NoMemory>
    ensures order { IfOk result (λ rows. InPathOrder (row_paths (map shown rows.items))) }
    ensures rows { IfOk result (λ rows. (p : Names) → find path_cmp p (map shown rows.items)
        ≡ (if differs (get before.now.map p) (get after.now.map p) then Some (get before.now.map p, get after.now.map p) else None)) }
{
    let mut rows = Vec::new(alloc);
    for row in Walk::of(before, after) {
        if row.differs() {
            rows.push(row)?;
        }
    }
    Ok(rows)
}

/// The delta of some paths with their entries before and after, in path order: a node for each of them and for each
/// path above one. Costs one pass: what is above a path and above none before it is told just before it.
pub fn delta_of_rows(alloc: Global, rows: &[Row<'_>]) -> Result<Delta, NoMemory>
    requires { InPathOrder (row_paths (map shown rows.now)) }
    ensures { IfOk result (λ d. d ≡ delta_of_rows (map shown rows.now)) }
{
    let moves = Moves::of_rows(alloc, rows)?;
    let nodes = nodes_of(alloc, rows, &moves)?;
    Ok(Delta::of(nodes))
}

/// The nodes of some rows, and just before each those of what is above it and above none before it.
fn nodes_of(alloc: Global, rows: &[Row<'_>], moves: &Moves) -> Result<Vec<DeltaNode>, NoMemory>
    ensures { IfOk result (λ nodes. nodes.items ≡ nodes_from (node_by (get moves.now.losers) (get moves.now.gainers)) None (map shown rows.now)) }
{
    let above = rows.len() / 8;
    let mut nodes = Vec::with_capacity(alloc, rows.len().saturating_add(above))?;
    let mut last = None;
    for row in rows {
        tell_above(alloc, &mut nodes, row.path, last)?;
        nodes.push(node_of(alloc, row, moves)?)?;
        last = Some(row.path);
    }
    Ok(nodes)
}

/// What became of the row's path.
fn node_of(alloc: Global, row: &Row<'_>, moves: &Moves) -> Result<DeltaNode, NoMemory>
    ensures { IfOk result (λ node. node ≡ node_by (get moves.now.losers) (get moves.now.gainers) (shown row.now).0 (shown row.now).1) }
{
    let path = row.path.copy()?;
    let moved_from = moves.losers.place_of(alloc, row.turned(Turn::Gained))?;
    let moved_to = moves.gainers.place_of(alloc, row.turned(Turn::Lost))?;
    let flags = flags::flags_of(row.before, row.after)
        + flags::moved_flags(moved_from.path(), moved_to.path());
    Ok(DeltaNode {
        path,
        kind: flags::kind_of(row.before, row.after),
        flags,
        moved_from,
        moved_to,
        markers: flags::markers_of(alloc, row.before, row.after)?,
    })
}

/// Tells what is above the path and not above the last one, the highest first.
pub(crate) fn tell_above(
    alloc: Global,
    nodes: &mut Vec<DeltaNode>,
    path: &Path,
    last: Option<&Path>,
) -> Result<(), NoMemory>
    ensures { OnOk result (nodes.new.items ≡ nodes.old.items ++ map untouched (new_above (option_copied last.entry) path.now)) }
{
    if is_below_parent(path, last) {
        return Ok(());
    }
    let Some(parent) = path.parent()? else {
        return Ok(());
    };
    tell_above(alloc, nodes, &parent, last)?;
    nodes.push(untouched(alloc, parent))?;
    Ok(())
}

/// The node of a path that only something below it changed.
fn untouched(alloc: Global, path: Path) -> DeltaNode
    ensures { result ≡ untouched path }
{
    DeltaNode {
        path,
        kind: CHANGED,
        flags: 0,
        moved_from: Place::none(),
        moved_to: Place::none(),
        markers: MarkerDeltas::of(Vec::new(alloc)),
    }
}

/// Whether the other path, if there is one, is at this one's parent or below it.
fn is_below_parent(path: &Path, other: Option<&Path>) -> bool
    ensures { result ≡ is_above (parent path.now) (option_copied other.entry) }
{
    match other {
        Some(other) => path.parent_is_prefix_of(other),
        None => false,
    }
}
