//! Deltas as they are written in rows: words `PATH=MARK`, where the mark `*` tells that a file's contents changed, `+` that
//! what is there came, `-` that it went, `~` that something of another kind is there, and `.` that something below changed.
ghost use Rattle.std.specs.Prelude.{◌≡◌, IfOk};
ghost use Rattle.std.specs.Map.{keys_of};
ghost use Rattle.delta_kind.specs.Deltas.{InPathOrder, paths_of};

use crate::rows::cut;
use crate::views::path;
use delta_kind::{ADDED, CHANGED, CONTENT, Delta, DeltaNode, Place, REMOVED, TYPE};
use mark_set::MarkerDeltas;
use res_path::{NoMemory, Path};
use std::alloc::Global;
use std::collections::BTreeMap;

/// The kind and the flags of a mark.
fn change_of(mark: &str) -> (u8, u32) {
    match mark {
        "*" => (CHANGED, CONTENT),
        "+" => (ADDED, 0),
        "-" => (REMOVED, 0),
        "~" => (CHANGED, TYPE),
        _ => (CHANGED, 0),
    }
}

fn node_of(alloc: Global, path: Path, change: (u8, u32)) -> DeltaNode
    ensures { result.path ≡ path }
{
    let (kind, flags) = change;
    DeltaNode {
        path,
        kind,
        flags,
        moved_from: Place::none(),
        moved_to: Place::none(),
        markers: MarkerDeltas::of(Vec::new(alloc)),
    }
}

fn nodes_of(alloc: Global, changes: BTreeMap<Path, (u8, u32)>) -> Result<Vec<DeltaNode>, NoMemory>
    ensures { IfOk result (λ nodes. InPathOrder (paths_of nodes.items)) }
{
    let mut left = changes;
    let mut nodes = Vec::new(alloc);
    while let Some((path, change)) = left.pop_first() {
        nodes.push(node_of(alloc, path, change))?;
    }
    Ok(nodes)
}

/// The delta of these words, where there are some.
pub fn delta_of(alloc: Global, words: &str) -> Result<Option<Delta>, NoMemory> {
    let mut changes = BTreeMap::new(alloc);
    for word in words.split_whitespace() {
        let (at, mark) = cut(word, '=');
        changes.insert(path(alloc, at)?, change_of(mark))?;
    }
    if changes.is_empty() {
        return Ok(None);
    }
    Ok(Some(Delta::of(nodes_of(alloc, changes)?)))
}
