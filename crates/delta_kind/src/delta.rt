//! The nodes of a delta.
ghost use Rattle.std.specs.Prelude.{◌≡◌, ◌↔◌, [], length, false, IsTrue, IfOk, None};
ghost use Rattle.std.specs.List.{list_any};
ghost use Rattle.std.specs.Option.{option_copied};
ghost use Rattle.res_path.specs.Paths.{path_eq};
ghost use Rattle.std.specs.Slice.Iter.{iter_rest};
ghost use Rattle.delta_kind.specs.Deltas.{InPathOrder, paths_of, node_with, cut, whole_kind};

use crate::{CHANGED, DeltaNode, NO_CHANGE, parts};
use res_path::Path;
use std::alloc::Global;
use std::marker::Model;
use std::slice::Iter;
use ws_elem::NoMemory;

/// What changed from one tree to another: a node for each path that came, went or changed, and for each path above
/// one, in path order. Without nodes nothing changed. A contract sees the list of the nodes.
#[derive(Debug, Drop)]
pub struct Delta {
    nodes: Vec<DeltaNode>,
}

impl Model for Delta {
    ghost use Rattle.std.specs.Prelude.{List};
    ghost use Rattle.std.specs.Coded.{coded_list};
    ghost use Rattle.delta_kind.specs.contracts.node.DeltaNode as node;
    ghost use Rattle.delta_kind.specs.declared.node.DeltaNode.{DeltaNode};
    ghost use Rattle.delta_kind.specs.Deltas.{InPathOrder, paths_of};

    ghost Value = { List DeltaNode };

    ghost coded = { coded_list node.the_row.coded };

    ghost view = { λ d. d.nodes.items };

    ghost invariant = { λ d. InPathOrder (paths_of d.nodes.items) };
}

impl Delta {
    /// The delta that tells nothing. It takes no memory.
    pub fn empty(alloc: Global) -> Delta
        ensures { result ≡ [] }
    {
        Delta {
            nodes: Vec::new(alloc),
        }
    }

    /// The delta with these nodes, of which nothing is copied.
    pub fn of(nodes: Vec<DeltaNode>) -> Delta
        requires { InPathOrder (paths_of nodes.items) }
        ensures { result ≡ nodes.items }
    {
        Delta { nodes }
    }

    /// The nodes, in path order, each path once.
    pub fn nodes(&self) -> &[DeltaNode]
        ensures nodes { result.now ≡ self.now }
        ensures order { InPathOrder (paths_of self.now) }
    {
        self.nodes.as_slice()
    }

    /// The nodes one by one, in path order.
    pub fn iter(&self) -> Iter<'_, DeltaNode>
        ensures { iter_rest result ≡ self.now }
    {
        self.nodes.as_slice().iter()
    }

    /// The nodes, of which nothing is copied.
    pub fn into_nodes(self) -> Vec<DeltaNode>
        ensures nodes { result.items ≡ self }
        ensures order { InPathOrder (paths_of self) }
    {
        let Delta { nodes } = self;
        nodes
    }

    /// The node of the path, and none where it has none (`IResourceDelta.findMember`). Costs a comparison of paths for
    /// each halving of the nodes, and no memory.
    pub fn find(&self, path: &Path) -> Option<&DeltaNode>
        ensures node { option_copied result ≡ node_with path.now self.now }
        ensures none { (result ≡ None) ↔ (list_any (path_eq path.now) (paths_of self.now) ≡ false) }
    {
        parts::node_with(self.nodes.as_slice(), path)
    }

    /// The nodes at or below one of these paths. Costs a test of each node against the paths, and a copy of each one that
    /// is kept, whose paths share their texts.
    pub fn under(&self, alloc: Global, prefixes: &[Path]) -> Result<Delta, NoMemory>
        ensures { IfOk result (λ d. d ≡ cut prefixes.now self.now) }
    {
        let nodes = parts::cut(alloc, self.nodes.as_slice(), prefixes)?;
        Ok(Delta { nodes })
    }

    /// How many nodes.
    pub fn len(&self) -> usize
        ensures { result ≡ length self.now }
    {
        self.nodes.len()
    }

    /// What became of the whole: `NO_CHANGE` where no path has a node, and else `CHANGED`.
    pub fn kind(&self) -> u8
        ensures { result ≡ whole_kind self.now }
    {
        if self.nodes.is_empty() {
            NO_CHANGE
        } else {
            CHANGED
        }
    }

    /// Whether nothing changed.
    pub fn is_empty(&self) -> bool
        ensures { IsTrue result ↔ (self.now ≡ []) }
    {
        self.nodes.is_empty()
    }

    /// An equal delta, whose paths share their texts.
    pub fn copy(&self) -> Result<Delta, NoMemory>
        ensures { IfOk result (λ copy. copy ≡ self.now) }
    {
        self.clone()
    }
}

impl Clone for Delta {
    ghost use Rattle.std.specs.Prelude.{◌≡◌};

    ghost is_clone = { λ delta copy. copy ≡ delta };

    fn clone(&self) -> Result<Delta, NoMemory> {
        let nodes = self.nodes.clone()?;
        Ok(Delta { nodes })
    }
}
