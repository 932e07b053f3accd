//! What stands beside the tree.
ghost use Rattle.std.specs.Prelude.{◌≡◌, [], IfOk};
ghost use Rattle.std.specs.FinMap as map;

use crate::Partners;
use res_path::NoMemory;
use std::alloc::Global;
use ws_elem::ElemMap;

/// What stands beside a workspace's tree.
#[derive(Clone, Debug, Drop)]
pub struct Side {
    /// The members of closed projects.
    pub shelf: ElemMap,
    /// The number that the next new resource gets.
    pub next_node: u64,
    /// The number that the next new contents or description gets.
    pub next_stamp: u64,
    /// The number that the next new marker gets.
    pub next_marker: u64,
    /// The synchronisation partners.
    pub partners: Partners,
}

impl Side {
    /// What stands beside the fresh workspace's tree: an empty shelf, the counters after the root's
    /// node, and no partners.
    pub fn fresh(alloc: Global) -> Side
        ensures shelf { result.shelf.map ≡ map.empty }
        ensures node { result.next_node ≡ 2 }
        ensures stamp { result.next_stamp ≡ 1 }
        ensures marker { result.next_marker ≡ 1 }
        ensures partners { result.partners ≡ [] }
    {
        Side {
            shelf: ElemMap::empty(alloc),
            next_node: 2,
            next_stamp: 1,
            next_marker: 1,
            partners: Partners::empty(alloc),
        }
    }

    /// An equal side, whose elements share their texts.
    pub fn copy(&self) -> Result<Side, NoMemory>
        ensures { IfOk result (λ copy. copy ≡ self.now) }
    {
        self.clone()
    }
}
