//! What a workspace keeps when no program runs.
ghost use Rattle.std.specs.Prelude.{◌≡◌, IfOk};

use crate::{Builds, Keeps, Names};
use res_path::NoMemory;
use ws_elem::ElemMap;

/// What a workspace keeps when no program runs.
#[derive(Debug, Drop)]
pub struct Durable {
    /// The node number, the stamp and the marker id that are drawn next.
    pub next_node: u64,
    pub next_stamp: u64,
    pub next_marker: u64,
    /// The synchronisation partners, in the order in which they were registered.
    pub partners: Names,
    pub tree: ElemMap,
    /// What lies below closed projects.
    pub shelf: ElemMap,
    /// By project and index.
    pub built: Builds,
    /// By participant.
    pub kept: Keeps,
}

impl Durable {
    /// An equal state, which shares its texts.
    pub fn copy(&self) -> Result<Durable, NoMemory>
        ensures { IfOk result (λ copy. copy ≡ self.now) }
    {
        Ok(Durable {
            next_node: self.next_node,
            next_stamp: self.next_stamp,
            next_marker: self.next_marker,
            partners: self.partners.copy()?,
            tree: self.tree.copy()?,
            shelf: self.shelf.copy()?,
            built: self.built.copy()?,
            kept: self.kept.copy()?,
        })
    }
}
