//! What became of one path.
ghost use Rattle.std.specs.Prelude.{◌≡◌, IfOk};

use crate::Place;
use mark_set::MarkerDeltas;
use res_path::Path;
use ws_elem::NoMemory;

/// What became of one path.
#[derive(Clone, Debug, Drop)]
pub struct DeltaNode {
    pub path: Path,
    /// `ADDED`, `REMOVED` or `CHANGED`.
    pub kind: u8,
    /// The sum of the flags that hold; 0 where only something below the path changed.
    pub flags: u32,
    /// Where what is at the path was; with `MOVED_FROM`.
    pub moved_from: Place,
    /// Where what was at the path is; with `MOVED_TO`.
    pub moved_to: Place,
    /// What became of each of its markers, by id; with `MARKERS`.
    pub markers: MarkerDeltas,
}

impl DeltaNode {
    /// An equal node, whose paths share their texts.
    pub fn copy(&self) -> Result<DeltaNode, NoMemory>
        ensures { IfOk result (λ copy. copy ≡ self.now) }
    {
        self.clone()
    }
}
