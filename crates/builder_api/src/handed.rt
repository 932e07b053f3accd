//! What a builder is handed.
ghost use Rattle.std.specs.Prelude.{◌≡◌, IfOk};

use crate::{BuildKind, Paths, View};
use delta_kind::Delta;
use res_path::{NoMemory, Path};

/// What a builder is handed for a command: what the build asks for, what changed since the command was built last, and
/// the files at or below its inputs and below its output, as they are.
#[derive(Clone, Drop)]
pub struct Handed {
    pub kind: BuildKind,
    /// Whether a delta is handed.
    pub last: bool,
    /// What changed in the command's project and in those that it refers to, since the command was built last
    /// (`IncrementalProjectBuilder.getDelta`). There is none where all is to be built anew.
    pub delta: Option<Delta>,
    pub view: View,
    /// The command's inputs, as paths of the workspace.
    pub inputs: Paths,
    /// The one folder that the command writes, as a path of the workspace.
    pub output: Path,
}

impl Handed {
    /// Equal in all parts; texts and contents are shared.
    pub fn copy(&self) -> Result<Handed, NoMemory>
        ensures { IfOk result (λ copy. copy ≡ self.now) }
    {
        self.clone()
    }
}
