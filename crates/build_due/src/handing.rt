//! What is handed for a command.
ghost use Rattle.std.specs.Prelude.{◌≡◌, IfOk};
ghost use Rattle.build_laws.specs.States.{is_whole};
ghost use Rattle.build_due.specs.Sites.{handed};

use crate::{NoMemory, Site};
use builder_api::{BuildKind, Handed, View};
use delta_kind::Delta;

impl Site {
    /// What is handed for the command of this delta, if there is one, and this view. It shares the paths' texts.
    pub fn handed(
        &self,
        kind: BuildKind,
        delta: Option<Delta>,
        view: View,
    ) -> Result<Handed, NoMemory>
        ensures { IfOk result (λ h. h ≡ handed self.now kind delta view) }
    {
        Ok(Handed {
            kind,
            last: delta.is_some(),
            delta,
            view,
            inputs: self.inputs.copy()?,
            output: self.output.copy()?,
        })
    }
}

/// Whether all is to be built anew, so that no delta is handed: by a full build and by a clean one.
pub fn is_whole(kind: BuildKind) -> bool
    ensures { result ≡ is_whole kind }
{
    match kind {
        BuildKind::Full | BuildKind::Clean => true,
        BuildKind::Auto | BuildKind::Incremental => false,
    }
}
