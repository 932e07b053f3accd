//! What is due for a command.
ghost use Rattle.std.specs.Prelude.{◌≡◌, ℕ, IfOk};
ghost use Rattle.tree_memory.specs.Spared.{left};
ghost use Rattle.ws_content.specs.States.{Remembered};
ghost use Rattle.ws_content.specs.Handing.{since};
ghost use Rattle.ws_content.specs.Inside.Held.{Holds};

use crate::NoMemory;
use build_due::{Site, is_whole};
use builder_api::BuildKind;
use delta_kind::Delta;
use std::alloc::Global;
use tree_memory::{Remembers, Sparing};
use ws_marks::Marks;

/// The delta that is due for the command, where one is. Costs what was recorded since the command was built last.
pub fn since_built<T: Remembers + Drop>(
    alloc: Global,
    tree: &Sparing<T>,
    marks: &Marks<T::Memory>,
    site: &Site,
    kind: BuildKind,
) -> Result<Option<Delta>, NoMemory>
    ensures { IfOk result (λ d. (start : ℕ) (v : Remembered) → Holds T.number start (left T.remembered tree.now) marks.now v
        → d ≡ since site.now kind v.built (T.tree tree.now.tree)) }
{
    if is_whole(kind) {
        return Ok(None);
    }
    let Some(last) = marks.built(&site.project, site.index) else {
        return Ok(None);
    };
    if !site.is_same(&last.command, &last.references) {
        return Ok(None);
    }
    let delta = tree.since(alloc, &last.tree)?;
    let scope = site.scope(alloc)?;
    Ok(Some(delta.under(alloc, scope.as_slice())?))
}
