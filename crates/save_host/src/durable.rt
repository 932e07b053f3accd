//! What is kept of a workspace, where it may be kept.
ghost use Rattle.std.specs.Prelude.{◌≡◌, IfOk};
ghost use Rattle.ws_durable.specs.Saved.{saved};
ghost use Rattle.save_format.specs.Valid.{Valid};
ghost use Rattle.save_store.specs.Stored.{IsNarrow};
ghost use Rattle.ws_core.specs.Durables.{durable_of};

use crate::NoMemory;
use elem_tree::LayerTree;
use save_check::may_be_saved;
use std::alloc::{AllocError, Global};
use ws_core::Core;
use ws_durable::Durable;

/// What of the workspace lasts over a save, as it is now. Where it may not be saved, memory is said to want.
pub fn kept_now(core: &Core<LayerTree>, alloc: Global) -> Result<Durable, NoMemory>
    ensures told { IfOk result (λ d. saved d ≡ durable_of core.now.state) }
    ensures valid { IfOk result (λ d. IsNarrow d → Valid (saved d)) }
{
    let now = core.durable(alloc)?;
    if may_be_saved(alloc, &now)? {
        Ok(now)
    } else {
        Err(AllocError)
    }
}
