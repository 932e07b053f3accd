// What the fresh workspace keeps.
ghost use Rattle.std.specs.Prelude.{◌≡◌, IfOk};
ghost use Rattle.ws_durable.specs.Saved.{saved};
ghost use Rattle.save_store.specs.States.{fresh as fresh_state};

use std::alloc::Global;
use ws_durable::{Builds, Durable, Keeps, Names};
use ws_elem::{ElemMap, NoMemory};

/// What the fresh workspace keeps: the root alone, as node 1.
pub(crate) fn fresh(alloc: Global) -> Result<Durable, NoMemory>
    ensures { IfOk result (λ d. saved d ≡ fresh_state) }
{
    Ok(Durable {
        next_node: 2,
        next_stamp: 1,
        next_marker: 1,
        partners: Names::of(Vec::new(alloc)),
        tree: ElemMap::fresh(alloc)?,
        shelf: ElemMap::empty(alloc),
        built: Builds::of(Vec::new(alloc)),
        kept: Keeps::of(Vec::new(alloc)),
    })
}
