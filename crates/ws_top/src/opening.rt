//! The areas are opened.
ghost use Rattle.std.specs.Prelude.{◌≡◌, [], Ok, Err, IfOk, MatchResult};
ghost use Rattle.ws_durable.specs.Saved.{saved};
ghost use Rattle.save_format.specs.Valid.{Valid};
ghost use Rattle.save_store.specs.Stored.{IsStored};
ghost use Rattle.ws_top.specs.Inside.Opening.{Opens};

use crate::kit::Areas;
use save_store::{OpenFault, Store};
use std::alloc::Global;
use ws_durable::Durable;
use ws_outside::Disk;

/// Opens the areas, and gives a store over them with the state that they hold. They are brought to the device, and hold what
/// they held.
pub fn open_areas<D: Disk>(
    alloc: Global,
    areas: Areas<D>,
) -> Result<(Store<D>, Durable), (OpenFault, Areas<D>)>
    ensures opens { MatchResult result (λ o. Opens D.moment D.left_since D.may_leave D.seen D.faults areas.disk o.0.areas.disk (Ok o.1)) (λ e. Opens D.moment D.left_since D.may_leave D.seen D.faults areas.disk e.1.disk (Err e.0)) }
    ensures valid { IfOk result (λ o. Valid (saved o.1)) }
    ensures stored { IfOk result (λ o. IsStored D.may_leave [] o.0) }
    ensures last { IfOk result (λ o. o.0.last ≡ o.1) }
{
    let Areas { disk } = areas;
    match Store::open(alloc, disk) {
        Ok((store, durable)) => Ok((store, durable)),
        Err((fault, disk)) => Err((fault, Areas { disk })),
    }
}
