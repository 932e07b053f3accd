//! Why the areas couldn't be read is told.
ghost use Rattle.std.specs.Prelude.{◌≡◌, [], None};
ghost use Rattle.ws_top.specs.Inside.Opening.{Refuses};

use crate::kit::{Areas, Kit};
use crate::response::{Outcome, say, stop, want};
use area_text::put_damage;
use builder_api::Builder;
use disk_area::Damage;
use save_parts::Listener;
use save_round::Participant;
use save_store::OpenFault;
use std::alloc::Global;
use ws_outside::{Disk, Sink};

/// Tells why the areas couldn't be read.
pub fn refuse<K: Sink, D: Disk, L: Listener, B: Builder, P: Participant>(
    alloc: Global,
    sink: &mut K,
    areas: Areas<D>,
    kit: Kit<L, B, P>,
    fault: OpenFault,
) -> Outcome<D, L, B, P>
    ensures told { Refuses fault (K.written sink.old) (K.written sink.new) (K.faults sink.old) (K.faults sink.new) result.status }
    ensures nothing { result.history ≡ [] }
    ensures none { result.kept ≡ None }
    ensures areas { result.areas ≡ areas }
    ensures kit { result.kit ≡ kit }
{
    match fault {
        OpenFault::Disk => stop(alloc, sink, areas, kit, 5, b"status 5\n"),
        OpenFault::Damaged(damage) => say_damage(alloc, sink, areas, kit, damage),
        OpenFault::Memory => want(alloc, sink, areas, kit),
    }
}

/// Tells the first damage of the areas.
fn say_damage<K: Sink, D: Disk, L: Listener, B: Builder, P: Participant>(
    alloc: Global,
    sink: &mut K,
    areas: Areas<D>,
    kit: Kit<L, B, P>,
    damage: Damage,
) -> Outcome<D, L, B, P>
    ensures told { Refuses (OpenFault.Damaged damage) (K.written sink.old) (K.written sink.new) (K.faults sink.old) (K.faults sink.new) result.status }
    ensures nothing { result.history ≡ [] }
    ensures none { result.kept ≡ None }
    ensures areas { result.areas ≡ areas }
    ensures kit { result.kit ≡ kit }
{
    let mut text = Vec::new(alloc);
    match put_damage(&mut text, damage) {
        Ok(()) => say(alloc, sink, areas, kit, 7, text.as_slice()),
        Err(_) => want(alloc, sink, areas, kit),
    }
}
