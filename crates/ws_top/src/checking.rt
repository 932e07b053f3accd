//! What the areas hold is told.
ghost use Rattle.std.specs.Prelude.{◌≡◌, ◌++◌, [], map, None, IfOk, OnOk};
ghost use Rattle.ws_opening.specs.Opened.{opened_state};
ghost use Rattle.ws_top.specs.Inside.Opening.{TellsHeld, LeavesAreas};
ghost use Rattle.ws_top.specs.Outcomes.{Checks};
ghost use Rattle.ws_top.specs.Texts.{check_text, status_line};

use crate::NoMemory;
use crate::kit::{Areas, Kit};
use crate::refusal::refuse;
use crate::response::{Outcome, tell, want};
use area_text::put_found;
use builder_api::Builder;
use report_text::{put_counted, put_text};
use save_parts::Listener;
use save_round::Participant;
use save_store::{Found, Store};
use std::alloc::Global;
use ws_outside::{Disk, Sink};

/// Tells what both areas hold, or why that couldn't be read. They are not brought to the device, and hold what they held.
pub fn check<K: Sink, D: Disk, L: Listener, B: Builder, P: Participant>(
    alloc: Global,
    sink: &mut K,
    areas: Areas<D>,
    kit: Kit<L, B, P>,
) -> Outcome<D, L, B, P>
    ensures checks { Checks (D.seen areas.disk) (D.faults areas.disk) (D.faults result.areas.disk) (K.written sink.old) (K.written sink.new) (K.faults sink.old) (K.faults sink.new) result.status }
    ensures areas { LeavesAreas D.moment D.left_since D.may_leave D.seen D.faults areas.disk result.areas.disk (K.written sink.old) (K.written sink.new) (K.faults sink.old) (K.faults sink.new) result.kept (opened_state result.kept (map (λ b. B.tells b) kit.builders)) result.status result.history }
    ensures nothing { result.history ≡ [] }
    ensures none { result.kept ≡ None }
    ensures kit { result.kit ≡ kit }
{
    let Areas { mut disk } = areas;
    let looked = Store::check(alloc, &mut disk);
    let areas = Areas { disk };
    match looked {
        Ok(found) => tell_found(alloc, sink, areas, kit, found),
        Err(fault) => refuse(alloc, sink, areas, kit, fault),
    }
}

/// Tells what was found in both areas.
fn tell_found<K: Sink, D: Disk, L: Listener, B: Builder, P: Participant>(
    alloc: Global,
    sink: &mut K,
    areas: Areas<D>,
    kit: Kit<L, B, P>,
    found: Found,
) -> Outcome<D, L, B, P>
    ensures tells { TellsHeld found (K.written sink.old) (K.written sink.new) (K.faults sink.old) (K.faults sink.new) result.status }
    ensures nothing { result.history ≡ [] }
    ensures none { result.kept ≡ None }
    ensures areas { result.areas ≡ areas }
    ensures kit { result.kit ≡ kit }
{
    match text_of(alloc, found) {
        Ok(text) => tell(alloc, sink, areas, kit, text.as_slice()),
        Err(_) => want(alloc, sink, areas, kit),
    }
}

/// The text of what was found, with the status behind it.
fn text_of(alloc: Global, found: Found) -> Result<Vec<u8>, NoMemory>
    ensures { IfOk result (λ text. text.items ≡ check_text found) }
{
    let mut text = Vec::new(alloc);
    put_found(&mut text, found)?;
    put_status(&mut text, 0)?;
    Ok(text)
}

/// Appends the line of a status.
fn put_status(out: &mut Vec<u8>, status: u64) -> Result<(), NoMemory>
    ensures { OnOk result (out.new.items ≡ out.old.items ++ status_line status) }
{
    put_counted(out, "status ", status)?;
    put_text(out, "\n")
}
