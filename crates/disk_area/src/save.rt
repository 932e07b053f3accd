// Writing a save into an area, and a record behind the last one.
ghost use Rattle.std.specs.Prelude.{◌≡◌, ◌≤◌, ◌+◌, ◌<◌, ◌^◌, ◌++◌, true, [], ◌∷◌, length, OnOk, IfSome, option_map};
ghost use Rattle.ws_outside.specs.Disk.{held, beside, holding, written, InArea, Came, Each, LeavesOnly};
ghost use Rattle.ws_outside.specs.Faults.{HasCause};
ghost use Rattle.disk_area.specs.Area.{behind_gate, record_behind};
ghost use Rattle.disk_area.specs.Moments.{Saving, Growing, GainsRecord};
ghost use Rattle.disk_area.specs.Reading.{IsClosedAt, ReadsAsSave, ReadsAsRecord};
ghost use Rattle.disk_area.specs.Writes.{IsShut, Rewriting, Appended, Recording};

use crate::image::{append, rewrite};
use ws_outside::{Disk, Failed, Which};

/// Writes a save with this number and image over an area. It closes the gate, lays the image behind it, cuts what stands
/// behind that, and opens the gate, each followed by a sync: four syncs, and each byte behind the gate is written once.
/// With `closed` it leaves out the first write and its sync, which asks that every crash leaves a byte other than 01 at 0.
///
/// At every moment since the call began a crash leaves the other area as it would have been, and this one closed, or as
/// this save, or, without `closed`, as it was but for its gate. After Ok it leaves this save. Fails exactly where the
/// disk's count of faults rises in this call, and doesn't tell how far it came.
pub fn write_image<D: Disk>(
    disk: &mut D,
    area: Which,
    number: u64,
    image: &[u8],
    closed: bool,
) -> Result<(), Failed>
    requires small { 58 + length image.now ≤ 2 ^ 30 }
    requires number { (1 ≤ number) × (number < 2 ^ 63) }
    requires shut { closed ≡ true → Each (D.may_leave disk.old) (λ c. IsShut (held area c)) }

    ensures any_moment { LeavesOnly D.moment D.left_since D.may_leave disk.old disk.new (Came (D.may_leave disk.old) (InArea area (Saving closed number image.now))) }
    ensures any_bytes { LeavesOnly D.moment D.left_since D.may_leave disk.old disk.new (Came (D.may_leave disk.old) (InArea area (Rewriting closed (behind_gate number image.now)))) }

    ensures saved { OnOk result (Each (D.may_leave disk.new) (λ c. ReadsAsSave number image.now (held area c))) }
    ensures bytes { OnOk result (Each (D.may_leave disk.new) (Came (D.may_leave disk.old) (InArea area (λ _ c. c ≡ 1 ∷ behind_gate number image.now)))) }
    ensures seen { OnOk result (D.seen disk.new ≡ option_map (λ both. holding area (1 ∷ behind_gate number image.now) both) (D.seen disk.old)) }

    ensures beside { option_map (beside area) (D.seen disk.new) ≡ option_map (beside area) (D.seen disk.old) }
    ensures cause { HasCause (D.faults disk.old) (D.faults disk.new) result }
{
    rewrite(disk, area, number, image, closed)
}

/// Writes a record with this body behind the last one, whose gate stands at this place and is closed. It writes all that
/// follows the gate, syncs, opens the gate, and syncs.
///
/// At every moment since the call began a crash leaves the other area as it would have been, and in this one all that
/// stood before the gate, and then a closed gate or this record: an area that ended at this gate keeps its save and its
/// records. After Ok it leaves this record behind them. Fails exactly where the disk's count of faults rises in this call,
/// and doesn't tell how far it came.
pub fn write_record<D: Disk>(
    disk: &mut D,
    area: Which,
    gate: u64,
    body: &[u8],
) -> Result<(), Failed>
    requires small { gate + length body.now + 42 ≤ 2 ^ 30 }
    requires gate { IfSome (D.seen disk.old) (λ both. gate < length (held area both)) }
    requires shut { Each (D.may_leave disk.old) (λ c. IsClosedAt gate (held area c)) }

    ensures any_moment { LeavesOnly D.moment D.left_since D.may_leave disk.old disk.new (Came (D.may_leave disk.old) (InArea area (Growing gate body.now))) }
    ensures any_bytes { LeavesOnly D.moment D.left_since D.may_leave disk.old disk.new (Came (D.may_leave disk.old) (InArea area (Recording gate (record_behind body.now)))) }

    ensures recorded { OnOk result (Each (D.may_leave disk.new) (λ c. ReadsAsRecord gate body.now (held area c))) }
    ensures gained { OnOk result (Each (D.may_leave disk.new) (Came (D.may_leave disk.old) (InArea area (GainsRecord gate body.now)))) }
    ensures bytes { OnOk result (Each (D.may_leave disk.new) (Came (D.may_leave disk.old) (InArea area (Appended gate 1 (record_behind body.now))))) }
    ensures seen { OnOk result (D.seen disk.new ≡ option_map (λ both. holding area (written gate (1 ∷ record_behind body.now) (held area both)) both) (D.seen disk.old)) }

    ensures beside { option_map (beside area) (D.seen disk.new) ≡ option_map (beside area) (D.seen disk.old) }
    ensures cause { HasCause (D.faults disk.old) (D.faults disk.new) result }
{
    append(disk, area, gate, body)
}
