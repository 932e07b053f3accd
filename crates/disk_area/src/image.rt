// The parts of which a save and a record are written.
ghost use Rattle.std.specs.Prelude.{◌≡◌, ◌≢◌, ◌≤◌, ◌+◌, ◌<◌, ◌^◌, ◌++◌, ℕ, Bool, true, false, [], ◌∷◌, length, take, drop, OnOk, IfSome, option_map, IsTrue};
ghost use Rattle.ws_outside.specs.Disk.{held, beside, holding, written, Torn, Cut, InArea, Came, Each, LeavesOnly};
ghost use Rattle.ws_outside.specs.Faults.{HasCause};
ghost use Rattle.disk_area.specs.Area.{behind_gate, record_behind};
ghost use Rattle.disk_area.specs.Writes.{Becomes, KeepsFront, Follow, IsShut, SameBehind, Staged, Closing, Rewriting, Appended, Recording};

use crate::fields::{header_bytes, record_bytes};
use crate::writes::{lay, set_byte, trim};
use ws_outside::{Disk, Failed, Which};

/// Closes the gate of an area: writes 00 at 0 and syncs. At every moment since the call began a crash leaves both areas as
/// they would have been, but for this gate. After Ok it leaves 00 there. Takes no memory, and fails exactly where the disk's
/// count of faults rises in this call.
pub fn close_gate<D: Disk>(disk: &mut D, area: Which) -> Result<(), Failed>
    ensures any_moment { LeavesOnly D.moment D.left_since D.may_leave disk.old disk.new (Came (D.may_leave disk.old) (InArea area SameBehind)) }
    ensures closed { OnOk result (Each (D.may_leave disk.new) (Came (D.may_leave disk.old) (InArea area (Becomes (λ old. 0 ∷ drop 1 old))))) }
    ensures seen { OnOk result (D.seen disk.new ≡ option_map (λ both. holding area (0 ∷ drop 1 (held area both)) both) (D.seen disk.old)) }
    ensures beside { option_map (beside area) (D.seen disk.new) ≡ option_map (beside area) (D.seen disk.old) }
    ensures cause { HasCause (D.faults disk.old) (D.faults disk.new) result }
{
    set_byte(disk, area, 0, 0)
}

/// Opens the gate of an area: writes 01 at 0 and syncs. At every moment since the call began a crash leaves both areas as
/// they would have been, but for this gate. After Ok it leaves 01 there. Takes no memory, and fails exactly where the disk's
/// count of faults rises in this call.
pub fn open_gate<D: Disk>(disk: &mut D, area: Which) -> Result<(), Failed>
    ensures any_moment { LeavesOnly D.moment D.left_since D.may_leave disk.old disk.new (Came (D.may_leave disk.old) (InArea area SameBehind)) }
    ensures opened { OnOk result (Each (D.may_leave disk.new) (Came (D.may_leave disk.old) (InArea area (Becomes (λ old. 1 ∷ drop 1 old))))) }
    ensures seen { OnOk result (D.seen disk.new ≡ option_map (λ both. holding area (1 ∷ drop 1 (held area both)) both) (D.seen disk.old)) }
    ensures beside { option_map (beside area) (D.seen disk.new) ≡ option_map (beside area) (D.seen disk.old) }
    ensures cause { HasCause (D.faults disk.old) (D.faults disk.new) result }
{
    set_byte(disk, area, 0, 1)
}

/// Lays a save behind the gate of an area: writes all that follows the gate, syncs, cuts what stands behind it, and syncs.
/// It asks that every crash leaves a byte other than 01 at 0. At every moment since the call began a crash leaves such a
/// byte there. After Ok it leaves the save behind it. Fails exactly where the disk's count of faults rises in this call.
pub fn lay_image<D: Disk>(
    disk: &mut D,
    area: Which,
    number: u64,
    image: &[u8],
) -> Result<(), Failed>
    requires small { 58 + length image.now ≤ 2 ^ 30 }
    requires shut { Each (D.may_leave disk.old) (λ c. IsShut (held area c)) }
    ensures any_moment { LeavesOnly D.moment D.left_since D.may_leave disk.old disk.new (Came (D.may_leave disk.old) (InArea area (λ _ c. IsShut c))) }
    ensures laid { OnOk result (Each (D.may_leave disk.new) (Came (D.may_leave disk.old) (InArea area (Staged (behind_gate number image.now))))) }
    ensures seen { OnOk result (D.seen disk.new ≡ option_map (λ both. holding area (take 1 (held area both) ++ behind_gate number image.now) both) (D.seen disk.old)) }
    ensures beside { option_map (beside area) (D.seen disk.new) ≡ option_map (beside area) (D.seen disk.old) }
    ensures cause { HasCause (D.faults disk.old) (D.faults disk.new) result }
{
    let head = header_bytes(number, image);
    lay(disk, area, 1, &head, image)?;
    let end = 58 + image.len() as u64;
    trim(disk, area, end)
}

/// Closes the gate unless it is known to be shut.
fn close_unless<D: Disk>(disk: &mut D, area: Which, closed: bool) -> Result<(), Failed>
    requires shut { closed ≡ true → Each (D.may_leave disk.old) (λ c. IsShut (held area c)) }
    ensures any_moment { LeavesOnly D.moment D.left_since D.may_leave disk.old disk.new (Came (D.may_leave disk.old) (InArea area (Closing closed))) }
    ensures shut { OnOk result (Each (D.may_leave disk.new) (λ c. IsShut (held area c))) }
    ensures beside { option_map (beside area) (D.seen disk.new) ≡ option_map (beside area) (D.seen disk.old) }
    ensures cause { HasCause (D.faults disk.old) (D.faults disk.new) result }
{
    if closed {
        Ok(())
    } else {
        close_gate(disk, area)
    }
}

/// Writes a whole save into an area.
pub(crate) fn rewrite<D: Disk>(
    disk: &mut D,
    area: Which,
    number: u64,
    image: &[u8],
    closed: bool,
) -> Result<(), Failed>
    requires small { 58 + length image.now ≤ 2 ^ 30 }
    requires number { (1 ≤ number) × (number < 2 ^ 63) }
    requires shut { closed ≡ true → Each (D.may_leave disk.old) (λ c. IsShut (held area c)) }
    ensures any_moment { LeavesOnly D.moment D.left_since D.may_leave disk.old disk.new (Came (D.may_leave disk.old) (InArea area (Rewriting closed (behind_gate number image.now)))) }
    ensures done { OnOk result (Each (D.may_leave disk.new) (Came (D.may_leave disk.old) (InArea area (λ _ c. c ≡ 1 ∷ behind_gate number image.now)))) }
    ensures seen { OnOk result (D.seen disk.new ≡ option_map (λ both. holding area (1 ∷ behind_gate number image.now) both) (D.seen disk.old)) }
    ensures beside { option_map (beside area) (D.seen disk.new) ≡ option_map (beside area) (D.seen disk.old) }
    ensures cause { HasCause (D.faults disk.old) (D.faults disk.new) result }
{
    close_unless(disk, area, closed)?;
    lay_image(disk, area, number, image)?;
    open_gate(disk, area)
}

/// Writes a record at a gate.
pub(crate) fn append<D: Disk>(
    disk: &mut D,
    area: Which,
    gate: u64,
    body: &[u8],
) -> Result<(), Failed>
    requires small { gate + length body.now + 42 ≤ 2 ^ 30 }
    requires gate { IfSome (D.seen disk.old) (λ both. gate < length (held area both)) }
    ensures any_moment { LeavesOnly D.moment D.left_since D.may_leave disk.old disk.new (Came (D.may_leave disk.old) (InArea area (Recording gate (record_behind body.now)))) }
    ensures done { OnOk result (Each (D.may_leave disk.new) (Came (D.may_leave disk.old) (InArea area (Appended gate 1 (record_behind body.now))))) }
    ensures seen { OnOk result (D.seen disk.new ≡ option_map (λ both. holding area (written gate (1 ∷ record_behind body.now) (held area both)) both) (D.seen disk.old)) }
    ensures beside { option_map (beside area) (D.seen disk.new) ≡ option_map (beside area) (D.seen disk.old) }
    ensures cause { HasCause (D.faults disk.old) (D.faults disk.new) result }
{
    let head = record_bytes(body);
    lay(disk, area, gate + 1, &head, body)?;
    set_byte(disk, area, gate, 1)
}
