// Writes that are on the device when they answer Ok.
ghost use Rattle.std.specs.Prelude.{◌≡◌, ◌≤◌, ◌+◌, ◌<◌, ◌^◌, ◌++◌, ℕ, [], ◌∷◌, length, take, OnOk, IfSome, option_map};
ghost use Rattle.ws_outside.specs.Disk.{held, beside, holding, written, Torn, Cut, InArea, Came, Each, LeavesOnly};
ghost use Rattle.ws_outside.specs.Faults.{HasCause};
ghost use Rattle.disk_area.specs.Writes.{Becomes, KeepsFront, Follow};

use ws_outside::{Disk, Failed, Which};

/// Writes one byte and syncs. Until Ok a crash may leave any byte there.
pub(crate) fn set_byte<D: Disk>(disk: &mut D, area: Which, at: u64, value: u8) -> Result<(), Failed>
    requires { IfSome (D.seen disk.old) (λ both. at ≤ length (held area both)) }
    ensures any_moment { LeavesOnly D.moment D.left_since D.may_leave disk.old disk.new (Came (D.may_leave disk.old) (InArea area (Torn at 1))) }
    ensures set { OnOk result (Each (D.may_leave disk.new) (Came (D.may_leave disk.old) (InArea area (Becomes (written at (value ∷ [])))))) }
    ensures seen { OnOk result (D.seen disk.new ≡ option_map (λ both. holding area (written at (value ∷ []) (held area both)) both) (D.seen disk.old)) }
    ensures beside { option_map (beside area) (D.seen disk.new) ≡ option_map (beside area) (D.seen disk.old) }
    ensures cause { HasCause (D.faults disk.old) (D.faults disk.new) result }
{
    disk.write_at(area, at, &[value])?;
    disk.sync(area)
}

/// Cuts an area and syncs. Until Ok a crash may leave it cut or not.
pub(crate) fn trim<D: Disk>(disk: &mut D, area: Which, len: u64) -> Result<(), Failed>
    requires { IfSome (D.seen disk.old) (λ both. len ≤ length (held area both)) }
    ensures any_moment { LeavesOnly D.moment D.left_since D.may_leave disk.old disk.new (Came (D.may_leave disk.old) (InArea area (Cut len))) }
    ensures trimmed { OnOk result (Each (D.may_leave disk.new) (Came (D.may_leave disk.old) (InArea area (Becomes (take len))))) }
    ensures seen { OnOk result (D.seen disk.new ≡ option_map (λ both. holding area (take len (held area both)) both) (D.seen disk.old)) }
    ensures beside { option_map (beside area) (D.seen disk.new) ≡ option_map (beside area) (D.seen disk.old) }
    ensures cause { HasCause (D.faults disk.old) (D.faults disk.new) result }
{
    disk.cut(area, len)?;
    disk.sync(area)
}

/// Writes a header, a body and a closed gate one after another from a place on, and syncs. Until Ok a crash may leave
/// anything from that place on.
pub(crate) fn lay<D: Disk>(
    disk: &mut D,
    area: Which,
    at: u64,
    head: &[u8],
    body: &[u8],
) -> Result<(), Failed>
    requires fits { IfSome (D.seen disk.old) (λ both. at ≤ length (held area both)) }
    requires small { at + length head.now + length body.now + 1 ≤ 2 ^ 30 }
    ensures any_moment { LeavesOnly D.moment D.left_since D.may_leave disk.old disk.new (Came (D.may_leave disk.old) (InArea area (KeepsFront at))) }
    ensures laid { OnOk result (Each (D.may_leave disk.new) (Came (D.may_leave disk.old) (InArea area (Follow at (head.now ++ body.now ++ 0 ∷ []))))) }
    ensures seen { OnOk result (D.seen disk.new ≡ option_map (λ both. holding area (written at (head.now ++ body.now ++ 0 ∷ []) (held area both)) both) (D.seen disk.old)) }
    ensures beside { option_map (beside area) (D.seen disk.new) ≡ option_map (beside area) (D.seen disk.old) }
    ensures cause { HasCause (D.faults disk.old) (D.faults disk.new) result }
{
    disk.write_at(area, at, head)?;
    let middle = at + head.len() as u64;
    disk.write_at(area, middle, body)?;
    let end = middle + body.len() as u64;
    disk.write_at(area, end, &[0])?;
    disk.sync(area)
}
