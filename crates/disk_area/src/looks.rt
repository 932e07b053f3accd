// Reads of a disk, with the fault that they may tell.
ghost use Rattle.std.specs.Prelude.{◌≡◌, ◌≤◌, length, take, drop, IfOk, OnErr, IsErrOf, IfErr, IfSome};
ghost use Rattle.ws_outside.specs.Disk.{held, LeavesOnly};
ghost use Rattle.disk_area.specs.declared.damage.AreaFault.TheVariants.{Disk};
ghost use Rattle.disk_area.specs.Reading.{HasFault};

use crate::AreaFault;
use ws_outside::{Disk, Failed, Which};

/// The length of an area.
pub(crate) fn size<D: Disk>(disk: &mut D, area: Which) -> Result<u64, AreaFault>
    ensures told { IfOk result (λ n. IfSome (D.seen disk.old) (λ both. n ≡ length (held area both))) }
    ensures fault { IfErr result (λ e. e ≡ Disk) }
    ensures seen { D.seen disk.new ≡ D.seen disk.old }
    ensures any_moment { LeavesOnly D.moment D.left_since D.may_leave disk.old disk.new (D.may_leave disk.old) }
    ensures cause { HasFault (D.faults disk.old) (D.faults disk.new) result }
{
    match disk.len(area) {
        Ok(len) => Ok(len),
        Err(Failed) => Err(AreaFault::Disk),
    }
}

/// Bytes of an area from a place on, as many as the buffer takes, or fewer at the end.
pub(crate) fn fetch<D: Disk>(
    disk: &mut D,
    area: Which,
    at: u64,
    buf: &mut [u8],
) -> Result<usize, AreaFault>
    ensures told { IfOk result (λ n. IfSome (D.seen disk.old) (λ both. take n buf.new ≡ take (length buf.old) (drop at (held area both)))) }
    ensures count { IfOk result (λ n. n ≤ length buf.old) }
    ensures fault { IfErr result (λ e. e ≡ Disk) }
    ensures seen { D.seen disk.new ≡ D.seen disk.old }
    ensures any_moment { LeavesOnly D.moment D.left_since D.may_leave disk.old disk.new (D.may_leave disk.old) }
    ensures cause { HasFault (D.faults disk.old) (D.faults disk.new) result }
{
    match disk.read(area, at, buf) {
        Ok(count) => Ok(count),
        Err(Failed) => Err(AreaFault::Disk),
    }
}
