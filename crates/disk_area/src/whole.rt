// A whole area, with its image and its records.
ghost use Rattle.std.specs.Prelude.{◌≡◌, length, Ok, Err, IfSome};
ghost use Rattle.ws_outside.specs.Disk.{held, LeavesOnly};
ghost use Rattle.disk_area.specs.declared.damage.AreaFault.TheVariants.{Damaged, Memory};
ghost use Rattle.disk_area.specs.declared.damage.Damage.{Damage};
ghost use Rattle.disk_area.specs.Reading.{image_of, records_from, with_image, area_of, Tells, TellsPieces, HasFault};

use crate::looks::size;
use crate::{Area, AreaFault, Bodies, DamageCause, head, image_piece, record_piece};
use std::alloc::Global;
use ws_outside::{Disk, Which};

/// A whole area: its save number, its image, the bodies of its records up to the first gate that is closed, and the place
/// of that gate; None exactly where the area is closed. Damage of the head and then of the image is an error, as `head` and
/// `image_piece` tell it; the first damage of a record ends the records, and stands in the place of the gate. `Disk` comes
/// exactly where the disk's count of faults rose in this call; `Memory` says that the bytes of a piece weren't to be had. The
/// disk is as before. Reads the bytes of the image and of each record once.
pub fn read_area<D: Disk>(
    alloc: Global,
    disk: &mut D,
    area: Which,
) -> Result<Option<Area>, AreaFault>
    ensures told { IfSome (D.seen disk.old) (λ both. Tells area (area_of (held area both)) result) }
    ensures pieces { IfSome (D.seen disk.old) (λ both. TellsPieces area (held area both) result) }
    ensures seen { D.seen disk.new ≡ D.seen disk.old }
    ensures any_moment { LeavesOnly D.moment D.left_since D.may_leave disk.old disk.new (D.may_leave disk.old) }
    ensures cause { HasFault (D.faults disk.old) (D.faults disk.new) result }
{
    whole(alloc, disk, area)
}

fn whole<D: Disk>(alloc: Global, disk: &mut D, area: Which) -> Result<Option<Area>, AreaFault>
    ensures told { IfSome (D.seen disk.old) (λ both. Tells area (area_of (held area both)) result) }
    ensures seen { D.seen disk.new ≡ D.seen disk.old }
    ensures any_moment { LeavesOnly D.moment D.left_since D.may_leave disk.old disk.new (D.may_leave disk.old) }
    ensures cause { HasFault (D.faults disk.old) (D.faults disk.new) result }
{
    match head(disk, area)? {
        None => Ok(None),
        Some(head) => behind_head(alloc, disk, area, head.number),
    }
}

/// An open area with this save number.
fn behind_head<D: Disk>(
    alloc: Global,
    disk: &mut D,
    area: Which,
    number: u64,
) -> Result<Option<Area>, AreaFault>
    ensures told { IfSome (D.seen disk.old) (λ both. Tells area (with_image number (held area both) (image_of (held area both))) result) }
    ensures seen { D.seen disk.new ≡ D.seen disk.old }
    ensures any_moment { LeavesOnly D.moment D.left_since D.may_leave disk.old disk.new (D.may_leave disk.old) }
    ensures cause { HasFault (D.faults disk.old) (D.faults disk.new) result }
{
    let image = image_piece(alloc, disk, area)?;
    let (records, end) = records_behind(alloc, disk, area, image.gate)?;
    Ok(Some(Area {
        number,
        image: image.body,
        records,
        end,
    }))
}

/// The bodies of the records from a gate on, and where they end.
fn records_behind<D: Disk>(
    alloc: Global,
    disk: &mut D,
    area: Which,
    gate: u64,
) -> Result<(Bodies, Result<u64, (u64, DamageCause)>), AreaFault>
    ensures told { IfSome (D.seen disk.old) (λ both. Tells area (Ok (records_from (length (held area both)) (held area both) gate)) result) }
    ensures seen { D.seen disk.new ≡ D.seen disk.old }
    ensures any_moment { LeavesOnly D.moment D.left_since D.may_leave disk.old disk.new (D.may_leave disk.old) }
    ensures cause { HasFault (D.faults disk.old) (D.faults disk.new) result }
{
    let most = size(disk, area)?;
    let mut bodies = Bodies::empty(alloc);
    let mut gate = gate;
    for _step in 0..most {
        match record_piece(alloc, disk, area, gate) {
            Ok(Some(piece)) => {
                bodies.push(piece.body)?;
                gate = piece.gate;
            }
            Ok(None) => return Ok((bodies, Ok(gate))),
            Err(fault) => return stopped(bodies, fault),
        }
    }
    Ok((bodies, Ok(gate)))
}

/// What is told of records before one that has this fault.
fn stopped(
    bodies: Bodies,
    fault: AreaFault,
) -> Result<(Bodies, Result<u64, (u64, DamageCause)>), AreaFault>
    ensures damaged { (damage : Damage) → fault ≡ Damaged damage → result ≡ Ok (bodies, Err (damage.at, damage.cause)) }
    ensures disk { fault ≡ AreaFault.Disk → result ≡ Err AreaFault.Disk }
    ensures memory { fault ≡ Memory → result ≡ Err Memory }
{
    match fault {
        AreaFault::Damaged(damage) => Ok((bodies, Err((damage.at, damage.cause)))),
        AreaFault::Disk => Err(AreaFault::Disk),
        AreaFault::Memory => Err(AreaFault::Memory),
    }
}
