// What both areas hold, looked at without opening a store.
ghost use Rattle.std.specs.Prelude.{◌≡◌, ◌⊎◌, Ok, IfOk, IfErr, IfSome};
ghost use Rattle.ws_outside.specs.Disk.{held, LeavesOnly};
ghost use Rattle.disk_area.specs.declared.damage.AreaFault.TheVariants.{Disk, Memory};
ghost use Rattle.disk_area.specs.Reading.{area_of, HasFault};
ghost use Rattle.area_pair.specs.Reads.{heads_of, chosen};
ghost use Rattle.area_pair.specs.Found.{HeadsDamaged};

use crate::opening::{choose, heads};
use disk_area::{Area, AreaFault, DamageCause, Head, read_area};
use std::alloc::Global;
use ws_outside::{Disk, Which};

/// What one area holds: its head, None where it is closed, and what it is read as, or the first damage of its image with
/// the place. Damage of its records stands in `Area`.
#[derive(Debug, Drop)]
pub struct Holding {
    pub head: Option<Head>,
    pub area: Result<Option<Area>, (u64, DamageCause)>,
}

/// What both areas hold.
#[derive(Debug, Drop)]
pub struct Holdings {
    pub left: Holding,
    pub right: Holding,
}

impl Holdings {
    /// The area that decides: the open one, of two that with the greater number, on a tie the left one.
    pub fn chosen(&self) -> Option<Which>
        ensures { result ≡ chosen (self.now.left.head, self.now.right.head) }
    {
        choose((self.left.head, self.right.head))
    }
}

/// What both areas hold. Damaged comes exactly where a head is damaged, and is the damage of the left one, or else of the
/// right one; what is wrong behind a head stands in the answer. Disk comes exactly where the disk's count of faults rose in
/// this call, and Memory where the bytes of a text weren't to be had. The disk is as before.
pub fn check<D: Disk>(alloc: Global, disk: &mut D) -> Result<Holdings, AreaFault>
    ensures heads { IfOk result (λ h. IfSome (D.seen disk.old) (λ both. heads_of both ≡ Ok (h.left.head, h.right.head))) }
    ensures left { IfOk result (λ h. IfSome (D.seen disk.old) (λ both. h.left.area ≡ area_of both.left)) }
    ensures right { IfOk result (λ h. IfSome (D.seen disk.old) (λ both. h.right.area ≡ area_of both.right)) }
    ensures damaged { IfErr result (λ fault. IfSome (D.seen disk.old) (λ both. HeadsDamaged both fault)) }
    ensures seen { D.seen disk.new ≡ D.seen disk.old }
    ensures any_moment { LeavesOnly D.moment D.left_since D.may_leave disk.old disk.new (D.may_leave disk.old) }
    ensures cause { HasFault (D.faults disk.old) (D.faults disk.new) result }
{
    let (left, right) = heads(disk)?;
    let left = hold(alloc, disk, Which::Left, left)?;
    let right = hold(alloc, disk, Which::Right, right)?;
    Ok(Holdings { left, right })
}

/// What an area with this head holds.
fn hold<D: Disk>(
    alloc: Global,
    disk: &mut D,
    area: Which,
    head: Option<Head>,
) -> Result<Holding, AreaFault>
    ensures head { IfOk result (λ h. h.head ≡ head) }
    ensures told { IfOk result (λ h. IfSome (D.seen disk.old) (λ both. h.area ≡ area_of (held area both))) }
    ensures fault { IfErr result (λ fault. (fault ≡ Disk) ⊎ (fault ≡ Memory)) }
    ensures seen { D.seen disk.new ≡ D.seen disk.old }
    ensures any_moment { LeavesOnly D.moment D.left_since D.may_leave disk.old disk.new (D.may_leave disk.old) }
    ensures cause { HasFault (D.faults disk.old) (D.faults disk.new) result }
{
    match read_area(alloc, disk, area) {
        Ok(whole) => Ok(Holding {
            head,
            area: Ok(whole),
        }),
        Err(AreaFault::Damaged(damage)) => Ok(Holding {
            head,
            area: Err((damage.at, damage.cause)),
        }),
        Err(AreaFault::Disk) => Err(AreaFault::Disk),
        Err(AreaFault::Memory) => Err(AreaFault::Memory),
    }
}
