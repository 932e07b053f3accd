// What both areas hold, looked at without opening a store.
ghost use Rattle.std.specs.Prelude.{◌≡◌, IfOk, IfErr, IfSome, MatchResult};
ghost use Rattle.ws_outside.specs.Disk.{LeavesOnly};
ghost use Rattle.save_store.specs.Damages.{IsDamaged, OfTexts, Spoils, TellsDamage, FaultOf};
ghost use Rattle.save_store.specs.Looks.{counted, records_of, CountsIn, Counts, SpoilsChosen, IsLookedAt};

use crate::OpenFault;
use crate::looking::judge;
use area_pair::{Holding, Holdings};
use disk_area::{Area, Damage, DamageCause};
use std::alloc::Global;
use ws_outside::{Disk, Which};

/// What both areas hold: of each that is open its save number and how many records were read in it, the area that decides,
/// and how many elements the tree has that it holds.
#[derive(Clone, Copy, Debug, PartialEq, Eq)]
pub struct Found {
    pub left: Option<(u64, u64)>,
    pub right: Option<(u64, u64)>,
    pub chosen: Option<Which>,
    pub elements: u64,
}

/// How many records were read.
fn count(area: &Result<Option<Area>, (u64, DamageCause)>) -> u64
    ensures { result ≡ records_of area.now }
{
    match area {
        Ok(Some(whole)) => whole.records.as_slice().len() as u64,
        Ok(None) | Err(_) => 0,
    }
}

/// The save number of an area that is open, and how many records were read in it.
fn counts(holding: &Holding) -> Option<(u64, u64)>
    ensures { result ≡ counted holding.now.head holding.now.area }
{
    match holding.head {
        None => None,
        Some(head) => Some((head.number, count(&holding.area))),
    }
}

/// How many elements the tree has for which the area stands.
fn elements_in(
    alloc: Global,
    area: Which,
    read: Result<Option<Area>, (u64, DamageCause)>,
) -> Result<u64, OpenFault>
    ensures ok { IfOk result (CountsIn read) }
    ensures damaged { IfErr result (OfTexts (Spoils area read)) }
{
    match read {
        Ok(None) => Ok(1),
        Ok(Some(whole)) => Ok(judge(alloc, area, whole)?.tree.len() as u64),
        Err((at, cause)) => Err(OpenFault::Damaged(Damage { area, at, cause })),
    }
}

/// How many elements the tree has that both areas hold.
fn elements_of(alloc: Global, chosen: Option<Which>, holdings: Holdings) -> Result<u64, OpenFault>
    ensures ok { IfOk result (Counts chosen holdings.left.area holdings.right.area) }
    ensures damaged { IfErr result (OfTexts (SpoilsChosen chosen holdings.left.area holdings.right.area)) }
{
    let Holdings { left, right } = holdings;
    match chosen {
        None => Ok(1),
        Some(Which::Left) => elements_in(alloc, Which::Left, left.area),
        Some(Which::Right) => elements_in(alloc, Which::Right, right.area),
    }
}

/// What both areas hold, or their first damage.
pub(crate) fn look<D: Disk>(alloc: Global, disk: &mut D) -> Result<Found, OpenFault>
    ensures found { IfOk result (λ found. IfSome (D.seen disk.old) (λ both. IsLookedAt both found)) }
    ensures damaged { IfErr result (λ fault. IfSome (D.seen disk.old) (λ both. TellsDamage (IsDamaged both) fault)) }
    ensures seen { D.seen disk.new ≡ D.seen disk.old }
    ensures any_moment { LeavesOnly D.moment D.left_since D.may_leave disk.old disk.new (D.may_leave disk.old) }
    ensures cause { MatchResult result (λ _. D.faults disk.new ≡ D.faults disk.old) (FaultOf (D.faults disk.old) (D.faults disk.new)) }
{
    let holdings = area_pair::check(alloc, disk)?;
    let chosen = holdings.chosen();
    let left = counts(&holdings.left);
    let right = counts(&holdings.right);
    let elements = elements_of(alloc, chosen, holdings)?;
    Ok(Found {
        left,
        right,
        chosen,
        elements,
    })
}
