// What stands in two areas.
ghost use Rattle.std.specs.Prelude.{◌≡◌, ◌≤◌, Some, None, Ok, IfOk, IfErr, IfSome, OnOk, MatchResult, if◌then◌else◌, nat_lt};
ghost use Rattle.ws_outside.specs.Disk.{held, Each, LeavesOnly};
ghost use Rattle.ws_outside.specs.Faults.{HasCause};
ghost use Rattle.disk_area.specs.declared.damage.AreaFault.TheVariants.{Disk};
ghost use Rattle.disk_area.specs.Reading.{HasFault};
ghost use Rattle.ws_outside.specs.declared.contents.Which.TheVariants.{Left, Right};
ghost use Rattle.area_pair.specs.Found.{is_shut as shut_of, ended_of, TellsEnd, HasDamage, IsFound};
ghost use Rattle.area_pair.specs.Reads.{heads_of, chosen, TellsBoth};

use crate::Texts;
use disk_area::{Area, AreaFault, Damage, Head, head, read_area};
use std::alloc::Global;
use ws_outside::{Disk, Failed, Which};

/// What stands in two areas: the head of each that is open, whether there is a byte other than 01 at its front, and the
/// texts of the chosen one with the place of the closed gate behind them.
#[derive(Drop)]
pub struct Found {
    pub heads: (Option<Head>, Option<Head>),
    pub left_shut: bool,
    pub right_shut: bool,
    pub ended: Option<(u64, Texts)>,
}

/// Brings both areas to the device, so that a crash leaves what they read as.
fn sync_both<D: Disk>(disk: &mut D) -> Result<(), Failed>
    ensures durable { OnOk result (Each (D.may_leave disk.new) (λ c. D.seen disk.old ≡ Some c)) }
    ensures seen { D.seen disk.new ≡ D.seen disk.old }
    ensures any_moment { LeavesOnly D.moment D.left_since D.may_leave disk.old disk.new (D.may_leave disk.old) }
    ensures cause { HasCause (D.faults disk.old) (D.faults disk.new) result }
{
    disk.sync(Which::Left)?;
    disk.sync(Which::Right)
}

/// The heads of both areas.
pub(crate) fn heads<D: Disk>(disk: &mut D) -> Result<(Option<Head>, Option<Head>), AreaFault>
    ensures told { IfSome (D.seen disk.old) (λ both. TellsBoth (heads_of both) result) }
    ensures seen { D.seen disk.new ≡ D.seen disk.old }
    ensures any_moment { LeavesOnly D.moment D.left_since D.may_leave disk.old disk.new (D.may_leave disk.old) }
    ensures cause { HasFault (D.faults disk.old) (D.faults disk.new) result }
{
    let left = head(disk, Which::Left)?;
    let right = head(disk, Which::Right)?;
    Ok((left, right))
}

/// The area that decides.
pub fn choose(heads: (Option<Head>, Option<Head>)) -> Option<Which>
    ensures { result ≡ chosen heads }
{
    match heads {
        (None, None) => None,
        (None, Some(_)) => Some(Which::Right),
        (Some(_), None) => Some(Which::Left),
        (Some(left), Some(right)) => Some(greater(left.number, right.number)),
    }
}

fn greater(left: u64, right: u64) -> Which
    ensures { result ≡ (if nat_lt left right then Right else Left) }
{
    if left < right {
        Which::Right
    } else {
        Which::Left
    }
}

/// Whether there is a byte other than 01 at the front of an area.
fn shut<D: Disk>(disk: &mut D, area: Which) -> Result<bool, AreaFault>
    ensures told { IfOk result (λ is. IfSome (D.seen disk.old) (λ both. is ≡ shut_of (held area both))) }
    ensures fault { IfErr result (λ fault. fault ≡ Disk) }
    ensures seen { D.seen disk.new ≡ D.seen disk.old }
    ensures any_moment { LeavesOnly D.moment D.left_since D.may_leave disk.old disk.new (D.may_leave disk.old) }
    ensures cause { HasFault (D.faults disk.old) (D.faults disk.new) result }
{
    let mut front = [0u8; 1];
    match disk.read(area, 0, &mut front) {
        Ok(count) => Ok(is_shut(&front[..count])),
        Err(Failed) => Err(AreaFault::Disk),
    }
}

fn is_shut(front: &[u8]) -> bool
    ensures { result ≡ shut_of front.now }
{
    match front {
        [] => false,
        [gate, ..] => *gate != 1,
    }
}

/// What the chosen area is read as; None where there is none.
fn read_chosen<D: Disk>(
    alloc: Global,
    disk: &mut D,
    chosen: Option<Which>,
) -> Result<Option<(u64, Texts)>, AreaFault>
    ensures told { IfSome (D.seen disk.old) (λ both. TellsEnd both chosen result) }
    ensures seen { D.seen disk.new ≡ D.seen disk.old }
    ensures any_moment { LeavesOnly D.moment D.left_since D.may_leave disk.old disk.new (D.may_leave disk.old) }
    ensures cause { HasFault (D.faults disk.old) (D.faults disk.new) result }
{
    match chosen {
        None => Ok(None),
        Some(area) => read_texts(alloc, disk, area),
    }
}

/// The texts of an area, with the place of the closed gate behind them; None where it is closed.
fn read_texts<D: Disk>(
    alloc: Global,
    disk: &mut D,
    area: Which,
) -> Result<Option<(u64, Texts)>, AreaFault>
    ensures told { IfSome (D.seen disk.old) (λ both. TellsEnd both (Some area) result) }
    ensures seen { D.seen disk.new ≡ D.seen disk.old }
    ensures any_moment { LeavesOnly D.moment D.left_since D.may_leave disk.old disk.new (D.may_leave disk.old) }
    ensures cause { HasFault (D.faults disk.old) (D.faults disk.new) result }
{
    match read_area(alloc, disk, area)? {
        None => Ok(None),
        Some(whole) => ended(area, whole),
    }
}

/// The texts of an area that was read, or the damage at which its records end.
fn ended(area: Which, whole: Area) -> Result<Option<(u64, Texts)>, AreaFault>
    ensures { result ≡ ended_of area whole }
{
    let Area {
        image,
        records,
        end,
        ..
    } = whole;
    match end {
        Ok(gate) => Ok(Some((gate, Texts { image, records }))),
        Err((at, cause)) => Err(AreaFault::Damaged(Damage { area, at, cause })),
    }
}

/// Brings both areas to the device, and finds what stands in them.
pub fn find<D: Disk>(alloc: Global, disk: &mut D) -> Result<Found, AreaFault>
    ensures durable { IfOk result (λ _. Each (D.may_leave disk.new) (λ c. D.seen disk.old ≡ Some c)) }
    ensures found { IfOk result (λ found. IfSome (D.seen disk.old) (λ both. IsFound both found)) }
    ensures damaged { IfErr result (λ fault. IfSome (D.seen disk.old) (λ both. HasDamage both fault)) }
    ensures seen { D.seen disk.new ≡ D.seen disk.old }
    ensures any_moment { LeavesOnly D.moment D.left_since D.may_leave disk.old disk.new (D.may_leave disk.old) }
    ensures cause { HasFault (D.faults disk.old) (D.faults disk.new) result }
{
    sync_both(disk)?;
    let heads = heads(disk)?;
    let left_shut = shut(disk, Which::Left)?;
    let right_shut = shut(disk, Which::Right)?;
    let ended = read_chosen(alloc, disk, choose(heads))?;
    Ok(Found {
        heads,
        left_shut,
        right_shut,
        ended,
    })
}
