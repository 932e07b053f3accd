// What an area that was read stands for, or its first damage.
ghost use Rattle.std.specs.Prelude.{◌≡◌, ℕ, Ok, Err, Some, IfOk, IfErr, IfSome};
ghost use Rattle.ws_outside.specs.Disk.{LeavesOnly};
ghost use Rattle.ws_durable.specs.Saved.{saved};
ghost use Rattle.area_pair.specs.Reads.{reads};
ghost use Rattle.save_store.specs.Damages.{as_damage, cause_of, texts_of_area, SpoilsTexts, Spoils, IsDamaged, TellsDamage, OfTexts, FaultOf};
ghost use Rattle.save_store.specs.States.{StandFor};

use crate::OpenFault;
use crate::meaning::state_of;
use area_pair::Texts;
use disk_area::{Area, Damage, DamageCause, read_area};
use save_read::{ReadError, TextCause};
use std::alloc::Global;
use ws_durable::Durable;
use ws_outside::{Disk, Which};

fn damage_cause(cause: TextCause) -> DamageCause
    ensures { result ≡ cause_of cause }
{
    match cause {
        TextCause::BadText => DamageCause::BadText,
        TextCause::BadState => DamageCause::BadState,
    }
}

/// A refusal of a text, as the damage of its area.
fn fault_of(area: Which, error: ReadError) -> OpenFault
    ensures { result ≡ as_damage area error }
{
    match error {
        ReadError::Bad { at, cause } => OpenFault::Damaged(Damage {
            area,
            at: at as u64,
            cause: damage_cause(cause),
        }),
        ReadError::Memory => OpenFault::Memory,
    }
}

/// The state that texts of this area stand for, or their first damage.
pub(crate) fn told(alloc: Global, area: Which, texts: &Texts) -> Result<Durable, OpenFault>
    ensures ok { IfOk result (λ d. StandFor texts.now (saved d)) }
    ensures damaged { IfErr result (OfTexts (SpoilsTexts area texts.now)) }
{
    match state_of(alloc, texts) {
        Ok(durable) => Ok(durable),
        Err(error) => Err(fault_of(area, error)),
    }
}

/// The state that an area stands for that was read, or its first damage.
pub(crate) fn judge(alloc: Global, area: Which, whole: Area) -> Result<Durable, OpenFault>
    ensures ok { IfOk result (λ d. (gate : ℕ) × (whole.end ≡ Ok gate) × StandFor (texts_of_area whole) (saved d)) }
    ensures damaged { IfErr result (OfTexts (Spoils area (Ok (Some whole)))) }
{
    let Area {
        image,
        records,
        end,
        ..
    } = whole;
    let texts = Texts { image, records };
    let durable = told(alloc, area, &texts)?;
    match end {
        Ok(_) => Ok(durable),
        Err((at, cause)) => Err(OpenFault::Damaged(Damage { area, at, cause })),
    }
}

/// The first damage of two areas that are damaged here, if no text before it is bad.
pub(crate) fn first_damage<D: Disk>(alloc: Global, disk: &mut D, damage: Damage) -> OpenFault
    ensures told { IfSome (D.seen disk.old) (λ both. reads both ≡ Err damage → TellsDamage (IsDamaged both) result) }
    ensures seen { D.seen disk.new ≡ D.seen disk.old }
    ensures any_moment { LeavesOnly D.moment D.left_since D.may_leave disk.old disk.new (D.may_leave disk.old) }
    ensures cause { FaultOf (D.faults disk.old) (D.faults disk.new) result }
{
    match read_area(alloc, disk, damage.area) {
        Ok(None) => OpenFault::Damaged(damage),
        Ok(Some(whole)) => match judge(alloc, damage.area, whole) {
            Ok(_) => OpenFault::Damaged(damage),
            Err(fault) => fault,
        },
        Err(fault) => OpenFault::from(fault),
    }
}
