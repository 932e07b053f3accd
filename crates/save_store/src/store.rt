// The store of what a workspace keeps.
ghost use Rattle.std.specs.Prelude.{◌≡◌, ◌≤◌, ◌+◌, ◌++◌, ℕ, List, [], ◌∷◌, Ok, Err, Some, OnOk, OnErr, IfOk, IfErr, IfSome, MatchResult, option_map, is_some, true, false, Option};
ghost use Rattle.ws_outside.specs.Disk.{beside, Each, LeavesOnly};
ghost use Rattle.ws_durable.specs.Saved.{Saved, saved};
ghost use Rattle.save_format.specs.Valid.{Valid, IsImage};
ghost use Rattle.area_pair.specs.declared.texts.Texts.{Texts as TextsValue};
ghost use Rattle.disk_area.specs.declared.damage.Damage.{Damage};
ghost use Rattle.area_pair.specs.Reads.{other, reads};
ghost use Rattle.area_store.specs.Begun.{IsBegun};
ghost use Rattle.area_store.specs.Kept.{IsKept};
ghost use Rattle.save_store.specs.Damages.{IsDamaged, IsUndamaged, OfTexts, SpoilsTexts, TellsDamage, FaultOf as OpenFaultOf};
ghost use Rattle.save_store.specs.Looks.{IsLookedAt};
ghost use Rattle.save_store.specs.States.{Mean, Holds, HoldsOne};
ghost use Rattle.save_store.specs.Stored.{IsStored, IsNarrow, Fits, HasNumber, FailsFull, FaultOf, IsFull, IsSaved};
ghost use Rattle.save_store.specs.declared.faults.SaveFault.TheVariants.{Memory};

use crate::fresh::fresh;
use crate::look::{Found, look};
use crate::looking::{first_damage, told};
use crate::saves::Saves;
use crate::{OpenFault, SaveFault};
use area_pair::Texts;
use area_store::AreaStore;
use disk_area::AreaFault;
use std::alloc::Global;
use std::marker::Model;
use ws_durable::Durable;
use ws_outside::{Disk, Which};

/// The store of what a workspace keeps, over a disk's two areas. A contract sees what it knows, the disk included.
///
/// At every moment each crash image of the areas holds the state that was acknowledged last, by opening or by a save that
/// answered Ok, or one whose save was begun after it.
#[derive(Drop)]
pub struct Store<D: Disk> {
    saves: Saves<D>,
}

impl<D: Disk> Model for Store<D> {
    ghost use Rattle.std.specs.Prelude.{List};
    ghost use Rattle.std.specs.Coded.{codes};
    ghost use Rattle.ws_durable.specs.Saved.{Saved};
    ghost use Rattle.ws_durable.specs.contracts.durable.Durable as durable;
    ghost use Rattle.save_store.specs.declared.saves.Saves.{Saves};
    ghost use Rattle.save_store.specs.Stored.{IsStored};

    ghost Value = { Saves D };

    ghost coded = { Prim.hlevel (codes, durable.the_row.coded) };

    ghost view = { λ s. s.saves };

    ghost invariant = { λ s. (begun : List Saved) × IsStored D.may_leave begun s.saves };
}

/// What a store is opened to: the fresh workspace where there are no texts.
fn state_in(alloc: Global, area: Which, texts: Option<Texts>) -> Result<Durable, OpenFault>
    ensures ok { IfOk result (λ d. Mean texts (saved d)) }
    ensures damaged { IfErr result (OfTexts (λ d. (t : TextsValue) × (texts ≡ Some t) × SpoilsTexts area t d)) }
{
    match texts {
        None => Ok(fresh(alloc)?),
        Some(texts) => told(alloc, area, &texts),
    }
}

/// The same twice.
fn meant(alloc: Global, area: Which, texts: Option<Texts>) -> Result<(Durable, Durable), OpenFault>
    ensures ok { IfOk result (λ both. Mean texts (saved both.0) × (both.1 ≡ both.0)) }
    ensures damaged { IfErr result (OfTexts (λ d. (t : TextsValue) × (texts ≡ Some t) × SpoilsTexts area t d)) }
{
    let durable = state_in(alloc, area, texts)?;
    let copy = durable.copy()?;
    Ok((durable, copy))
}

impl<D: Disk> Store<D> {
    /// A store over areas that were opened to these texts.
    fn over(
        alloc: Global,
        areas: AreaStore<D>,
        texts: Option<Texts>,
    ) -> Result<(Store<D>, Durable), (OpenFault, D)>
        requires kept { IsKept D.may_leave texts [] areas }
        requires gate { is_some areas.gate ≡ is_some texts }
        ensures areas { IfOk result (λ o. o.0.areas ≡ areas) }
        ensures last { IfOk result (λ o. o.0.last ≡ o.1) }
        ensures means { IfOk result (λ o. Mean texts (saved o.1)) }
        ensures valid { IfOk result (λ o. Valid (saved o.1)) }
        ensures kept { IfOk result (λ o. IsStored D.may_leave [] o.0) }
        ensures sound { IfOk result (λ o. o.0.failed ≡ false) }
        ensures damaged { IfErr result (λ e. OfTexts (λ d. (t : TextsValue) × (texts ≡ Some t) × SpoilsTexts areas.home t d) e.0) }
        ensures disk { IfErr result (λ e. e.1 ≡ areas.disk) }
    {
        match meant(alloc, areas.home(), texts) {
            Ok((last, durable)) => Ok((
                Store {
                    saves: Saves {
                        areas,
                        last,
                        failed: false,
                    },
                },
                durable,
            )),
            Err(fault) => Err((fault, areas.into_disk())),
        }
    }

    /// Opens a store over what two areas hold, and gives the state of the area that decides: the open one, of two that with
    /// the greater number, on a tie the left one; the fresh workspace where none is open. It brings both areas to the device
    /// first, and leaves what they hold, whatever it answers.
    ///
    /// Damaged comes exactly where the areas have that damage, of which there is one: the first of the left head, of the right head, and then of the
    /// chosen area in the order of its bytes: of one text it is told that it is cut short, that its digest is another, that it
    /// can't go on, or that it tells no state. Disk comes exactly where the disk's count of faults rose in this call. With a
    /// fault the disk is given back.
    pub fn open(alloc: Global, disk: D) -> Result<(Store<D>, Durable), (OpenFault, D)>
        ensures holds { IfOk result (λ o. IfSome (D.seen disk) (λ both. Holds both (saved o.1))) }
        ensures leaves { IfOk result (λ o. Each (D.may_leave o.0.areas.disk) (λ c. Holds c (saved o.1))) }
        ensures only { IfSome (D.seen disk) (λ both. (d : Saved) → Holds both d → MatchResult result (λ o. d ≡ saved o.1) (λ e. IsUndamaged e.0)) }
        ensures valid { IfOk result (λ o. Valid (saved o.1)) }
        ensures kept { IfOk result (λ o. IsStored D.may_leave [] o.0) }
        ensures last { IfOk result (λ o. o.0.last ≡ o.1) }
        ensures sound { IfOk result (λ o. o.0.failed ≡ false) }
        ensures gate { IfOk result (λ o. IfSome (D.seen disk) (λ both. IfOk (reads both) (λ texts. is_some o.0.areas.gate ≡ is_some texts))) }
        ensures synced { IfOk result (λ o. Each (D.may_leave o.0.areas.disk) (λ c. D.seen disk ≡ Some c)) }
        ensures chosen { IfOk result (λ o. IfSome (D.seen disk) (λ both. IsBegun both o.0.areas)) }
        ensures damaged { IfErr result (λ e. IfSome (D.seen disk) (λ both. TellsDamage (IsDamaged both) e.0)) }
        ensures spoilt { IfSome (D.seen disk) (λ both. (d : Damage) → IsDamaged both d → MatchResult result (λ _. ⊥) (λ e. TellsDamage (λ x. x ≡ d) e.0)) }
        ensures seen { MatchResult result (λ o. D.seen o.0.areas.disk ≡ D.seen disk) (λ e. D.seen e.1 ≡ D.seen disk) }
        ensures any_moment { MatchResult result (λ o. LeavesOnly D.moment D.left_since D.may_leave disk o.0.areas.disk (D.may_leave disk)) (λ e. LeavesOnly D.moment D.left_since D.may_leave disk e.1 (D.may_leave disk)) }
        ensures cause { MatchResult result (λ o. D.faults o.0.areas.disk ≡ D.faults disk) (λ e. OpenFaultOf (D.faults disk) (D.faults e.1) e.0) }
    {
        match AreaStore::open(alloc, disk) {
            Ok((areas, texts)) => Store::over(alloc, areas, texts),
            Err((AreaFault::Damaged(damage), disk)) => {
                let mut disk = disk;
                let fault = first_damage(alloc, &mut disk, damage);
                Err((fault, disk))
            }
            Err((AreaFault::Disk, disk)) => Err((OpenFault::Disk, disk)),
            Err((AreaFault::Memory, disk)) => Err((OpenFault::Memory, disk)),
        }
    }

    /// Writes the state as a full save: its image, with no record, into the area that isn't acknowledged, with a number one
    /// greater than the greatest that was read or written. It asks that the state is valid, where it is narrow. Its faults:
    /// TooLarge exactly where the image with its header and its gate passes 1,073,741,824 bytes, or the state isn't narrow;
    /// NumbersUsed exactly where the number would pass 2^63 - 1, and TooLarge doesn't come; Disk exactly where the disk's count
    /// of faults rose in this call. Memory may come before the first call on the disk, in place of each of these.
    ///
    /// At every moment since the call began each crash image holds a state that it could hold before, or this one. After Ok
    /// it holds this one. After a fault the store can be used, and its next save is a full one. Whatever it answers, the
    /// greatest number that was read or written is the same, or one greater.
    pub fn full(&mut self, alloc: Global, now: &Durable) -> Result<(), SaveFault>
        requires { IsNarrow now.now → Valid (saved now.now) }
        ensures any_moment { (begun : List Saved) → IsStored D.may_leave begun self.old
            → LeavesOnly D.moment D.left_since D.may_leave self.old.areas.disk self.new.areas.disk (HoldsOne (saved self.old.last ∷ begun ++ saved now.now ∷ [])) }
        ensures leaves { OnOk result (Each (D.may_leave self.new.areas.disk) (λ c. Holds c (saved now.now))) }
        ensures saved { OnOk result (IsStored D.may_leave [] self.new) }
        ensures unsaved { OnErr result ((begun : List Saved) → IsStored D.may_leave begun self.old → IsStored D.may_leave (begun ++ saved now.now ∷ []) self.new) }
        ensures full { OnOk result ((image : List ℕ) × IsImage (saved now.now) image × IsFull D.seen image self.old self.new) }
        ensures last { OnOk result (self.new.last ≡ now.now) }
        ensures stays { OnErr result ((self.new.last ≡ self.old.last) × (self.new.areas.home ≡ self.old.areas.home)) }
        ensures sound { OnOk result (self.new.failed ≡ false) }
        ensures failed { OnErr result (self.new.failed ≡ true) }
        ensures risen { (self.old.areas.top ≤ self.new.areas.top) × (self.new.areas.top ≤ self.old.areas.top + 1) }
        ensures beside { option_map (beside (other self.old.areas.home)) (D.seen self.new.areas.disk) ≡ option_map (beside (other self.old.areas.home)) (D.seen self.old.areas.disk) }
        ensures limits { MatchResult result (λ _. Fits now.now × HasNumber self.old.areas.top) (FailsFull now.now self.old.areas.top) }
        ensures unwritten { result ≡ Err Memory → self.new ≡ record self.old { failed = true } }
        ensures cause { MatchResult result (λ _. D.faults self.new.areas.disk ≡ D.faults self.old.areas.disk) (FaultOf (D.faults self.old.areas.disk) (D.faults self.new.areas.disk)) }
    {
        self.saves.full(alloc, now)
    }

    /// Writes the state as a record behind the acknowledged texts, against the acknowledged state; or as a full save where
    /// no area is acknowledged, the last save failed, the area would pass 1,073,741,824 bytes, or the state isn't narrow. It
    /// asks that the state is valid, where it is narrow. Its faults are those of a full save where it is one; else Disk
    /// exactly where the disk's count of faults rose in this call, and Memory before the first call on the disk.
    ///
    /// At every moment since the call began each crash image holds a state that it could hold before, or this one. After Ok
    /// it holds this one. After a fault the store can be used, and its next save is a full one. Whatever it answers, the
    /// greatest number that was read or written is the same, or one greater. A record costs its own bytes, the comparison of
    /// the two states, and two syncs.
    pub fn snapshot(&mut self, alloc: Global, now: &Durable) -> Result<(), SaveFault>
        requires { IsNarrow now.now → Valid (saved now.now) }
        ensures any_moment { (begun : List Saved) → IsStored D.may_leave begun self.old
            → LeavesOnly D.moment D.left_since D.may_leave self.old.areas.disk self.new.areas.disk (HoldsOne (saved self.old.last ∷ begun ++ saved now.now ∷ [])) }
        ensures leaves { OnOk result (Each (D.may_leave self.new.areas.disk) (λ c. Holds c (saved now.now))) }
        ensures saved { OnOk result (IsStored D.may_leave [] self.new) }
        ensures unsaved { OnErr result ((begun : List Saved) → IsStored D.may_leave begun self.old → IsStored D.may_leave (begun ++ saved now.now ∷ []) self.new) }
        ensures how { IsSaved D.seen now.now self.old self.new result }
        ensures last { OnOk result (self.new.last ≡ now.now) }
        ensures stays { OnErr result ((self.new.last ≡ self.old.last) × (self.new.areas.home ≡ self.old.areas.home)) }
        ensures sound { OnOk result (self.new.failed ≡ false) }
        ensures failed { OnErr result (self.new.failed ≡ true) }
        ensures risen { (self.old.areas.top ≤ self.new.areas.top) × (self.new.areas.top ≤ self.old.areas.top + 1) }
        ensures unwritten { result ≡ Err Memory → self.new ≡ record self.old { failed = true } }
        ensures cause { MatchResult result (λ _. D.faults self.new.areas.disk ≡ D.faults self.old.areas.disk) (FaultOf (D.faults self.old.areas.disk) (D.faults self.new.areas.disk)) }
    {
        self.saves.snapshot(alloc, now)
    }

    /// What both areas hold, without opening a store: of each that is open its save number and how many records were read
    /// in it, the area that decides, and how many elements the tree has of the state that they hold. In an open area that
    /// doesn't decide records are read up to the first that is Truncated or has a BadDigest, none where its image is; texts
    /// there are not looked at. It brings nothing to the device, and leaves what the areas hold.
    ///
    /// Damaged comes exactly as at `open`, and Disk exactly where the disk's count of faults rose in this call.
    pub fn check(alloc: Global, disk: &mut D) -> Result<Found, OpenFault>
        ensures found { IfOk result (λ found. IfSome (D.seen disk.old) (λ both. IsLookedAt both found)) }
        ensures damaged { IfErr result (λ fault. IfSome (D.seen disk.old) (λ both. TellsDamage (IsDamaged both) fault)) }
        ensures spoilt { IfSome (D.seen disk.old) (λ both. (d : Damage) → IsDamaged both d → MatchResult result (λ _. ⊥) (TellsDamage (λ x. x ≡ d))) }
        ensures seen { D.seen disk.new ≡ D.seen disk.old }
        ensures any_moment { LeavesOnly D.moment D.left_since D.may_leave disk.old disk.new (D.may_leave disk.old) }
        ensures cause { MatchResult result (λ _. D.faults disk.new ≡ D.faults disk.old) (OpenFaultOf (D.faults disk.old) (D.faults disk.new)) }
    {
        look(alloc, disk)
    }

    /// The disk.
    pub fn into_disk(self) -> D
        ensures disk { result ≡ self.areas.disk }
        ensures holds { (begun : List Saved) → IsStored D.may_leave begun self → Each (D.may_leave result) (HoldsOne (saved self.last ∷ begun)) }
    {
        let Store { saves } = self;
        let Saves { areas, .. } = saves;
        areas.into_disk()
    }
}
