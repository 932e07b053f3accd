// What a store knows, and how saves are written.
ghost use Rattle.std.specs.Prelude.{◌≡◌, ◌≤◌, ◌<◌, ◌+◌, ◌-◌, ◌^◌, ◌++◌, ◌⊎◌, ℕ, List, [], ◌∷◌, length, Ok, Err, OnOk, OnErr, IfOk, IfErr, IfSome, None, MatchResult, option_map, true, false};
ghost use Rattle.ws_outside.specs.Disk.{beside, LeavesOnly};
ghost use Rattle.ws_durable.specs.Saved.{Saved, saved};
ghost use Rattle.save_format.specs.Valid.{Valid, IsImage};
ghost use Rattle.area_pair.specs.Reads.{other};
ghost use Rattle.save_store.specs.States.{HoldsOne};
ghost use Rattle.save_store.specs.Stored.{IsStored, IsNarrow, Fits, IsTooLarge, HasNumber, FailsFull, FaultOf, IsFull, IsAdded, HasRecord, AsksFull, IsSaved, room_for};
ghost use Rattle.save_store.specs.declared.faults.SaveFault.TheVariants.{Disk, Memory, TooLarge};

use crate::SaveFault;
use area_store::AreaStore;
use save_format::{image, narrow, record};
use std::alloc::Global;
use ws_durable::Durable;
use ws_elem::NoMemory;
use ws_outside::Disk;

/// What a store knows.
#[derive(Drop)]
pub struct Saves<D: Disk> {
    /// The areas.
    pub areas: AreaStore<D>,
    /// The state that was acknowledged last, by opening or by a save that answered Ok.
    pub last: Durable,
    /// Whether the last save failed.
    pub failed: bool,
}

/// The image of a state, with a copy of the state. Refused with TooLarge exactly where it is not narrow.
fn prepare(alloc: Global, now: &Durable) -> Result<(Vec<u8>, Durable), SaveFault>
    requires { IsNarrow now.now → Valid (saved now.now) }
    ensures image { IfOk result (λ made. IsImage (saved now.now) made.0.items) }
    ensures copy { IfOk result (λ made. made.1 ≡ now.now) }
    ensures fault { IfErr result (λ fault. (fault ≡ Memory) ⊎ ((fault ≡ TooLarge) × (IsNarrow now.now → ⊥))) }
{
    if !narrow(alloc, now) {
        return Err(SaveFault::TooLarge);
    }
    let text = image(alloc, now)?;
    let copy = now.copy()?;
    Ok((text, copy))
}

impl<D: Disk> Saves<D> {
    /// Writes the image of a state as a full save.
    fn write(&mut self, image: &[u8], last: Durable) -> Result<(), SaveFault>
        requires { IsImage (saved last) image.now }
        ensures any_moment { (begun : List Saved) → IsStored D.may_leave begun self.old
            → LeavesOnly D.moment D.left_since D.may_leave self.old.areas.disk self.new.areas.disk (HoldsOne (saved self.old.last ∷ begun ++ saved last ∷ [])) }
        ensures saved { OnOk result ((begun : List Saved) → IsStored D.may_leave begun self.old → IsStored D.may_leave [] self.new) }
        ensures unsaved { OnErr result ((begun : List Saved) → IsStored D.may_leave begun self.old → IsStored D.may_leave (begun ++ saved last ∷ []) self.new) }
        ensures full { OnOk result (IsFull D.seen image.now self.old self.new) }
        ensures last { OnOk result (self.new.last ≡ last) }
        ensures stays { OnErr result ((self.new.last ≡ self.old.last) × (self.new.areas.home ≡ self.old.areas.home)) }
        ensures sound { OnOk result (self.new.failed ≡ false) }
        ensures failed { OnErr result (self.new.failed ≡ true) }
        ensures risen { (self.old.areas.top ≤ self.new.areas.top) × (self.new.areas.top ≤ self.old.areas.top + 1) }
        ensures beside { option_map (beside (other self.old.areas.home)) (D.seen self.new.areas.disk) ≡ option_map (beside (other self.old.areas.home)) (D.seen self.old.areas.disk) }
        ensures limits { MatchResult result (λ _. Fits last × HasNumber self.old.areas.top) (FailsFull last self.old.areas.top) }
        ensures took_none { result ≡ Err Memory → ⊥ }
        ensures cause { MatchResult result (λ _. D.faults self.new.areas.disk ≡ D.faults self.old.areas.disk) (FaultOf (D.faults self.old.areas.disk) (D.faults self.new.areas.disk)) }
    {
        self.failed = true;
        self.areas.full(image)?;
        self.last = last;
        self.failed = false;
        Ok(())
    }

    /// Writes the state as a full save.
    pub(crate) fn full(&mut self, alloc: Global, now: &Durable) -> Result<(), SaveFault>
        requires { IsNarrow now.now → Valid (saved now.now) }
        ensures any_moment { (begun : List Saved) → IsStored D.may_leave begun self.old
            → LeavesOnly D.moment D.left_since D.may_leave self.old.areas.disk self.new.areas.disk (HoldsOne (saved self.old.last ∷ begun ++ saved now.now ∷ [])) }
        ensures saved { OnOk result ((begun : List Saved) → IsStored D.may_leave begun self.old → IsStored D.may_leave [] self.new) }
        ensures unsaved { OnErr result ((begun : List Saved) → IsStored D.may_leave begun self.old → IsStored D.may_leave (begun ++ saved now.now ∷ []) self.new) }
        ensures full { OnOk result ((image : List ℕ) × IsImage (saved now.now) image × IsFull D.seen image self.old self.new) }
        ensures last { OnOk result (self.new.last ≡ now.now) }
        ensures stays { OnErr result ((self.new.last ≡ self.old.last) × (self.new.areas.home ≡ self.old.areas.home)) }
        ensures sound { OnOk result (self.new.failed ≡ false) }
        ensures failed { OnErr result (self.new.failed ≡ true) }
        ensures risen { (self.old.areas.top ≤ self.new.areas.top) × (self.new.areas.top ≤ self.old.areas.top + 1) }
        ensures beside { option_map (beside (other self.old.areas.home)) (D.seen self.new.areas.disk) ≡ option_map (beside (other self.old.areas.home)) (D.seen self.old.areas.disk) }
        ensures limits { MatchResult result (λ _. Fits now.now × HasNumber self.old.areas.top) (FailsFull now.now self.old.areas.top) }
        ensures unwritten { result ≡ Err Memory → self.new ≡ record self.old { failed = true } }
        ensures cause { MatchResult result (λ _. D.faults self.new.areas.disk ≡ D.faults self.old.areas.disk) (FaultOf (D.faults self.old.areas.disk) (D.faults self.new.areas.disk)) }
    {
        self.failed = true;
        let (text, last) = prepare(alloc, now)?;
        self.write(text.as_slice(), last)
    }

    /// The most bytes that the body of a record may have, where one may be written.
    fn room(&self) -> Option<u64>
        ensures { result ≡ room_for self.now }
    {
        if self.failed {
            return None;
        }
        self.areas.room()
    }

    /// The record of a state against the acknowledged one, with a copy of the state, where it may be written behind the
    /// acknowledged texts; None where the state is to be written as a full save.
    fn record_of(
        &self,
        alloc: Global,
        now: &Durable,
    ) -> Result<Option<(Vec<u8>, Durable)>, NoMemory>
        requires last { Valid (saved self.now.last) }
        requires now { IsNarrow now.now → Valid (saved now.now) }
        ensures none { result ≡ Ok None → AsksFull self.now now.now }
        ensures some { IfOk result (λ made. IfSome made (λ m. HasRecord self.now now.now m.0.items × (m.1 ≡ now.now))) }
    {
        let room = match self.room() {
            None => return Ok(None),
            Some(room) => room,
        };
        if !narrow(alloc, now) {
            return Ok(None);
        }
        let body = record(alloc, &self.last, now)?;
        if body.len() as u64 > room {
            return Ok(None);
        }
        Ok(Some((body, now.copy()?)))
    }

    /// Writes a record behind the acknowledged texts.
    fn append(&mut self, body: &[u8], last: Durable) -> Result<(), SaveFault>
        requires { HasRecord self.old last body.now }
        ensures any_moment { (begun : List Saved) → IsStored D.may_leave begun self.old
            → LeavesOnly D.moment D.left_since D.may_leave self.old.areas.disk self.new.areas.disk (HoldsOne (saved self.old.last ∷ begun ++ saved last ∷ [])) }
        ensures saved { OnOk result ((begun : List Saved) → IsStored D.may_leave begun self.old → IsStored D.may_leave [] self.new) }
        ensures unsaved { OnErr result ((begun : List Saved) → IsStored D.may_leave begun self.old → IsStored D.may_leave (begun ++ saved last ∷ []) self.new) }
        ensures added { OnOk result (IsAdded D.seen body.now self.old self.new) }
        ensures last { OnOk result (self.new.last ≡ last) }
        ensures stays { OnErr result ((self.new.last ≡ self.old.last) × (self.new.areas.home ≡ self.old.areas.home)) }
        ensures sound { OnOk result (self.new.failed ≡ false) }
        ensures failed { OnErr result (self.new.failed ≡ true) }
        ensures risen { (self.old.areas.top ≤ self.new.areas.top) × (self.new.areas.top ≤ self.old.areas.top + 1) }
        ensures beside { option_map (beside self.old.areas.home) (D.seen self.new.areas.disk) ≡ option_map (beside self.old.areas.home) (D.seen self.old.areas.disk) }
        ensures disk { IfErr result (λ fault. fault ≡ Disk) }
        ensures cause { MatchResult result (λ _. D.faults self.new.areas.disk ≡ D.faults self.old.areas.disk) (FaultOf (D.faults self.old.areas.disk) (D.faults self.new.areas.disk)) }
    {
        self.failed = true;
        self.areas.snapshot(body)?;
        self.last = last;
        self.failed = false;
        Ok(())
    }

    /// Writes the state as a record, or as a full save where none may be written.
    pub(crate) fn snapshot(&mut self, alloc: Global, now: &Durable) -> Result<(), SaveFault>
        requires last { Valid (saved self.old.last) }
        requires now { IsNarrow now.now → Valid (saved now.now) }
        ensures any_moment { (begun : List Saved) → IsStored D.may_leave begun self.old
            → LeavesOnly D.moment D.left_since D.may_leave self.old.areas.disk self.new.areas.disk (HoldsOne (saved self.old.last ∷ begun ++ saved now.now ∷ [])) }
        ensures saved { OnOk result ((begun : List Saved) → IsStored D.may_leave begun self.old → IsStored D.may_leave [] self.new) }
        ensures unsaved { OnErr result ((begun : List Saved) → IsStored D.may_leave begun self.old → IsStored D.may_leave (begun ++ saved now.now ∷ []) self.new) }
        ensures how { IsSaved D.seen now.now self.old self.new result }
        ensures last { OnOk result (self.new.last ≡ now.now) }
        ensures stays { OnErr result ((self.new.last ≡ self.old.last) × (self.new.areas.home ≡ self.old.areas.home)) }
        ensures sound { OnOk result (self.new.failed ≡ false) }
        ensures failed { OnErr result (self.new.failed ≡ true) }
        ensures risen { (self.old.areas.top ≤ self.new.areas.top) × (self.new.areas.top ≤ self.old.areas.top + 1) }
        ensures unwritten { result ≡ Err Memory → self.new ≡ record self.old { failed = true } }
        ensures cause { MatchResult result (λ _. D.faults self.new.areas.disk ≡ D.faults self.old.areas.disk) (FaultOf (D.faults self.old.areas.disk) (D.faults self.new.areas.disk)) }
    {
        match self.record_of(alloc, now) {
            Ok(Some((body, last))) => self.append(body.as_slice(), last),
            Ok(None) => self.full(alloc, now),
            Err(_) => {
                self.failed = true;
                Err(SaveFault::Memory)
            }
        }
    }
}
