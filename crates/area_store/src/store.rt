// A store of texts over two areas.
ghost use Rattle.std.specs.Prelude.{◌≡◌, ◌≤◌, ◌<◌, ◌+◌, ◌-◌, ◌^◌, ◌++◌, ◌⊎◌, ◌↔◌, List, [], ◌∷◌, length, Ok, Err, OnOk, OnErr, MatchResult, IsSomeAnd, option_map, Some, true, false, is_some, IfOk, IfErr, IfSome};
ghost use Rattle.ws_outside.specs.Disk.{held, beside, holding, written, Each, LeavesOnly};
ghost use Rattle.ws_outside.specs.Faults.{HasCause};
ghost use Rattle.disk_area.specs.Reading as area;
ghost use Rattle.disk_area.specs.Area.{behind_gate, record_behind};
ghost use Rattle.area_pair.specs.Reads.{other, reads};
ghost use Rattle.area_pair.specs.Found.{HasDamage};
ghost use Rattle.area_store.specs.Begun.{IsBegun};
ghost use Rattle.area_store.specs.Kept.{Point, saved, recorded, gate_of, ReadsAs, IsKept, room_of, FaultOf};

use crate::SaveFault;
use crate::begin::begin;
use crate::desk::Desk;
use area_pair::{Texts, find};
use disk_area::AreaFault;
use std::alloc::Global;
use std::marker::Model;
use ws_outside::{Disk, Failed, Which};

/// A store of texts over a disk's two areas. A contract sees what it knows of them, the disk included.
///
/// At every moment each crash image of the areas is read as the texts that were acknowledged last, by opening or by a save
/// that answered Ok, or as those of a save that was begun after it.
#[derive(Drop)]
pub struct AreaStore<D: Disk> {
    desk: Desk<D>,
}

impl<D: Disk> Model for AreaStore<D> {
    ghost use Rattle.area_store.specs.declared.desk.Desk.{Desk};
    ghost use Rattle.area_pair.specs.Found.{HasDamage};
    ghost use Rattle.area_store.specs.Begun.{IsBegun};
    ghost use Rattle.area_store.specs.Kept.{IsSound};

    ghost Value = { Desk D };

    ghost view = { λ s. s.desk };

    ghost invariant = { λ s. IsSound D.may_leave s.desk };
}

impl<D: Disk> AreaStore<D> {
    /// Opens a store over what two areas hold, and gives the texts of the area that decides: the open one, of two that with
    /// the greater number, on a tie the left one; None where none is open. It brings both areas to the device first, and
    /// leaves what they hold, whatever it answers.
    ///
    /// Damaged comes exactly where the areas have that damage: the first of the left head, of the right head, of the chosen
    /// area's image, and of its records in their order. Disk comes exactly where the disk's count of faults rose in this
    /// call, and Memory where the bytes of the texts weren't to be had; then the disk is given back. Reads each byte of the
    /// texts once.
    pub fn open(alloc: Global, disk: D) -> Result<(AreaStore<D>, Option<Texts>), (AreaFault, D)>
        ensures texts { IfOk result (λ o. IfSome (D.seen disk) (λ both. reads both ≡ Ok o.1)) }
        ensures reads { IfOk result (λ o. Each (D.may_leave o.0.disk) (λ c. reads c ≡ Ok o.1)) }
        ensures kept { IfOk result (λ o. IsKept D.may_leave o.1 [] o.0) }
        ensures gate { IfOk result (λ o. is_some o.0.gate ≡ is_some o.1) }
        ensures sound { IfOk result (λ o. o.0.failed ≡ false) }
        ensures synced { IfOk result (λ o. Each (D.may_leave o.0.disk) (λ c. D.seen disk ≡ Some c)) }
        ensures chosen { IfOk result (λ o. IfSome (D.seen disk) (λ both. IsBegun both o.0)) }
        ensures damaged { IfErr result (λ e. IfSome (D.seen disk) (λ both. HasDamage both e.0)) }
        ensures seen { MatchResult result (λ o. D.seen o.0.disk ≡ D.seen disk) (λ e. D.seen e.1 ≡ D.seen disk) }
        ensures any_moment { MatchResult result (λ o. LeavesOnly D.moment D.left_since D.may_leave disk o.0.disk (D.may_leave disk)) (λ e. LeavesOnly D.moment D.left_since D.may_leave disk e.1 (D.may_leave disk)) }
        ensures cause { MatchResult result (λ o. D.faults o.0.disk ≡ D.faults disk) (λ e. area.FaultOf (D.faults disk) (D.faults e.1) e.0) }
    {
        let mut disk = disk;
        match find(alloc, &mut disk) {
            Ok(found) => {
                let (desk, texts) = begin(disk, found);
                Ok((AreaStore { desk }, texts))
            }
            Err(fault) => Err((fault, disk)),
        }
    }

    /// Writes an image as a full save, with no record, into the area that isn't acknowledged, with a number one greater than
    /// the greatest that was read or written. Its faults come in this order: TooLarge exactly where the image with its
    /// header and its gate passes 1,073,741,824 bytes, NumbersUsed exactly where the number would pass 2^63 - 1, and Disk
    /// exactly where the disk's count of faults rose in this call.
    ///
    /// At every moment since the call began each crash image is read as one of the texts that it could be read as before,
    /// or as this image. After Ok it is read as this image. After a fault the store can be used, and asks for a full save.
    /// Takes no memory. Each byte is written once, with three syncs, or four where the gate isn't known to be closed.
    pub fn full(&mut self, image: &[u8]) -> Result<(), SaveFault>
        ensures any_moment { (first : Point) (begun : List Point) → IsKept D.may_leave first begun self.old
            → LeavesOnly D.moment D.left_since D.may_leave self.old.disk self.new.disk (ReadsAs (first ∷ begun ++ saved image.now ∷ [])) }
        ensures reads { OnOk result (Each (D.may_leave self.new.disk) (λ c. reads c ≡ Ok (saved image.now))) }
        ensures saved { OnOk result ((first : Point) (begun : List Point) → IsKept D.may_leave first begun self.old → IsKept D.may_leave (saved image.now) [] self.new) }
        ensures unsaved { OnErr result ((first : Point) (begun : List Point) → IsKept D.may_leave first begun self.old → IsKept D.may_leave first (begun ++ saved image.now ∷ []) self.new) }
        ensures seen { OnOk result (D.seen self.new.disk ≡ option_map (λ both. holding (other self.old.home) (1 ∷ behind_gate (self.old.top + 1) image.now) both) (D.seen self.old.disk)) }
        ensures beside { option_map (beside (other self.old.home)) (D.seen self.new.disk) ≡ option_map (beside (other self.old.home)) (D.seen self.old.disk) }
        ensures home { OnOk result (self.new.home ≡ other self.old.home) }
        ensures gate { OnOk result (self.new.gate ≡ Some (57 + length image.now)) }
        ensures top { OnOk result (self.new.top ≡ self.old.top + 1) }
        ensures risen { (self.old.top ≤ self.new.top) × (self.new.top ≤ self.old.top + 1) }
        ensures acknowledged { OnOk result (self.new.failed ≡ false) }
        ensures stays { OnErr result (self.new.home ≡ self.old.home) }
        ensures failed { OnErr result (self.new.failed ≡ true) }
        ensures too_large { result ≡ Err SaveFault.TooLarge ↔ (2 ^ 30 < 58 + length image.now) }
        ensures numbers_used { result ≡ Err SaveFault.NumbersUsed ↔ ((58 + length image.now ≤ 2 ^ 30) × (2 ^ 63 - 1 ≤ self.old.top)) }
        ensures refused { (result ≡ Err SaveFault.TooLarge) ⊎ (result ≡ Err SaveFault.NumbersUsed) → self.new ≡ record self.old { failed = true } }
        ensures cause { MatchResult result (λ _. D.faults self.new.disk ≡ D.faults self.old.disk) (FaultOf (D.faults self.old.disk) (D.faults self.new.disk)) }
    {
        self.desk.full(image)
    }

    /// The area that isn't written next: the acknowledged one, where there is one.
    pub fn home(&self) -> Which
        ensures { result ≡ self.now.home }
    {
        self.desk.home
    }

    /// The most bytes that the body of a record may have: None exactly where no area is acknowledged, the last save failed,
    /// or even an empty record would make the area pass 1,073,741,824 bytes. Takes no memory.
    pub fn room(&self) -> Option<u64>
        ensures { result ≡ room_of self.now }
    {
        self.desk.room()
    }

    /// Writes a record with this body behind the acknowledged texts. Fails exactly where the disk's count of faults rose in
    /// this call.
    ///
    /// At every moment since the call began each crash image is read as one of the texts that it could be read as before,
    /// or as the acknowledged ones with this record. After Ok it is read as the latter. After a fault the store can be
    /// used, and asks for a full save. Takes no memory, and writes the record's own bytes, with two syncs.
    pub fn snapshot(&mut self, body: &[u8]) -> Result<(), Failed>
        requires room { IsSomeAnd (room_of self.old) (λ room. length body.now ≤ room) }
        ensures any_moment { (first : Point) (begun : List Point) → IsKept D.may_leave first begun self.old
            → LeavesOnly D.moment D.left_since D.may_leave self.old.disk self.new.disk (ReadsAs (first ∷ begun ++ recorded body.now first ∷ [])) }
        ensures reads { OnOk result ((first : Point) (begun : List Point) → IsKept D.may_leave first begun self.old → Each (D.may_leave self.new.disk) (λ c. reads c ≡ Ok (recorded body.now first))) }
        ensures saved { OnOk result ((first : Point) (begun : List Point) → IsKept D.may_leave first begun self.old → IsKept D.may_leave (recorded body.now first) [] self.new) }
        ensures unsaved { OnErr result ((first : Point) (begun : List Point) → IsKept D.may_leave first begun self.old → IsKept D.may_leave first (begun ++ recorded body.now first ∷ []) self.new) }
        ensures seen { OnOk result (D.seen self.new.disk ≡ option_map (λ both. holding self.old.home (written (gate_of self.old) (1 ∷ record_behind body.now) (held self.old.home both)) both) (D.seen self.old.disk)) }
        ensures beside { option_map (beside self.old.home) (D.seen self.new.disk) ≡ option_map (beside self.old.home) (D.seen self.old.disk) }
        ensures home { self.new.home ≡ self.old.home }
        ensures gate { OnOk result (self.new.gate ≡ Some (gate_of self.old + 41 + length body.now)) }
        ensures top { self.new.top ≡ self.old.top }
        ensures acknowledged { OnOk result (self.new.failed ≡ false) }
        ensures failed { OnErr result (self.new.failed ≡ true) }
        ensures cause { HasCause (D.faults self.old.disk) (D.faults self.new.disk) result }
    {
        let gate = self.desk.gate.unwrap();
        self.desk.append(gate, body)
    }

    /// The disk.
    pub fn into_disk(self) -> D
        ensures disk { result ≡ self.disk }
        ensures reads { (first : Point) (begun : List Point) → IsKept D.may_leave first begun self → Each (D.may_leave result) (ReadsAs (first ∷ begun)) }
    {
        let AreaStore { desk } = self;
        let Desk { disk, .. } = desk;
        disk
    }
}
