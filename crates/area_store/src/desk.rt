// What a store knows of its areas, and how saves are written.
ghost use Rattle.std.specs.Prelude.{◌≡◌, ◌≤◌, ◌<◌, ◌+◌, ◌-◌, ◌^◌, ◌++◌, ◌↔◌, List, [], ◌∷◌, length, true, false, Some, Err, OnOk, OnErr, MatchResult, option_map, ◌⊎◌};
ghost use Rattle.ws_outside.specs.Disk.{held, beside, holding, written, Each, LeavesOnly};
ghost use Rattle.disk_area.specs.Area.{behind_gate, record_behind};
ghost use Rattle.ws_outside.specs.Faults.{HasCause};
ghost use Rattle.disk_area.specs.Reading.{IsClosedAt};
ghost use Rattle.disk_area.specs.Writes.{IsShut};
ghost use Rattle.area_pair.specs.Reads.{other};
ghost use Rattle.area_store.specs.Kept.{Point, saved, recorded, ReadsAs, IsKept, room_of, FaultOf};

use crate::SaveFault;
use disk_area::{close_gate, lay_image, open_gate, write_record};
use ws_outside::{Disk, Failed, Which};

/// The most bytes of an image, so that it fits an area with its header and its gate.
const LARGEST_IMAGE: usize = (1 << 30) - 58;

/// The most bytes of an area.
const LARGEST_AREA: u64 = 1 << 30;

/// The last save number.
const LAST_NUMBER: u64 = (1 << 63) - 1;

/// What a store knows of its areas.
#[derive(Drop)]
pub struct Desk<D: Disk> {
    pub disk: D,
    /// The area that isn't written next: the acknowledged one, where there is one. The other one is the spare area.
    pub home: Which,
    /// The place of the closed gate behind the acknowledged texts; None where there are none.
    pub gate: Option<u64>,
    /// The greatest save number that was read or written, 0 where there is none.
    pub top: u64,
    /// Whether every crash leaves a byte other than 01 at the front of the home area.
    pub home_shut: bool,
    /// The same of the spare area.
    pub spare_shut: bool,
    /// Whether the last save failed.
    pub failed: bool,
}

pub(crate) fn other_of(area: Which) -> Which
    ensures { result ≡ other area }
{
    match area {
        Which::Left => Which::Right,
        Which::Right => Which::Left,
    }
}

impl<D: Disk> Desk<D> {
    /// Closes the gate of the spare area, unless it is known to be shut.
    fn close_spare(&mut self) -> Result<(), Failed>
        requires known { self.old.spare_shut ≡ true → Each (D.may_leave self.old.disk) (λ c. IsShut (held (other self.old.home) c)) }
        ensures any_moment { (first : Point) (begun : List Point) → IsKept D.may_leave first begun self.old
            → LeavesOnly D.moment D.left_since D.may_leave self.old.disk self.new.disk (ReadsAs (first ∷ begun)) }
        ensures kept { (first : Point) (begun : List Point) → IsKept D.may_leave first begun self.old → IsKept D.may_leave first begun self.new }
        ensures shut { OnOk result (self.new.spare_shut ≡ true) }
        ensures spare { OnOk result (Each (D.may_leave self.new.disk) (λ c. IsShut (held (other self.old.home) c))) }
        ensures beside { option_map (beside (other self.old.home)) (D.seen self.new.disk) ≡ option_map (beside (other self.old.home)) (D.seen self.old.disk) }
        ensures rest { self.new ≡ record self.old { disk = self.new.disk; spare_shut = self.new.spare_shut } }
        ensures cause { HasCause (D.faults self.old.disk) (D.faults self.new.disk) result }
    {
        if self.spare_shut {
            return Ok(());
        }
        close_gate(&mut self.disk, other_of(self.home))?;
        self.spare_shut = true;
        Ok(())
    }

    /// Writes an image into the spare area, whose gate is shut, and makes it the home area.
    fn write_spare(&mut self, image: &[u8]) -> Result<(), Failed>
        requires shut { self.old.spare_shut ≡ true }
        requires spare { Each (D.may_leave self.old.disk) (λ c. IsShut (held (other self.old.home) c)) }
        requires failed { self.old.failed ≡ true }
        requires number { self.old.top + 1 < 2 ^ 63 }
        requires small { 58 + length image.now ≤ 2 ^ 30 }
        ensures any_moment { (first : Point) (begun : List Point) → IsKept D.may_leave first begun self.old
            → LeavesOnly D.moment D.left_since D.may_leave self.old.disk self.new.disk (ReadsAs (first ∷ begun ++ saved image.now ∷ [])) }
        ensures saved { OnOk result ((first : Point) (begun : List Point) → IsKept D.may_leave first begun self.old → IsKept D.may_leave (saved image.now) [] self.new) }
        ensures unsaved { OnErr result ((first : Point) (begun : List Point) → IsKept D.may_leave first begun self.old → IsKept D.may_leave first (begun ++ saved image.now ∷ []) self.new) }
        ensures home { OnOk result (self.new.home ≡ other self.old.home) }
        ensures stays { OnErr result (self.new.home ≡ self.old.home) }
        ensures acknowledged { OnOk result (self.new.failed ≡ false) }
        ensures failed { OnErr result (self.new.failed ≡ true) }
        ensures top { self.new.top ≡ self.old.top + 1 }
        ensures gate { OnOk result (self.new.gate ≡ Some (57 + length image.now)) }
        ensures seen { OnOk result (D.seen self.new.disk ≡ option_map (λ both. holding (other self.old.home) (1 ∷ behind_gate (self.old.top + 1) image.now) both) (D.seen self.old.disk)) }
        ensures beside { option_map (beside (other self.old.home)) (D.seen self.new.disk) ≡ option_map (beside (other self.old.home)) (D.seen self.old.disk) }
        ensures cause { HasCause (D.faults self.old.disk) (D.faults self.new.disk) result }
    {
        let spare = other_of(self.home);
        self.top += 1;
        lay_image(&mut self.disk, spare, self.top, image)?;
        self.spare_shut = false;
        open_gate(&mut self.disk, spare)?;
        self.spare_shut = self.home_shut;
        self.home_shut = false;
        self.home = spare;
        self.gate = Some(57 + image.len() as u64);
        self.failed = false;
        Ok(())
    }

    /// A full save into the spare area.
    pub(crate) fn full(&mut self, image: &[u8]) -> Result<(), SaveFault>
        requires known { self.old.spare_shut ≡ true → Each (D.may_leave self.old.disk) (λ c. IsShut (held (other self.old.home) c)) }
        ensures any_moment { (first : Point) (begun : List Point) → IsKept D.may_leave first begun self.old
            → LeavesOnly D.moment D.left_since D.may_leave self.old.disk self.new.disk (ReadsAs (first ∷ begun ++ saved image.now ∷ [])) }
        ensures saved { OnOk result ((first : Point) (begun : List Point) → IsKept D.may_leave first begun self.old → IsKept D.may_leave (saved image.now) [] self.new) }
        ensures unsaved { OnErr result ((first : Point) (begun : List Point) → IsKept D.may_leave first begun self.old → IsKept D.may_leave first (begun ++ saved image.now ∷ []) self.new) }
        ensures home { OnOk result (self.new.home ≡ other self.old.home) }
        ensures stays { OnErr result (self.new.home ≡ self.old.home) }
        ensures acknowledged { OnOk result (self.new.failed ≡ false) }
        ensures failed { OnErr result (self.new.failed ≡ true) }
        ensures top { OnOk result (self.new.top ≡ self.old.top + 1) }
        ensures risen { (self.old.top ≤ self.new.top) × (self.new.top ≤ self.old.top + 1) }
        ensures gate { OnOk result (self.new.gate ≡ Some (57 + length image.now)) }
        ensures seen { OnOk result (D.seen self.new.disk ≡ option_map (λ both. holding (other self.old.home) (1 ∷ behind_gate (self.old.top + 1) image.now) both) (D.seen self.old.disk)) }
        ensures beside { option_map (beside (other self.old.home)) (D.seen self.new.disk) ≡ option_map (beside (other self.old.home)) (D.seen self.old.disk) }
        ensures too_large { result ≡ Err SaveFault.TooLarge ↔ (2 ^ 30 < 58 + length image.now) }
        ensures numbers_used { result ≡ Err SaveFault.NumbersUsed ↔ ((58 + length image.now ≤ 2 ^ 30) × (2 ^ 63 - 1 ≤ self.old.top)) }
        ensures refused { (result ≡ Err SaveFault.TooLarge) ⊎ (result ≡ Err SaveFault.NumbersUsed) → self.new ≡ record self.old { failed = true } }
        ensures cause { MatchResult result (λ _. D.faults self.new.disk ≡ D.faults self.old.disk) (FaultOf (D.faults self.old.disk) (D.faults self.new.disk)) }
    {
        self.failed = true;
        if image.len() > LARGEST_IMAGE {
            return Err(SaveFault::TooLarge);
        }
        if self.top >= LAST_NUMBER {
            return Err(SaveFault::NumbersUsed);
        }
        self.close_spare()?;
        self.write_spare(image)?;
        Ok(())
    }

    /// Writes a record behind the acknowledged texts, whose gate stands at this place.
    pub(crate) fn append(&mut self, gate: u64, body: &[u8]) -> Result<(), Failed>
        requires acknowledged { self.old.gate ≡ Some gate }
        requires sound { self.old.failed ≡ false }
        requires closed { Each (D.may_leave self.old.disk) (λ c. (gate < length (held self.old.home c)) × IsClosedAt gate (held self.old.home c)) }
        requires small { gate + length body.now + 42 ≤ 2 ^ 30 }
        ensures any_moment { (first : Point) (begun : List Point) → IsKept D.may_leave first begun self.old
            → LeavesOnly D.moment D.left_since D.may_leave self.old.disk self.new.disk (ReadsAs (first ∷ begun ++ recorded body.now first ∷ [])) }
        ensures saved { OnOk result ((first : Point) (begun : List Point) → IsKept D.may_leave first begun self.old → IsKept D.may_leave (recorded body.now first) [] self.new) }
        ensures unsaved { OnErr result ((first : Point) (begun : List Point) → IsKept D.may_leave first begun self.old → IsKept D.may_leave first (begun ++ recorded body.now first ∷ []) self.new) }
        ensures home { self.new.home ≡ self.old.home }
        ensures acknowledged { OnOk result (self.new.failed ≡ false) }
        ensures failed { OnErr result (self.new.failed ≡ true) }
        ensures top { self.new.top ≡ self.old.top }
        ensures gate { OnOk result (self.new.gate ≡ Some (gate + 41 + length body.now)) }
        ensures seen { OnOk result (D.seen self.new.disk ≡ option_map (λ both. holding self.old.home (written gate (1 ∷ record_behind body.now) (held self.old.home both)) both) (D.seen self.old.disk)) }
        ensures beside { option_map (beside self.old.home) (D.seen self.new.disk) ≡ option_map (beside self.old.home) (D.seen self.old.disk) }
        ensures cause { HasCause (D.faults self.old.disk) (D.faults self.new.disk) result }
    {
        self.failed = true;
        write_record(&mut self.disk, self.home, gate, body)?;
        self.gate = Some(gate + 41 + body.len() as u64);
        self.failed = false;
        Ok(())
    }

    /// The most bytes that the body of a record may have, where one may be written.
    pub(crate) fn room(&self) -> Option<u64>
        ensures { result ≡ room_of self.now }
    {
        let gate = self.gate?;
        if self.failed {
            return None;
        }
        LARGEST_AREA.checked_sub(gate.checked_add(42)?)
    }
}
