// A device with two areas and one clock.
ghost use Rattle.std.specs.Prelude.{◌≡◌, ◌≤◌, ℕ, Option, length, take, drop, IfOk, OnOk, IfSome, option_map};
ghost use Rattle.ws_outside.specs.declared.contents.Contents.{Contents};
ghost use Rattle.ws_outside.specs.Disk.{held, beside, holding, written, Torn, Cut, InArea, Came, Each, ReadsThere, Elapses};
ghost use Rattle.ws_outside.specs.Faults.{HasCause};

use crate::{Failed, Which};

/// One device with two files, the areas. Between two syncs of an area a written range, and whatever lies past the old
/// end, may hold any bytes after a crash, and a growing area may have any length between the old and the new one; a cut
/// may have happened or not; all other bytes stay. After a sync a crash leaves what a read gives. A write, cut or sync
/// that failed is as one that is still under way.
///
/// Each call fails exactly where the count of faults rises in it.
pub trait Disk: Drop {
    /// What both areas read as. None tells nothing.
    ghost seen: { Self → Option Contents };

    /// What a crash now may leave. A disk that doesn't tell it has nothing here, so that every clause on it is empty.
    ghost may_leave: { Self → Contents → Type 0 };

    /// The moment on the one clock, a number that never falls.
    ghost moment: { Self → ℕ };

    /// What a crash at that moment or a later one, within a call or between two, may have left.
    ghost left_since: { Self → ℕ → Contents → Type 0 };

    /// How often a call has failed: a count that never falls, and stays at its last value, 2^64 - 1.
    ghost faults: { Self → ℕ };

    /// The length of an area in bytes.
    fn len(&mut self, area: Which) -> Result<u64, Failed>
        ensures length { IfOk result (λ n. IfSome (seen self.old) (λ both. n ≡ length (held area both))) }
        ensures seen { seen self.new ≡ seen self.old }
        ensures crash { Each (may_leave self.new) (may_leave self.old) }
        ensures time { Elapses (moment self.old) (moment self.new) (left_since self.old) (left_since self.new) (may_leave self.new) }
        ensures cause { HasCause (faults self.old) (faults self.new) result };

    /// Reads from a place on into the front of the buffer, and gives how many bytes: fewer than the buffer takes only
    /// at the end of the area.
    fn read(&mut self, area: Which, at: u64, buf: &mut [u8]) -> Result<usize, Failed>
        ensures bytes { IfOk result (λ n. IfSome (seen self.old) (λ both. take n buf.new ≡ take (length buf.old) (drop at (held area both)))) }
        ensures count { IfOk result (λ n. n ≤ length buf.old) }
        ensures seen { seen self.new ≡ seen self.old }
        ensures crash { Each (may_leave self.new) (may_leave self.old) }
        ensures time { Elapses (moment self.old) (moment self.new) (left_since self.old) (left_since self.new) (may_leave self.new) }
        ensures cause { HasCause (faults self.old) (faults self.new) result };

    /// Writes the piece over what stands from a place on, and past the end. The place is at most the length.
    fn write_at(&mut self, area: Which, at: u64, piece: &[u8]) -> Result<(), Failed>
        requires { IfSome (seen self.old) (λ both. at ≤ length (held area both)) }
        ensures written { OnOk result (seen self.new ≡ option_map (λ both. holding area (written at piece.now (held area both)) both) (seen self.old)) }
        ensures beside { option_map (beside area) (seen self.new) ≡ option_map (beside area) (seen self.old) }
        ensures crash { Each (may_leave self.new) (Came (may_leave self.old) (InArea area (Torn at (length piece.now)))) }
        ensures time { Elapses (moment self.old) (moment self.new) (left_since self.old) (left_since self.new) (may_leave self.new) }
        ensures cause { HasCause (faults self.old) (faults self.new) result };

    /// Cuts an area to a length that is at most its own.
    fn cut(&mut self, area: Which, len: u64) -> Result<(), Failed>
        requires { IfSome (seen self.old) (λ both. len ≤ length (held area both)) }
        ensures cut { OnOk result (seen self.new ≡ option_map (λ both. holding area (take len (held area both)) both) (seen self.old)) }
        ensures beside { option_map (beside area) (seen self.new) ≡ option_map (beside area) (seen self.old) }
        ensures crash { Each (may_leave self.new) (Came (may_leave self.old) (InArea area (Cut len))) }
        ensures time { Elapses (moment self.old) (moment self.new) (left_since self.old) (left_since self.new) (may_leave self.new) }
        ensures cause { HasCause (faults self.old) (faults self.new) result };

    /// Brings an area to the device. After it a crash leaves in this area what a read gives.
    fn sync(&mut self, area: Which) -> Result<(), Failed>
        ensures durable { OnOk result (Each (may_leave self.new) (ReadsThere area (seen self.old))) }
        ensures seen { seen self.new ≡ seen self.old }
        ensures crash { Each (may_leave self.new) (may_leave self.old) }
        ensures time { Elapses (moment self.old) (moment self.new) (left_since self.old) (left_since self.new) (may_leave self.new) }
        ensures cause { HasCause (faults self.old) (faults self.new) result };

    /// A disk as it reads is one of its own crash images.
    ghost reads_itself: { (disk : Self) → IfSome (seen disk) (may_leave disk) };

    /// This moment is one of those since an earlier one.
    ghost counts_now: { (disk : Self) (t : ℕ) (c : Contents) → t ≤ moment disk → may_leave disk c → left_since disk t c };

    /// Since this moment there is no other.
    ghost only_now: { (disk : Self) (c : Contents) → left_since disk (moment disk) c → may_leave disk c };
}
