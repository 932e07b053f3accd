// A disk in memory, with the calls that are to fail, and with what a crash at any moment leaves of it.
ghost use Rattle.std.specs.Prelude.{◌≡◌, ◌≤◌, ◌<◌, ◌+◌, ◌++◌, ◌⊎◌, ◌↔◌, ℕ, List, [], ◌∷◌, Bool, true, false, Some, length, take, drop, min, option_map, IfOk, OnOk, OnErr, IfSome, IsErr, Contains};
ghost use Rattle.ws_outside.specs.declared.call.Request.TheVariants.{Len, Read, Write, Cut, Sync};
ghost use Rattle.ws_outside.specs.Disk.{held, beside, holding, written, Torn, InArea, Came, Each, ReadsThere, Elapses};
ghost use Rattle.ws_outside.specs.Disk as disk;
ghost use Rattle.ws_outside.specs.Crashes.{left_of};
ghost use Rattle.ws_outside.specs.Faults.{HasCause, next};
ghost use Rattle.ws_outside.specs.Inside.Stepping.{Stepped, NeedsMemory};
ghost use Rattle.ws_outside.specs.Replay.{Made, MayWant, reads, MayLeave, LeftSince};

use crate::buffers::fill_from;
use crate::faults::one_more;
use crate::replay::{change, crash_of};
use crate::{Call, Contents, Disk, Failed, NoMemory, Octets, Remnant, Request, Which};
use std::alloc::Global;
use std::marker::Model;

/// A disk that has its areas in memory. Contracts see what it held at first, all its calls, those that are to fail, the
/// room for more of them that is left without asking for memory, and the count of faults. What it reads as and what a
/// crash may leave follow from these.
#[derive(Drop)]
pub struct MemDisk {
    alloc: Global,
    first: Contents,
    present: Contents,
    calls: Vec<Call>,
    failing: Vec<u64>,
    faults: u64,
}

impl Model for MemDisk {
    ghost use Rattle.std.specs.Prelude.{◌≡◌, vec_capacity};
    ghost use Rattle.ws_outside.specs.Replay.{Device, reads};

    ghost Value = { Device };

    ghost view = { λ m. record { first = m.first; calls = m.calls.items; failing = m.failing.items; room = vec_capacity m.calls; faults = m.faults } };

    ghost invariant = { λ m. m.present ≡ reads m.first m.calls.items };
}

impl MemDisk {
    /// A disk that holds this. No call is to fail.
    pub fn new(alloc: Global, first: Contents) -> Result<MemDisk, NoMemory>
        ensures { IfOk result (λ m. m ≡ record { first = first; calls = []; failing = []; room = m.room; faults = 0 }) }
    {
        let present = first.copy(alloc)?;
        Ok(MemDisk {
            alloc,
            first,
            present,
            calls: Vec::new(alloc),
            failing: Vec::new(alloc),
            faults: 0,
        })
    }

    /// The same disk with these calls to fail, by their numbers from 0 on.
    pub fn failing_at(self, calls: Vec<u64>) -> MemDisk
        ensures { result ≡ record self { failing = calls.items } }
    {
        MemDisk {
            failing: calls,
            ..self
        }
    }

    /// What its areas read as.
    pub fn contents(&self) -> &Contents
        ensures { result.now ≡ reads self.now.first self.now.calls }
    {
        &self.present
    }

    /// All calls, the first one first.
    pub fn calls(&self) -> &[Call]
        ensures { result.now ≡ self.now.calls }
    {
        &self.calls
    }

    /// How many calls failed.
    pub fn faults(&self) -> u64
        ensures { result ≡ self.now.faults }
    {
        self.faults
    }

    /// What a crash after so many of the calls leaves. Of each write and cut that no sync of its area has followed by then
    /// it leaves the remnant that stands at the call's number, and nothing where none stands there.
    #[tactic(auto, using(crate::proofs::Crashing::of_may_be_left))]
    pub fn crash(
        &self,
        alloc: Global,
        calls: usize,
        remnants: &[Remnant<'_>],
    ) -> Result<Contents, NoMemory>
        requires { calls ≤ length self.now.calls }
        ensures allowed { IfOk result (MayLeave self.now.first (take calls self.now.calls)) }
        ensures chosen { IfOk result (λ left. left ≡ left_of self.now.first (take calls self.now.calls) remnants.now) }
    {
        crash_of(alloc, &self.first, &self.calls[..calls], remnants)
    }

    /// Makes room for so many calls more, so that each of them is remembered.
    pub fn reserve(&mut self, calls: usize) -> Result<(), NoMemory>
        ensures room { OnOk result (length self.old.calls + calls ≤ self.new.room) }
        ensures rest { self.new ≡ record self.old { room = self.new.room } }
    {
        self.calls.reserve(calls)
    }

    /// Remembers a call for which there is room, and does it unless it is to fail or can't be done. Tells whether it did.
    fn try_step(&mut self, area: Which, request: Request, able: bool) -> bool
        requires { length self.old.calls < self.old.room }
        ensures made { self.new ≡ record self.old { calls = self.old.calls ++ record { area = area; request = request; done = result } ∷ [] } }
        ensures fails { Contains self.old.failing (length self.old.calls) → result ≡ false }
        ensures unable { able ≡ false → result ≡ false }
        ensures only_so { result ≡ false → Contains self.old.failing (length self.old.calls) ⊎ (able ≡ false) ⊎ NeedsMemory request }
    {
        let fails = self.failing.contains(&(self.calls.len() as u64));
        let done = change(self.alloc, area, &request, able, fails, &mut self.present);
        self.calls.push_reserved(Call {
            area,
            request,
            done,
        });
        done
    }

    fn step(&mut self, area: Which, request: Request, able: bool) -> Result<(), Failed>
        ensures made { Made area request result self.old self.new }
        ensures stepped { OnOk result (Stepped area request true self.old self.new) }
        ensures failed { OnErr result (Stepped area request false self.old self.new) }
        ensures fails { Contains self.old.failing (length self.old.calls) → IsErr result }
        ensures unable { able ≡ false → IsErr result }
        ensures only_so { OnErr result (Contains self.old.failing (length self.old.calls) ⊎ (able ≡ false) ⊎ MayWant request self.old) }
        ensures cause { HasCause self.old.faults self.new.faults result }
    {
        if self.calls.reserve(1).is_err() {
            self.faults = one_more(self.faults);
            return Err(Failed);
        }
        if self.try_step(area, request, able) {
            return Ok(());
        }
        self.faults = one_more(self.faults);
        Err(Failed)
    }
}

/// A call fails where it is to fail, and for want of memory. It is remembered then too: a write for whose bytes there was no
/// memory without them, and a call for whose record there was none not at all, which `reserve` rules out.
impl Disk for MemDisk {
    ghost use Rattle.std.specs.Prelude.{Some, length};
    ghost use Rattle.ws_outside.specs.Inside.Laws.{leaves_itself, counts_here, only_here};
    ghost use Rattle.ws_outside.specs.Replay.{reads, MayLeave, LeftSince};

    ghost seen = { λ m. Some (reads m.first m.calls) };

    ghost may_leave = { λ m. MayLeave m.first m.calls };

    ghost moment = { λ m. length m.calls };

    ghost left_since = { λ m. LeftSince m.first m.calls };

    ghost faults = { λ m. m.faults };

    ghost reads_itself = { λ m. leaves_itself m.first m.calls };

    ghost counts_now = { λ m. counts_here m.first m.calls };

    ghost only_now = { λ m. only_here m.first m.calls };

    fn len(&mut self, area: Which) -> Result<u64, Failed>
        ensures length { IfOk result (λ n. n ≡ length (held area (reads self.old.first self.old.calls))) }
        ensures seen { Some (reads self.new.first self.new.calls) ≡ Some (reads self.old.first self.old.calls) }
        ensures crash { Each (MayLeave self.new.first self.new.calls) (MayLeave self.old.first self.old.calls) }
        ensures time { Elapses (length self.old.calls) (length self.new.calls) (LeftSince self.old.first self.old.calls) (LeftSince self.new.first self.new.calls) (MayLeave self.new.first self.new.calls) }
        ensures cause { HasCause self.old.faults self.new.faults result }

        ensures fails { Contains self.old.failing (length self.old.calls) → IsErr result }
        ensures only_so { OnErr result (Contains self.old.failing (length self.old.calls) ⊎ MayWant Len self.old) }
        ensures made { Made area Len result self.old self.new }
    {
        self.step(area, Request::Len, true)?;
        Ok(self.present.of(area).len() as u64)
    }

    fn read(&mut self, area: Which, at: u64, buf: &mut [u8]) -> Result<usize, Failed>
        ensures bytes { IfOk result (λ n. take n buf.new ≡ take (length buf.old) (drop at (held area (reads self.old.first self.old.calls)))) }
        ensures count { IfOk result (λ n. n ≤ length buf.old) }
        ensures seen { Some (reads self.new.first self.new.calls) ≡ Some (reads self.old.first self.old.calls) }
        ensures crash { Each (MayLeave self.new.first self.new.calls) (MayLeave self.old.first self.old.calls) }
        ensures time { Elapses (length self.old.calls) (length self.new.calls) (LeftSince self.old.first self.old.calls) (LeftSince self.new.first self.new.calls) (MayLeave self.new.first self.new.calls) }
        ensures cause { HasCause self.old.faults self.new.faults result }

        ensures fails { Contains self.old.failing (length self.old.calls) → IsErr result }
        ensures only_so { OnErr result (Contains self.old.failing (length self.old.calls) ⊎ MayWant (Read at (length buf.old)) self.old) }
        ensures made { Made area (Read at (length buf.old)) result self.old self.new }
    {
        let len = buf.len() as u64;
        self.step(area, Request::Read { at, len }, true)?;
        Ok(fill_from(self.present.of(area), at, buf))
    }

    fn write_at(&mut self, area: Which, at: u64, piece: &[u8]) -> Result<(), Failed>
        requires { at ≤ length (held area (reads self.old.first self.old.calls)) }
        ensures written { OnOk result (Some (reads self.new.first self.new.calls) ≡ option_map (λ both. holding area (written at piece.now (held area both)) both) (Some (reads self.old.first self.old.calls))) }
        ensures beside { option_map (beside area) (Some (reads self.new.first self.new.calls)) ≡ option_map (beside area) (Some (reads self.old.first self.old.calls)) }
        ensures crash { Each (MayLeave self.new.first self.new.calls) (Came (MayLeave self.old.first self.old.calls) (InArea area (Torn at (length piece.now)))) }
        ensures time { Elapses (length self.old.calls) (length self.new.calls) (LeftSince self.old.first self.old.calls) (LeftSince self.new.first self.new.calls) (MayLeave self.new.first self.new.calls) }
        ensures cause { HasCause self.old.faults self.new.faults result }

        ensures fails { Contains self.old.failing (length self.old.calls) → IsErr result }
        ensures only_so { OnErr result (Contains self.old.failing (length self.old.calls) ⊎ MayWant (Write at piece.now) self.old) }
        ensures made { Made area (Write at piece.now) result self.old self.new }
    {
        match Octets::of(self.alloc, piece) {
            Ok(bytes) => self.step(area, Request::Write { at, bytes }, true),
            Err(_) => {
                let bytes = Octets::empty(self.alloc);
                self.step(area, Request::Write { at, bytes }, false)
            }
        }
    }

    fn cut(&mut self, area: Which, len: u64) -> Result<(), Failed>
        requires { len ≤ length (held area (reads self.old.first self.old.calls)) }
        ensures cut { OnOk result (Some (reads self.new.first self.new.calls) ≡ option_map (λ both. holding area (take len (held area both)) both) (Some (reads self.old.first self.old.calls))) }
        ensures beside { option_map (beside area) (Some (reads self.new.first self.new.calls)) ≡ option_map (beside area) (Some (reads self.old.first self.old.calls)) }
        ensures crash { Each (MayLeave self.new.first self.new.calls) (Came (MayLeave self.old.first self.old.calls) (InArea area (disk.Cut len))) }
        ensures time { Elapses (length self.old.calls) (length self.new.calls) (LeftSince self.old.first self.old.calls) (LeftSince self.new.first self.new.calls) (MayLeave self.new.first self.new.calls) }
        ensures cause { HasCause self.old.faults self.new.faults result }

        ensures fails { Contains self.old.failing (length self.old.calls) → IsErr result }
        ensures only_so { OnErr result (Contains self.old.failing (length self.old.calls) ⊎ MayWant (Cut len) self.old) }
        ensures made { Made area (Cut len) result self.old self.new }
    {
        self.step(area, Request::Cut { len }, true)
    }

    fn sync(&mut self, area: Which) -> Result<(), Failed>
        ensures durable { OnOk result (Each (MayLeave self.new.first self.new.calls) (ReadsThere area (Some (reads self.old.first self.old.calls)))) }
        ensures seen { Some (reads self.new.first self.new.calls) ≡ Some (reads self.old.first self.old.calls) }
        ensures crash { Each (MayLeave self.new.first self.new.calls) (MayLeave self.old.first self.old.calls) }
        ensures time { Elapses (length self.old.calls) (length self.new.calls) (LeftSince self.old.first self.old.calls) (LeftSince self.new.first self.new.calls) (MayLeave self.new.first self.new.calls) }
        ensures cause { HasCause self.old.faults self.new.faults result }

        ensures fails { Contains self.old.failing (length self.old.calls) → IsErr result }
        ensures only_so { OnErr result (Contains self.old.failing (length self.old.calls) ⊎ MayWant Sync self.old) }
        ensures made { Made area Sync result self.old self.new }
    {
        self.step(area, Request::Sync, true)
    }
}
