// A sink in memory, with the calls that are to fail.
ghost use Rattle.std.specs.Prelude.{◌≡◌, ◌≢◌, ◌≤◌, ◌<◌, ◌+◌, ◌⊎◌, ℕ, List, [], length, take, min, Some, IfOk, OnOk, OnErr, IsErr, Contains};
ghost use Rattle.ws_outside.specs.Faults.{HasCause};
ghost use Rattle.ws_outside.specs.Memory.{after_write};
ghost use Rattle.ws_outside.specs.Streams.{Gains};

use crate::faults::one_more;
use crate::{Failed, NoMemory, Sink};
use std::alloc::Global;
use std::marker::Model;

/// A sink that keeps its bytes in memory. Contracts see what was written, the room that is left without asking for
/// memory, the most that a call takes, the calls that are to fail and how many there were, and the count of faults.
#[derive(Drop)]
pub struct MemSink {
    written: Vec<u8>,
    most: usize,
    failing: Vec<u64>,
    calls: u64,
    faults: u64,
}

impl Model for MemSink {
    ghost use Rattle.std.specs.Prelude.{◌≤◌, vec_capacity};
    ghost use Rattle.ws_outside.specs.Memory.{Store};

    ghost Value = { Store };

    ghost view = { λ s. record { written = s.written.items; room = vec_capacity s.written; most = s.most; failing = s.failing.items; calls = s.calls; faults = s.faults } };

    ghost invariant = { λ s. 1 ≤ s.most };
}

impl MemSink {
    /// An empty sink that takes all of each piece, and of which no call is to fail.
    pub fn new(alloc: Global) -> MemSink
        ensures written { result.written ≡ [] }
        ensures most { result.most ≡ usize.MAX }
        ensures failing { result.failing ≡ [] }
        ensures calls { result.calls ≡ 0 }
        ensures faults { result.faults ≡ 0 }
    {
        MemSink {
            written: Vec::new(alloc),
            most: usize::MAX,
            failing: Vec::new(alloc),
            calls: 0,
            faults: 0,
        }
    }

    /// The same sink with these calls to fail, by their numbers from 0 on.
    pub fn failing_at(self, calls: Vec<u64>) -> MemSink
        ensures { result ≡ record self { failing = calls.items } }
    {
        MemSink {
            failing: calls,
            ..self
        }
    }

    /// The same sink, of which a call takes at most so many bytes.
    pub fn taking_at_most(self, most: usize) -> MemSink
        requires { 1 ≤ most }
        ensures { result ≡ record self { most = most } }
    {
        MemSink { most, ..self }
    }

    /// Makes room for so many bytes more, so that no write up to there wants memory.
    pub fn reserve(&mut self, more: usize) -> Result<(), NoMemory>
        ensures room { OnOk result (length self.old.written + more ≤ self.new.room) }
        ensures rest { self.new ≡ record self.old { room = self.new.room } }
    {
        self.written.reserve(more)
    }

    /// What was written.
    pub fn written(&self) -> &[u8]
        ensures { result.now ≡ self.now.written }
    {
        &self.written
    }

    /// How many writes there were, failed ones too.
    pub fn calls(&self) -> u64
        ensures { result ≡ self.now.calls }
    {
        self.calls
    }

    /// How many writes failed.
    pub fn faults(&self) -> u64
        ensures { result ≡ self.now.faults }
    {
        self.faults
    }
}

impl Sink for MemSink {
    ghost written = { λ s. Some s.written };

    ghost faults = { λ s. s.faults };

    /// Fails at the calls that are to fail, and else only where its room is too small and no memory is to be had. Else
    /// it takes as many bytes of the piece as a call takes at most.
    fn write(&mut self, piece: &[u8]) -> Result<usize, Failed>
        ensures count { IfOk result (λ n. n ≤ length piece.now) }
        ensures gained { IfOk result (λ n. Gains (Some self.old.written) (take n piece.now) (Some self.new.written)) }
        ensures some { IfOk result (λ n. piece.now ≢ [] → 1 ≤ n) }

        ensures unwritten { OnErr result (Some self.new.written ≡ Some self.old.written) }
        ensures cause { HasCause self.old.faults self.new.faults result }

        ensures fails { Contains self.old.failing self.old.calls → IsErr result }
        ensures only_so { OnErr result (Contains self.old.failing self.old.calls
            ⊎ (self.old.room < length self.old.written + min (length piece.now) self.old.most)) }
        ensures takes { IfOk result (λ n. n ≡ min (length piece.now) self.old.most) }
        ensures after { self.new ≡ after_write self.old piece.now self.new.room result }
    {
        let fails = self.failing.contains(&self.calls);
        self.calls = one_more(self.calls);
        if fails {
            self.faults = one_more(self.faults);
            return Err(Failed);
        }
        let count = piece.len().min(self.most);
        if self.written.extend_from_slice(&piece[..count]).is_err() {
            self.faults = one_more(self.faults);
            return Err(Failed);
        }
        Ok(count)
    }
}
