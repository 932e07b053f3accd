// A source in memory, with the calls that are to fail.
ghost use Rattle.std.specs.Prelude.{◌≡◌, ◌≢◌, ◌≤◌, ◌↔◌, ℕ, List, [], length, take, drop, min, Some, IfOk, IsErr, OnErr, Contains};
ghost use Rattle.ws_outside.specs.Faults.{HasCause};
ghost use Rattle.ws_outside.specs.Memory.{after_read, reads_told};
ghost use Rattle.ws_outside.specs.Streams.{Takes, IsAtEnd, CountsOne};

use crate::buffers::fill;
use crate::faults::one_more;
use crate::{Failed, Source};
use std::alloc::Global;
use std::marker::Model;

/// A source that has its bytes in memory. Contracts see what is left, the most that a call gives, the calls that are to
/// fail and how many there were, and the count of faults.
#[derive(Drop)]
pub struct MemSource {
    bytes: Vec<u8>,
    at: usize,
    most: usize,
    failing: Vec<u64>,
    calls: u64,
    faults: u64,
}

impl Model for MemSource {
    ghost use Rattle.std.specs.Prelude.{◌≤◌, drop, length};
    ghost use Rattle.ws_outside.specs.Memory.{Feed};

    ghost Value = { Feed };

    ghost view = { λ s. record { left = drop s.at s.bytes.items; most = s.most; failing = s.failing.items; calls = s.calls; faults = s.faults } };

    ghost invariant = { λ s. (s.at ≤ length s.bytes.items) × (1 ≤ s.most) };
}

impl MemSource {
    /// A source of these bytes. No call is to fail, and each gives all that fits.
    pub fn new(alloc: Global, bytes: Vec<u8>) -> MemSource
        ensures { result ≡ record { left = bytes.items; most = usize.MAX; failing = []; calls = 0; faults = 0 } }
    {
        MemSource {
            bytes,
            at: 0,
            most: usize::MAX,
            failing: Vec::new(alloc),
            calls: 0,
            faults: 0,
        }
    }

    /// The same source with these calls to fail, by their numbers from 0 on.
    pub fn failing_at(self, calls: Vec<u64>) -> MemSource
        ensures { result ≡ record self { failing = calls.items } }
    {
        MemSource {
            failing: calls,
            ..self
        }
    }

    /// The same source, of which a call gives at most so many bytes.
    pub fn giving_at_most(self, most: usize) -> MemSource
        requires { 1 ≤ most }
        ensures { result ≡ record self { most = most } }
    {
        MemSource { most, ..self }
    }

    /// What is left to read.
    pub fn left(&self) -> &[u8]
        ensures { result.now ≡ self.now.left }
    {
        &self.bytes[self.at..]
    }

    /// How many reads there were, failed ones too.
    pub fn calls(&self) -> u64
        ensures { result ≡ self.now.calls }
    {
        self.calls
    }

    /// How many reads failed.
    pub fn faults(&self) -> u64
        ensures { result ≡ self.now.faults }
    {
        self.faults
    }
}

impl Source for MemSource {
    ghost left = { λ s. Some s.left };

    ghost faults = { λ s. s.faults };

    ghost reads = { λ s. reads_told s.calls };

    /// Fails exactly at the calls that are to fail. Else it gives as many bytes as there are, as fit, and as a call
    /// gives at most.
    fn read(&mut self, buf: &mut [u8]) -> Result<usize, Failed>
        ensures count { IfOk result (λ n. n ≤ length buf.old) }
        ensures taken { IfOk result (λ n. Takes (Some self.old.left) (take n buf.new) (Some self.new.left)) }
        ensures rest { IfOk result (λ n. drop n buf.new ≡ drop n buf.old) }
        ensures end { IfOk result (λ n. n ≡ 0 → buf.old ≢ [] → IsAtEnd (Some self.new.left)) }

        ensures unread { OnErr result (Some self.new.left ≡ Some self.old.left) }
        ensures unfilled { OnErr result (buf.new ≡ buf.old) }
        ensures cause { HasCause self.old.faults self.new.faults result }
        ensures one_more { CountsOne (reads_told self.old.calls) (reads_told self.new.calls) }

        ensures fails { IsErr result ↔ Contains self.old.failing self.old.calls }
        ensures gives { IfOk result (λ n. n ≡ min (length self.old.left) (min (length buf.old) self.old.most)) }
        ensures after { self.new ≡ after_read self.old result }
    {
        let fails = self.failing.contains(&self.calls);
        self.calls = one_more(self.calls);
        if fails {
            self.faults = one_more(self.faults);
            return Err(Failed);
        }
        let count = fill(&self.bytes[self.at..], self.most, buf);
        self.at += count;
        Ok(count)
    }
}
