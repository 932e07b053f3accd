// What can be read, once, from its front.
ghost use Rattle.std.specs.Prelude.{◌≡◌, ◌≢◌, ◌≤◌, ℕ, List, [], length, take, drop, Option, IfOk, OnErr};
ghost use Rattle.ws_outside.specs.Faults.{HasCause};
ghost use Rattle.ws_outside.specs.Streams.{Takes, IsAtEnd, CountsOne};

use crate::Failed;

/// Bytes that are read once, from the front.
pub trait Source {
    /// What is left to read. None claims nothing.
    ghost left: { Self → Option (List ℕ) };

    /// How often a read has failed: a count that never falls, and stays at its last value, 2^64 - 1.
    ghost faults: { Self → ℕ };

    /// How many reads there were, failed ones too. None claims nothing.
    ghost reads: { Self → Option ℕ };

    /// Reads some bytes into the front of the buffer, and gives how many. The rest of the buffer stays as it was. A
    /// read into a buffer that isn't empty gives 0 only at the end. Fails exactly where the count of faults rises in
    /// this call, and then takes nothing.
    fn read(&mut self, buf: &mut [u8]) -> Result<usize, Failed>
        ensures count { IfOk result (λ n. n ≤ length buf.old) }
        ensures taken { IfOk result (λ n. Takes (left self.old) (take n buf.new) (left self.new)) }
        ensures rest { IfOk result (λ n. drop n buf.new ≡ drop n buf.old) }
        ensures end { IfOk result (λ n. n ≡ 0 → buf.old ≢ [] → IsAtEnd (left self.new)) }

        ensures unread { OnErr result (left self.new ≡ left self.old) }
        ensures unfilled { OnErr result (buf.new ≡ buf.old) }
        ensures cause { HasCause (faults self.old) (faults self.new) result }
        ensures one_more { CountsOne (reads self.old) (reads self.new) };
}
