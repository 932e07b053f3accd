// What can be written, at its end.
ghost use Rattle.std.specs.Prelude.{◌≡◌, ◌≢◌, ◌≤◌, ℕ, List, [], length, take, Option, IfOk, OnErr};
ghost use Rattle.ws_outside.specs.Faults.{HasCause};
ghost use Rattle.ws_outside.specs.Streams.{Gains};

use crate::Failed;

/// A place for bytes that are written one after the other.
pub trait Sink {
    /// What was written. None claims nothing.
    ghost written: { Self → Option (List ℕ) };

    /// How often a write has failed: a count that never falls, and stays at its last value, 2^64 - 1.
    ghost faults: { Self → ℕ };

    /// Writes a front of the piece, and gives how many bytes it has: at least one, where the piece isn't empty. Fails
    /// exactly where the count of faults rises in this call, and then writes nothing.
    fn write(&mut self, piece: &[u8]) -> Result<usize, Failed>
        ensures count { IfOk result (λ n. n ≤ length piece.now) }
        ensures gained { IfOk result (λ n. Gains (written self.old) (take n piece.now) (written self.new)) }
        ensures some { IfOk result (λ n. piece.now ≢ [] → 1 ≤ n) }

        ensures unwritten { OnErr result (written self.new ≡ written self.old) }
        ensures cause { HasCause (faults self.old) (faults self.new) result };
}
