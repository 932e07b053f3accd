//! What takes bytes.

ghost use Rattle.std.specs.Prelude.{◌≡◌, List, ℕ, [], ◌++◌, OnOk};

use ws_wire::{NoMemory, Out};

/// What takes bytes, one piece after the other. Two pieces come to the same as both in one, and an empty one to none.
pub trait Sink {
    type Fault;

    // the sink after these bytes
    ghost after: { Self → List ℕ → Self };

    /// Takes these bytes. After an error nothing is known of what it has taken.
    fn put(&mut self, bytes: &[u8]) -> Result<(), Self::Fault>
        ensures { OnOk result (self.new ≡ after self.old bytes.now) };

    ghost joined: { (s : Self) (a b : List ℕ) → after (after s a) b ≡ after s (a ++ b) };

    ghost kept: { (s : Self) → after s [] ≡ s };
}

impl Sink for Out {
    ghost use Rattle.std.specs.Prelude.{◌++◌};
    ghost use Rattle.std.proofs.Common.{append_assoc};
    ghost use Rattle.std.proofs.lemmas.List.{append-nil};

    type Fault = NoMemory;

    ghost after = { λ s bytes. s ++ bytes };

    fn put(&mut self, bytes: &[u8]) -> Result<(), NoMemory> {
        self.raw(bytes)
    }

    ghost joined = { λ s a b. append_assoc s a b };

    ghost kept = { λ s. append-nil s };
}
