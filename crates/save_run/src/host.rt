//! Where a save is made.
ghost use Rattle.std.specs.Prelude.{◌≡◌, ◌∷◌, [], List, IfOk, OnOk, OnErr};
ghost use Rattle.save_run.specs.Books.{Deed, Start, Keep, Write, Finish, HasBegun, WereKept, MayEnd, noted};

use res_path::NoMemory;
use save_kind::{PartStates, SaveAnswer, SaveKind};

/// Why what was kept couldn't be written.
#[derive(Clone, Copy, Debug, PartialEq, Eq)]
pub enum WriteFault {
    /// A call on the disk failed.
    Disk,
    /// It is too large for an area.
    TooLarge,
    /// The save numbers are used.
    NumbersUsed,
    /// Memory wanted.
    Memory,
}

/// Where one save is made: a workspace with its store, as one of its passes has them. Each save has a host of its own.
pub trait Host {
    // what it has done for its save, oldest first
    ghost book: { Self → List Deed };

    // what holds of it between calls
    ghost ready: { Self → Type 0 };

    // what each call leaves as it was, and so several do
    ghost stays: { Self → Self → Type 0 };

    ghost stays_itself: { (host : Self) → stays host host };

    ghost stays_on: { (a b c : Self) → stays a b → stays b c → stays a c };

    ghost stays_ready: { (a b : Self) → stays a b → ready a → ready b };

    /// A save of the kind begins. Answers the number of a refusal. Nothing is done where memory wants.
    fn start(&mut self, kind: SaveKind) -> Result<Option<u8>, NoMemory>
        requires ready { ready self.old }
        requires fresh { book self.old ≡ [] }
        ensures stays { stays self.old self.new }
        ensures begun { IfOk result (λ refused. book self.new ≡ Start kind refused ∷ []) }
        ensures same { OnErr result (book self.new ≡ []) };

    /// The states are kept from now on, each in the place of what its participant kept before. Nothing is done where memory
    /// wants.
    fn keep(&mut self, states: PartStates) -> Result<(), NoMemory>
        requires ready { ready self.old }
        requires begun { (kind : SaveKind) × HasBegun (book self.old) kind }
        ensures stays { stays self.old self.new }
        ensures kept { OnOk result (book self.new ≡ noted (book self.old) (Keep states)) }
        ensures same { OnErr result (book self.new ≡ book self.old) };

    /// What is kept is written.
    fn write(&mut self, kind: SaveKind) -> Result<(), WriteFault>
        requires ready { ready self.old }
        requires kept { WereKept (book self.old) kind }
        ensures stays { stays self.old self.new }
        ensures written { book self.new ≡ noted (book self.old) (Write kind result) };

    /// The save ends so. It takes no memory.
    fn finish(&mut self, answer: SaveAnswer)
        requires ready { ready self.old }
        requires ends { MayEnd (book self.old) answer }
        ensures stays { stays self.old self.new }
        ensures ended { book self.new ≡ noted (book self.old) (Finish answer) };
}
