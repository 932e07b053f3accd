//! What a pass waits to do.
ghost use Rattle.std.specs.Prelude.{◌≡◌, ◌++◌, ℕ, List, Option, true};
ghost use Rattle.pass_turns.specs.Adds.{AddsUpToOne, Tried};

use crate::machine::Machine;
use std::alloc::Global;

/// What a pass waits to do with the machine, turn after turn: in a turn in which it has to wait it adds nothing.
pub trait Attempt<S: Machine> {
    type Answer: Drop;

    // what it asks of the base, the pass's number and the entries that it finds
    ghost may: { Self → S.Base → ℕ → List S.Entry → Type 0 };

    // what it was, the base, the pass's number, the entries that it found, those that it added, and its answer
    ghost did: { Self → S.Base → ℕ → List S.Entry → List S.Entry → Self.Answer → Type 0 };

    /// Does it, by a pass that is there; none where it has to wait, and then nothing was done.
    fn attempt(&mut self, alloc: Global, machine: &mut S, pass: u64) -> Option<Self::Answer>
        requires there { S.is_there (S.base machine.old) (S.list machine.old) pass ≡ true }
        requires may { may self.old (S.base machine.old) pass (S.list machine.old) }
        ensures base { S.base machine.new ≡ S.base machine.old }
        ensures did { (more : List S.Entry) × (S.list machine.new ≡ S.list machine.old ++ more) × AddsUpToOne S.by S.gives pass more
            × Tried (did self.old) (self.new ≡ self.old) (S.base machine.old) pass (S.list machine.old) more result }
        ensures still { S.is_there (S.base machine.new) (S.list machine.new) pass ≡ true };
}
