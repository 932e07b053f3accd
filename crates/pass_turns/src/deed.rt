//! What a pass does in one turn.
ghost use Rattle.std.specs.Prelude.{◌≡◌, ◌++◌, ℕ, List, Option, true};
ghost use Rattle.pass_turns.specs.Adds.{AddsUpToOne};

use crate::machine::Machine;
use std::alloc::Global;

/// What a pass does with the machine while it is the pass's turn: it adds one entry of its own, or none, and answers.
pub trait Deed<S: Machine> {
    type Answer;

    // what it asks of the base, the pass's number and the entries that it finds
    ghost may: { Self → S.Base → ℕ → List S.Entry → Type 0 };

    // what it was and is, the base, the pass's number, the entries that it found, those that it added, and its answer
    ghost did: { Self → Self → S.Base → ℕ → List S.Entry → List S.Entry → Self.Answer → Type 0 };

    /// The deed, by a pass that is there.
    fn make(&mut self, alloc: Global, machine: &mut S, pass: u64) -> Self::Answer
        requires there { S.is_there (S.base machine.old) (S.list machine.old) pass ≡ true }
        requires may { may self.old (S.base machine.old) pass (S.list machine.old) }
        ensures base { S.base machine.new ≡ S.base machine.old }
        ensures did { (more : List S.Entry) × (S.list machine.new ≡ S.list machine.old ++ more) × AddsUpToOne S.by S.gives pass more × did self.old self.new (S.base machine.old) pass (S.list machine.old) more result }
        ensures still { S.is_there (S.base machine.new) (S.list machine.new) pass ≡ true };
}
