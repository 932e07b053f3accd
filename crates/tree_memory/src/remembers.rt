//! What a tree has to do that can remember what it was.
ghost use Rattle.std.specs.Prelude.{◌≡◌, ◌≢◌, ℕ, Some, None, IfOk, IfErr, IfSome, OnOk, OnErr};
ghost use Rattle.delta_kind.specs.Deltas.{delta};

use crate::NoMemory;
use delta_kind::Delta;
use std::alloc::Global;
use ws_elem::{ElemMap, TreeRep};

/// A tree that can remember what it was. A contract sees of a memory its `number`: under it the tree is remembered.
///
/// A memory belongs to the tree that gave it. Of another tree's memory a call says what it says of the number.
pub trait Remembers: TreeRep {
    /// What stands for a tree that is remembered.
    type Memory: Drop;

    ghost number: { Self.Memory → ℕ };

    /// The tree as it is is remembered from now on, under a number that isn't in use. Every other tree that is
    /// remembered stays. Where memory wants all is as before.
    fn remember(&mut self, alloc: Global) -> Result<Self::Memory, NoMemory>
        ensures own { IfOk result (λ memory. Self.remembered self.new (number memory) ≡ Some (Self.tree self.old)) }
        ensures fresh { IfOk result (λ memory. Self.remembered self.old (number memory) ≡ None) }
        ensures others { IfOk result (λ memory. (k : ℕ) → k ≢ number memory → Self.remembered self.new k ≡ Self.remembered self.old k) }
        ensures err { OnErr result (Self.remembered self.new ≡ Self.remembered self.old) }
        ensures tree { Self.tree self.new ≡ Self.tree self.old }
        ensures room { Self.room self.new ≡ Self.room self.old };

    /// What changed since the tree was the one that is remembered.
    fn since(&self, alloc: Global, from: &Self::Memory) -> Result<Delta, NoMemory>
        ensures { IfOk result (λ d. IfSome (Self.remembered self.now (number from.now)) (λ t. d ≡ delta t (Self.tree self.now))) };

    /// The tree that is remembered, as a value of its own.
    fn at(&self, alloc: Global, memory: &Self::Memory) -> Result<ElemMap, NoMemory>
        ensures { IfOk result (λ map. IfSome (Self.remembered self.now (number memory.now)) (λ t. map.map ≡ t)) };

    /// Forgets the memory: its tree isn't remembered any more, and every other one stays. Where memory wants all is as
    /// before, and the memory comes back.
    fn forget(
        &mut self,
        alloc: Global,
        memory: Self::Memory,
    ) -> Result<(), (NoMemory, Self::Memory)>
        ensures gone { OnOk result (Self.remembered self.new (number memory) ≡ None) }
        ensures others { OnOk result ((k : ℕ) → k ≢ number memory → Self.remembered self.new k ≡ Self.remembered self.old k) }
        ensures err { OnErr result (Self.remembered self.new ≡ Self.remembered self.old) }
        ensures back { IfErr result (λ e. number e.1 ≡ number memory) }
        ensures tree { Self.tree self.new ≡ Self.tree self.old }
        ensures room { Self.room self.new ≡ Self.room self.old };
}
