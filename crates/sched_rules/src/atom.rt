//! What a rule is made of.
ghost use Rattle.std.specs.Prelude.{◌≡◌, Bool, IfOk};
ghost use Rattle.std.specs.FinMap.{IsAntisymmetric};
ghost use Rattle.sched_rules.specs.Laws.{IsLawful};

use crate::NoMemory;

/// What one holder at a time may have, such as a part of the workspace: the platform's `ISchedulingRule`, without
/// rules that are made of others.
///
/// Every kind of atom keeps the laws of `IsLawful`. Those of the platform: containment is reflexive, antisymmetric and
/// transitive, conflict is reflexive and symmetric, and an atom conflicts with each that it contains. One more, which
/// the platform doesn't ask: an atom conflicts with whatever conflicts with one that it contains. So who has an atom may
/// take one inside it without a look at what others have. The order tells each two atoms apart.
pub trait Atom: Ord + Drop {
    ghost contains: { Self → Self → Bool };

    ghost conflicts: { Self → Self → Bool };

    /// Whether who has this atom has the other too.
    fn contains(&self, other: &Self) -> bool
        ensures { result ≡ contains self.now other.now };

    /// Whether two holders may not have these atoms at once.
    fn conflicts(&self, other: &Self) -> bool
        ensures { result ≡ conflicts self.now other.now };

    /// An equal atom.
    fn copy(&self) -> Result<Self, NoMemory>
    where
        Self: Sized,
        ensures { IfOk result (λ copy. copy ≡ self.now) };

    ghost lawful: { IsLawful contains conflicts };

    ghost exact: { IsAntisymmetric Self.cmp };
}
