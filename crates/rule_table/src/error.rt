//! Why a rule isn't begun, ended or handed over.
ghost use Rattle.std.specs.Prelude.{◌≡◌, IfOk};

use crate::NoMemory;
use sched_rules::{Atom, Rule};
use std::alloc::{AllocError, AllocFailed};

/// Why a rule isn't begun.
#[derive(PartialEq, Eq, Debug, Drop)]
pub enum BeginError<A: Atom> {
    /// A holder has a rule that conflicts: of several the least holder, and the rule that it began first.
    Conflict { holder: u64, rule: Rule<A> },
    /// The topmost rule of the holder that isn't null doesn't contain the rule.
    NotContained { outer: Rule<A> },
    /// Want of memory.
    Memory,
}

impl<A: Atom> BeginError<A> {
    /// An equal error.
    pub fn copy(&self) -> Result<BeginError<A>, NoMemory>
        ensures { IfOk result (λ copy. copy ≡ self.now) }
    {
        Ok(match self {
            BeginError::Conflict { holder, rule } => BeginError::Conflict {
                holder: *holder,
                rule: rule.copy()?,
            },
            BeginError::NotContained { outer } => BeginError::NotContained {
                outer: outer.copy()?,
            },
            BeginError::Memory => BeginError::Memory,
        })
    }
}

/// Why a rule isn't ended, or the rules of a holder aren't handed over.
#[derive(Clone, Copy, Debug, PartialEq, Eq)]
pub enum EndError {
    /// The holder began another rule last, and has this many.
    NotLast { held: u64 },
    /// The holder has no rule.
    HoldsNothing,
    /// The holder to whom the rules were to go has rules.
    TargetHolds,
}

impl<A: Atom> From<AllocError> for BeginError<A> {
    ghost use Rattle.std.specs.Prelude.{◌≡◌};
    ghost use Rattle.rule_table.specs.declared.error.BeginError.TheVariants.{Memory};

    ghost from_gives = { λ _ e. e ≡ Memory };

    fn from(_: AllocError) -> BeginError<A> {
        BeginError::Memory
    }
}

impl<A: Atom, T: Drop> From<AllocFailed<T>> for BeginError<A> {
    ghost use Rattle.std.specs.Prelude.{◌≡◌};
    ghost use Rattle.rule_table.specs.declared.error.BeginError.TheVariants.{Memory};

    ghost from_gives = { λ _ e. e ≡ Memory };

    fn from(_: AllocFailed<T>) -> BeginError<A> {
        BeginError::Memory
    }
}
