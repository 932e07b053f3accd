//! One rule that is held.
ghost use Rattle.std.specs.Prelude.{◌≡◌, IfOk};

use crate::NoMemory;
use sched_rules::{Atom, Rule};

/// A rule with its holder.
#[derive(Debug, Drop)]
pub struct Held<A: Atom> {
    pub holder: u64,
    pub rule: Rule<A>,
}

impl<A: Atom> Held<A> {
    /// An equal rule with the same holder.
    pub fn copy(&self) -> Result<Held<A>, NoMemory>
        ensures { IfOk result (λ copy. copy ≡ self.now) }
    {
        Ok(Held {
            holder: self.holder,
            rule: self.rule.copy()?,
        })
    }
}
