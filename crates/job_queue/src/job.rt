//! One job.
ghost use Rattle.std.specs.Prelude.{◌≡◌, IfOk};

use crate::{JobState, NoMemory};
use sched_rules::{Atom, Rule};
use std::cmp::Ordering;

/// A job, but for its name.
#[derive(Debug, Drop)]
pub struct Job<A: Atom> {
    pub state: JobState,
    pub turn: Turn,
    /// What it has to itself while it is run; the null rule once it is over.
    pub rule: Rule<A>,
}

impl<A: Atom> Job<A> {
    /// An equal job.
    pub fn copy(&self) -> Result<Job<A>, NoMemory>
        ensures { IfOk result (λ copy. copy ≡ self.now) }
    {
        Ok(Job {
            state: self.state,
            turn: self.turn,
            rule: self.rule.copy()?,
        })
    }
}

impl<A: Atom> Clone for Job<A> {
    ghost use Rattle.std.specs.Prelude.{◌≡◌};

    ghost is_clone = { λ job copy. copy ≡ job };

    fn clone(&self) -> Result<Job<A>, NoMemory> {
        self.copy()
    }
}

/// When the turn of a job that waits has come: that of the lesser priority number is first, as the platform has it, and
/// of one priority that of the lesser schedule number.
#[derive(Clone, Copy, Debug)]
pub struct Turn {
    /// The platform's number, as 10 for `Job.INTERACTIVE`.
    pub priority: u8,
    /// How many jobs were scheduled before.
    pub number: u64,
}

impl PartialEq for Turn {
    ghost use Rattle.std.specs.Ordering.{eq_by_cmp};
    ghost use Rattle.std.specs.Cmp.{eq_by_cmp_equiv, partial_equiv_from_equiv};
    ghost use Rattle.job_queue.specs.Turns.{turn_cmp, turn_cmp_total};

    ghost eq = { eq_by_cmp turn_cmp };

    ghost laws = { partial_equiv_from_equiv (eq_by_cmp_equiv turn_cmp_total) };

    fn eq(&self, other: &Turn) -> bool {
        self.cmp(other) == Ordering::Equal
    }
}

impl Eq for Turn {
    ghost use Rattle.std.specs.Cmp.{eq_by_cmp_equiv};
    ghost use Rattle.job_queue.specs.Turns.{turn_cmp_total};

    ghost laws = { eq_by_cmp_equiv turn_cmp_total };
}

impl PartialOrd for Turn {
    ghost use Rattle.std.specs.Ordering.{as_partial_cmp};
    ghost use Rattle.std.specs.Cmp.{partial_order_from_total};
    ghost use Rattle.job_queue.specs.Turns.{turn_cmp, turn_cmp_total};

    ghost partial_cmp = { as_partial_cmp turn_cmp };

    ghost laws = { partial_order_from_total turn_cmp_total };

    fn partial_cmp(&self, other: &Turn) -> Option<Ordering> {
        Some(self.cmp(other))
    }
}

impl Ord for Turn {
    ghost use Rattle.std.specs.Prelude.{refl};
    ghost use Rattle.job_queue.specs.Turns.{turn_cmp, turn_cmp_total};

    ghost cmp = { turn_cmp };

    ghost total = { turn_cmp_total };

    ghost matches_partial_cmp = { λ x y. refl };

    ghost matches_eq = { λ x y. refl };

    fn cmp(&self, other: &Turn) -> Ordering {
        self.priority
            .cmp(&other.priority)
            .then(self.number.cmp(&other.number))
    }
}
