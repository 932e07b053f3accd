//! The table over another kind of atom.
ghost use Rattle.std.specs.Prelude.{◌≡◌, ◌+◌};

use crate::asserting::{holds, must, same};
use rule_table::{BeginError, RuleTable};
use sched_rules::{Atom, NoMemory, Rule};
use std::alloc::Global;
use std::process::Abort;

/// The numbers from the first on, with so many more.
#[derive(PartialEq, Eq, PartialOrd, Ord, Debug, Drop)]
pub struct Interval {
    pub start: u32,
    pub more: u32,
}

impl Interval {
    fn last(&self) -> u64
        ensures { result ≡ self.now.start + self.now.more }
    {
        u64::from(self.start) + u64::from(self.more)
    }
}

impl Atom for Interval {
    ghost use Rattle.std.specs.Prelude.{◌≡◌, ◌+◌, ◌&&◌, nat_le};
    ghost use Rattle.std.proofs.Common.{arith};
    ghost use Rattle.std.proofs.lemmas.Bool.Decides.{nat_tests};

    ghost contains = { λ a b. nat_le a.start b.start && nat_le (b.start + b.more) (a.start + a.more) };

    ghost conflicts = { λ a b. nat_le a.start (b.start + b.more) && nat_le b.start (a.start + a.more) };

    ghost lawful = { record {
      contains_itself = λ a. Prim.grind (arith, nat_tests);
      contains_both = λ a b h g.
          let start : a.start ≡ b.start = Prim.grind (arith, nat_tests) in
          let more : a.more ≡ b.more = Prim.grind (arith, nat_tests) in
          λ i. record { start = start i; more = more i };
      contains_through = λ a b c h g. Prim.grind (arith, nat_tests);
      conflicts_itself = λ a. Prim.grind (arith, nat_tests);
      conflicts_back = λ a b. Prim.grind (arith, nat_tests);
      contained_conflicts = λ a b h. Prim.grind (arith, nat_tests);
      wider_conflicts = λ a b c h g. Prim.grind (arith, nat_tests);
    } };

    ghost exact = { λ a b h.
        let start : a.start ≡ b.start = Prim.grind (arith, nat_tests) in
        let more : a.more ≡ b.more = Prim.grind (arith, nat_tests) in
        λ i. record { start = start i; more = more i } };

    fn contains(&self, other: &Interval) -> bool {
        self.start <= other.start && other.last() <= self.last()
    }

    fn conflicts(&self, other: &Interval) -> bool {
        u64::from(self.start) <= other.last() && u64::from(other.start) <= self.last()
    }

    fn copy(&self) -> Result<Interval, NoMemory> {
        Ok(Interval {
            start: self.start,
            more: self.more,
        })
    }
}

fn span(rt: &impl Abort, alloc: Global, start: u32, more: u32) -> Rule<Interval> {
    must(rt, Rule::of(alloc, Interval { start, more }))
}

#[test]
fn the_table_keeps_intervals_apart_too(rt: HostRuntime) {
    let alloc = rt.alloc();
    let mut table = RuleTable::empty(alloc);
    must(&rt, table.begin(1, span(&rt, alloc, 0, 9)));
    must(&rt, table.begin(2, span(&rt, alloc, 10, 2)));
    must(&rt, table.begin(1, span(&rt, alloc, 3, 1)));
    let refused = table.begin(3, span(&rt, alloc, 5, 10)).err();
    let rule = span(&rt, alloc, 0, 9);
    same(&rt, refused, Some(BeginError::Conflict { holder: 1, rule }));
    let refused = table.begin(1, span(&rt, alloc, 4, 1)).err();
    let outer = span(&rt, alloc, 3, 1);
    same(&rt, refused, Some(BeginError::NotContained { outer }));
    must(&rt, table.end(1, &span(&rt, alloc, 3, 1)));
    must(&rt, table.transfer(1, 4));
    holds(&rt, table.last(4) == Some(&span(&rt, alloc, 0, 9)));
    table.drop_all(2);
    holds(&rt, table.is_free(&span(&rt, alloc, 10, 0)));
    holds(&rt, !table.is_free(&span(&rt, alloc, 9, 0)));
}
