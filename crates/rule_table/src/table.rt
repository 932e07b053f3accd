//! The rules that are held.
ghost use Rattle.std.specs.Prelude.{◌≡◌, ◌↔◌, ◌≢◌, ◌⊎◌, ℕ, length, List, [], ◌∷◌, ◌++◌, true, false, Some, None, Err, IsTrue, IsSome, IfOk, IfErr, OnOk, OnErr, option_copied};
ghost use Rattle.std.specs.Option.{IsSomeAnd};
ghost use Rattle.sched_rules.specs.Rules.{rule_contains};
ghost use Rattle.rule_table.specs.Tables.{last_rule, outer_rule, is_free, first_conflict, admits, without_last, moved, without, IsApart};
ghost use Rattle.rule_table.specs.Refusals.{RefusesBegin, RefusesEnd, RefusesTransfer};

use crate::{BeginError, EndError, Held, NoMemory, search};
use sched_rules::{Atom, Rule};
use std::alloc::Global;
use std::marker::Model;

/// The rules that are held, with their holders, as the platform's job manager keeps them. A contract sees the list of
/// these in the order in which they were begun.
///
/// Each rule is within each non-null one that its holder began before, and no rules of two holders conflict.
#[derive(Debug, Drop)]
pub struct RuleTable<A: Atom> {
    held: Vec<Held<A>>,
}

impl<A: Atom> Model for RuleTable<A> {
    ghost use Rattle.std.specs.Prelude.{List};
    ghost use Rattle.rule_table.specs.declared.held.Held.{Held};
    ghost use Rattle.rule_table.specs.Tables.{IsApart};

    ghost Value = { List (Held A) };

    ghost view = { λ t. t.held.items };

    ghost invariant = { λ t. IsApart A.contains A.conflicts t.held.items };
}

impl<A: Atom> RuleTable<A> {
    /// The table in which nobody holds a rule. It takes no memory.
    pub fn empty(alloc: Global) -> RuleTable<A>
        ensures { result ≡ [] }
    {
        RuleTable {
            held: Vec::new(alloc),
        }
    }

    /// How many rules are held, by all holders together.
    pub fn len(&self) -> usize
        ensures { result ≡ length self.now }
    {
        self.held.len()
    }

    /// Whether no rule is held.
    pub fn is_empty(&self) -> bool
        ensures { IsTrue result ↔ (self.now ≡ []) }
    {
        self.held.is_empty()
    }

    /// The rule that the holder began last and hasn't ended; none where it has none.
    pub fn last(&self, holder: u64) -> Option<&Rule<A>>
        ensures { option_copied result ≡ last_rule holder self.now }
    {
        let at = search::last_place(self.held.as_slice(), holder)?;
        Some(&self.held[at].rule)
    }

    /// The topmost rule of the holder that isn't null; none where it has none.
    pub fn outer(&self, holder: u64) -> Option<&Rule<A>>
        ensures { option_copied result ≡ outer_rule holder self.now }
    {
        let held = search::outer(self.held.as_slice(), holder)?;
        Some(&held.rule)
    }

    /// Whether no held rule conflicts with this one. Costs one pass over the held rules.
    pub fn is_free(&self, rule: &Rule<A>) -> bool
        ensures { result ≡ is_free A.conflicts self.now rule.now }
    {
        search::is_free(self.held.as_slice(), rule)
    }

    /// Puts the rule on top of those of the holder. Refused with `NotContained` where the topmost rule of the holder
    /// that isn't null doesn't contain it, and with `Conflict` where the holder has none such and another holder's rule
    /// conflicts with it. So a holder of a non-null rule never meets a conflict, and the null rule is never refused. A
    /// refused rule is let go.
    pub fn begin(&mut self, holder: u64, rule: Rule<A>) -> Result<(), BeginError<A>>
        ensures begun { OnOk result (self.new ≡ self.old ++ record { holder = holder; rule = rule } ∷ []) }
        ensures admitted { OnOk result (IsTrue (admits A.contains A.conflicts self.old holder rule)) }
        ensures refused { IfErr result (λ e. RefusesBegin A.contains A.conflicts self.old holder rule e) }
        ensures inner { IsSome (outer_rule holder self.old) → (other : ℕ) (held : List A)
            → result ≢ Err (BeginError.Conflict other held) }
        ensures same { OnErr result (self.new ≡ self.old) }
        ensures apart { IsApart A.contains A.conflicts self.new }
    {
        self.admit(holder, &rule)?;
        self.held.push(Held { holder, rule })?;
        Ok(())
    }

    /// Whether the holder may begin this rule, and why it may not: with the refusals of `begin`, of which it is the
    /// first part. Costs one pass over the held rules, and takes memory only to tell a refusal.
    pub fn admit(&self, holder: u64, rule: &Rule<A>) -> Result<(), BeginError<A>>
        ensures admitted { OnOk result (IsTrue (admits A.contains A.conflicts self.now holder rule.now)) }
        ensures refused { IfErr result (λ e. RefusesBegin A.contains A.conflicts self.now holder rule.now e) }
    {
        match self.outer(holder) {
            Some(outer) => within(outer, rule),
            None => alone(self.held.as_slice(), rule),
        }
    }

    /// Takes the rule from the top of those of the holder. Refused with `HoldsNothing` where the holder has no rule,
    /// else with `NotLast` where it began another one last. Takes no memory.
    pub fn end(&mut self, holder: u64, rule: &Rule<A>) -> Result<(), EndError>
        ensures ended { OnOk result (self.new ≡ without_last holder self.old) }
        ensures last { OnOk result (last_rule holder self.old ≡ Some rule.now) }
        ensures refused { IfErr result (λ e. RefusesEnd self.old holder rule.now e) }
        ensures same { OnErr result (self.new ≡ self.old) }
        ensures apart { IsApart A.contains A.conflicts self.new }
    {
        let Some(at) = search::last_place(self.held.as_slice(), holder) else {
            return Err(EndError::HoldsNothing);
        };
        if self.held[at].rule == *rule {
            self.held.remove(at);
            return Ok(());
        }
        let held = search::rules_held(self.held.as_slice(), holder) as u64;
        Err(EndError::NotLast { held })
    }

    /// Hands all rules of one holder over to another. Refused with `HoldsNothing` where the one has no rule, else with
    /// `TargetHolds` where the other has one. Takes no memory.
    pub fn transfer(&mut self, from: u64, to: u64) -> Result<(), EndError>
        ensures moved { OnOk result (self.new ≡ moved from to self.old) }
        ensures holds { OnOk result (IsSome (last_rule from self.old) × (last_rule to self.old ≡ None)) }
        ensures refused { IfErr result (λ e. RefusesTransfer self.old from to e) }
        ensures same { OnErr result (self.new ≡ self.old) }
        ensures apart { IsApart A.contains A.conflicts self.new }
    {
        if self.last(from).is_none() {
            return Err(EndError::HoldsNothing);
        }
        if self.last(to).is_some() {
            return Err(EndError::TargetHolds);
        }
        search::move_all(self.held.as_mut_slice(), from, to);
        Ok(())
    }

    /// Takes all rules of the holder away. Takes no memory.
    pub fn drop_all(&mut self, holder: u64)
        ensures dropped { self.new ≡ without holder self.old }
        ensures apart { IsApart A.contains A.conflicts self.new }
    {
        search::drop_all(&mut self.held, holder);
    }

    /// An equal table.
    pub fn copy(&self) -> Result<RuleTable<A>, NoMemory>
        ensures { IfOk result (λ copy. copy ≡ self.now) }
    {
        let held = copies(*self.held.allocator(), self.held.as_slice())?;
        Ok(RuleTable { held })
    }
}

/// Equal rules with the same holders, in a list of their own.
fn copies<A: Atom>(alloc: Global, all: &[Held<A>]) -> Result<Vec<Held<A>>, NoMemory>
    ensures { IfOk result (λ copies. copies.items ≡ all.now) }
{
    let mut copies = Vec::with_capacity(alloc, all.len())?;
    for held in all {
        copies.push(held.copy()?)?;
    }
    Ok(copies)
}

/// Whether the topmost rule of a holder that isn't null contains the new one.
fn within<A: Atom>(outer: &Rule<A>, rule: &Rule<A>) -> Result<(), BeginError<A>>
    ensures admitted { OnOk result (rule_contains A.contains outer.now rule.now ≡ true) }
    ensures refused { IfErr result (λ e. (e ≡ BeginError.Memory)
        ⊎ ((e ≡ BeginError.NotContained outer.now) × (rule_contains A.contains outer.now rule.now ≡ false))) }
{
    if outer.contains(rule) {
        return Ok(());
    }
    Err(BeginError::NotContained {
        outer: outer.copy()?,
    })
}

/// Whether no held rule conflicts with the new one.
fn alone<A: Atom>(all: &[Held<A>], rule: &Rule<A>) -> Result<(), BeginError<A>>
    ensures admitted { OnOk result (is_free A.conflicts all.now rule.now ≡ true) }
    ensures refused { IfErr result (λ e. (e ≡ BeginError.Memory)
        ⊎ IsSomeAnd (first_conflict A.conflicts all.now rule.now) (λ held. e ≡ BeginError.Conflict held.holder held.rule)) }
{
    match search::first_conflict(all, rule) {
        None => Ok(()),
        Some(held) => Err(BeginError::Conflict {
            holder: held.holder,
            rule: held.rule.copy()?,
        }),
    }
}
