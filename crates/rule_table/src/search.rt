//! Which of the held rules is asked for.
ghost use Rattle.std.specs.Prelude.{◌≡◌, ◌<◌, length, Some, None, IfSome, IfNone, option_copied, slice_index_or, if◌then◌else◌};
ghost use Rattle.std.specs.List.{remove, list_any};
ghost use Rattle.rule_table.specs.Tables.{is_of, is_null, is_outer, newest, without_last, is_free, first_conflict, rules_held, handed, moved, without};
ghost use Rattle.rule_table.specs.Inside.Found.{lower_than_found};
ghost use Rattle.sched_rules.specs.Rules.{rule_conflicts};

use crate::Held;
use sched_rules::{Atom, Rule};

/// The place of the rule that the holder began last.
pub fn last_place<A: Atom>(all: &[Held<A>], holder: u64) -> Option<usize>
    ensures none { IfNone result (newest (is_of holder) all.now ≡ None) }
    ensures within { IfSome result (λ at. at < length all.now) }
    ensures entry { IfSome result (λ at. (d : Held A)
        → newest (is_of holder) all.now ≡ Some (slice_index_or all.now at d)) }
    ensures removed { IfSome result (λ at. remove all.now at ≡ without_last holder all.now) }
{
    let mut at = all.len();
    while at > 0 {
        at -= 1;
        if all[at].holder == holder {
            return Some(at);
        }
    }
    None
}

/// The topmost rule of the holder that isn't null.
pub fn outer<A: Atom>(all: &[Held<A>], holder: u64) -> Option<&Held<A>>
    ensures { option_copied result ≡ newest (is_outer holder) all.now }
{
    let mut at = all.len();
    while at > 0 {
        at -= 1;
        let held = &all[at];
        if is_outer(held, holder) {
            return Some(held);
        }
    }
    None
}

/// Whether the holder has this rule, and it isn't null.
fn is_outer<A: Atom>(held: &Held<A>, holder: u64) -> bool
    ensures { result ≡ is_outer holder held.now }
{
    held.holder == holder && !is_null(&held.rule)
}

fn is_null<A: Atom>(rule: &Rule<A>) -> bool
    ensures { result ≡ is_null rule.now }
{
    rule.is_null()
}

/// Of the held rules that conflict with this one, those of the least holder, the one that was begun first.
pub fn first_conflict<'a, A: Atom>(all: &'a [Held<A>], rule: &Rule<A>) -> Option<&'a Held<A>>
    ensures { option_copied result ≡ first_conflict A.conflicts all.now rule.now }
{
    let mut found = None;
    for held in all {
        found = with_next(found, held, rule);
    }
    found
}

/// What was found, or the next one where it conflicts and has a lower holder or nothing was found.
fn with_next<'a, A: Atom>(
    found: Option<&'a Held<A>>,
    next: &'a Held<A>,
    rule: &Rule<A>,
) -> Option<&'a Held<A>>
    ensures { option_copied result ≡ (if rule_conflicts A.conflicts next.now.rule rule.now
        then lower_than_found (option_copied found.entry) next.now else option_copied found.entry) }
{
    if meets(next, rule) {
        lower(found, next)
    } else {
        found
    }
}

/// What was found, or the next one where that has a lower holder or nothing was found.
fn lower<'a, A: Atom>(found: Option<&'a Held<A>>, next: &'a Held<A>) -> Option<&'a Held<A>>
    ensures { option_copied result ≡ lower_than_found (option_copied found.entry) next.now }
{
    match found {
        Some(first) if first.holder <= next.holder => found,
        _ => Some(next),
    }
}

/// Whether the held rule conflicts with this one.
fn meets<A: Atom>(held: &Held<A>, rule: &Rule<A>) -> bool
    ensures { result ≡ rule_conflicts A.conflicts held.now.rule rule.now }
{
    held.rule.conflicts(rule)
}

/// Whether no held rule conflicts with this one.
pub fn is_free<A: Atom>(all: &[Held<A>], rule: &Rule<A>) -> bool
    ensures { result ≡ is_free A.conflicts all.now rule.now }
{
    !some_meets(all, rule)
}

fn some_meets<A: Atom>(all: &[Held<A>], rule: &Rule<A>) -> bool
    ensures { result ≡ list_any (λ held. rule_conflicts A.conflicts held.rule rule.now) all.now }
{
    all.iter().any(|held| meets(held, rule))
}

/// How many rules the holder has.
pub fn rules_held<A: Atom>(all: &[Held<A>], holder: u64) -> usize
    ensures { result ≡ rules_held holder all.now }
{
    all.iter().filter(|held| held.holder == holder).count()
}

/// Puts one holder's rules into the hands of another.
pub fn move_all<A: Atom>(all: &mut [Held<A>], from: u64, to: u64)
    ensures { all.new ≡ moved from to all.old }
{
    for i in 0..all.len() {
        hand(&mut all[i], from, to);
    }
}

/// Puts the rule into the hands of another holder where the one has it.
fn hand<A: Atom>(held: &mut Held<A>, from: u64, to: u64)
    ensures { held.new ≡ handed from to held.old }
{
    if held.holder == from {
        held.holder = to;
    }
}

/// Takes the holder's rules away.
pub fn drop_all<A: Atom>(all: &mut Vec<Held<A>>, holder: u64)
    ensures { all.new.items ≡ without holder all.old.items }
{
    all.retain(|held| held.holder != holder);
}
