//! Atoms and rules, two by two.
use crate::asserting::must;
use crate::paths::{name, path};
use crate::rows::{Row, cut, number, play, say, yes};
use sched_rules::{Atom, Rule, WsAtom};
use std::alloc::Global;
use std::process::Abort;

/// An atom is a path, a path with a range of lines behind a colon, or else a mutex; a rule has atoms with a `+` between,
/// and the null rule none. `atoms` and `rules` tell whether the first contains the second, and whether both conflict.
/// Of the atoms of `in order`, with commas between, each is below all that follow.
const ROWS: &str = "atoms|in meets|/P/a:3-9|/P/a:4-4
atoms|out meets|/P/a:3-9|/P/a:9-12
atoms|out apart|/P/a:3-9|/P/a:10-12
atoms|out apart|/P/a:3-9|/P/b:4-4
atoms|out meets|/P/a:3-9|/P/a/x
atoms|out meets|/P/a:3-9|/P/a
atoms|in meets|/P|/P/a:3-9
atoms|in meets|/P/a|/P/a:3-9
atoms|out meets|/P/a/x|/P/a:3-9
atoms|out apart|/Q|/P/a:3-9
atoms|in meets|/P|/P/src
atoms|out meets|/P/src|/P
atoms|out apart|/P|/PQ
atoms|in meets|m|m
atoms|out apart|m|n
atoms|out apart|/|m
atoms|in meets|/P/a:9-3|/P/a:9-3
atoms|out apart|/P/a:1-9|/P/a:9-3
equal|yes|/P+/P/a|/P
equal|yes|/P/a+/P|/P
equal|yes|/P+/P|/P
equal|yes|/P/a:3-9+/P/a:4-4|/P/a:3-9
equal|yes|/P+/P/a:1-2|/P
equal|yes|m+/P|/P+m
equal|no|m+/P|/P
kinds|path mutex |m+/P
kinds|path |/P+/P/a
kinds|mutex lines |/P/a:3-9+m
rules|in meets|/P+/R|/P/a+/R/b
rules|out meets|/P/a+/R/b|/P+/R
rules|out apart|/P+/R|/Q
rules|out meets|/P+/R|/P/a+/Q
rules|in apart|/|
rules|in apart||
rules|out apart||/
null|yes|
null|no|/
in order|yes|/,/P/z,/PQ,a,b,/P:7-8,/P/a:2-9,/P/a:3-3,/P/a:3-10";

fn atom(rt: &impl Abort, alloc: Global, text: &str) -> WsAtom {
    if let Some((file, lines)) = text.split_once(':') {
        let (from, to) = cut(lines, '-');
        return WsAtom::Lines {
            file: path(rt, alloc, file),
            from: number(from),
            to: number(to),
        };
    }
    if text.starts_with('/') {
        WsAtom::Path(path(rt, alloc, text))
    } else {
        WsAtom::Mutex(name(rt, alloc, text))
    }
}

fn rule_of(rt: &impl Abort, alloc: Global, text: &str) -> Rule<WsAtom> {
    must(rt, Rule::of(alloc, atom(rt, alloc, text)))
}

/// The rule that is spelt with at most two atoms.
pub fn rule(rt: &impl Abort, alloc: Global, text: &str) -> Rule<WsAtom> {
    if text.is_empty() {
        return Rule::null(alloc);
    }
    let (one, two) = cut(text, '+');
    if two.is_empty() {
        return rule_of(rt, alloc, one);
    }
    let (one, two) = (rule_of(rt, alloc, one), rule_of(rt, alloc, two));
    must(rt, Rule::combine(alloc, &one, &two))
}

fn meeting(contains: bool, conflicts: bool, back: bool) -> &'static str {
    if conflicts != back {
        "one-sided"
    } else if contains {
        if conflicts { "in meets" } else { "in apart" }
    } else if conflicts {
        "out meets"
    } else {
        "out apart"
    }
}

fn atoms(rt: &impl Abort, alloc: Global, row: &Row<'_>) -> &'static str {
    let one = atom(rt, alloc, row.one);
    let two = must(rt, atom(rt, alloc, row.two).copy());
    meeting(one.contains(&two), one.conflicts(&two), two.conflicts(&one))
}

fn rules(rt: &impl Abort, alloc: Global, row: &Row<'_>) -> &'static str {
    let one = rule(rt, alloc, row.one);
    let two = must(rt, rule(rt, alloc, row.two).copy());
    meeting(one.contains(&two), one.conflicts(&two), two.conflicts(&one))
}

/// The kinds of a rule's atoms, each with a space behind.
fn say_kinds(rt: &impl Abort, told: &mut String, rule: &Rule<WsAtom>) {
    for atom in rule.atoms() {
        say(
            rt,
            told,
            match atom {
                WsAtom::Path(_) => "path ",
                WsAtom::Mutex(_) => "mutex ",
                WsAtom::Lines { .. } => "lines ",
            },
        );
    }
}

fn are_in_order(rt: &impl Abort, alloc: Global, atoms: &str) -> bool {
    for (i, one) in atoms.split(',').enumerate() {
        for (j, two) in atoms.split(',').enumerate() {
            let (one, two) = (atom(rt, alloc, one), atom(rt, alloc, two));
            if one.cmp(&two) != i.cmp(&j) || (one == two) != (i == j) {
                return false;
            }
        }
    }
    true
}

/// Whether the row's word is one of rules, of which then it tells.
pub fn tell(rt: &impl Abort, alloc: Global, row: &Row<'_>, told: &mut String) -> bool {
    match row.word {
        "atoms" => say(rt, told, atoms(rt, alloc, row)),
        "rules" => say(rt, told, rules(rt, alloc, row)),
        "kinds" => say_kinds(rt, told, &rule(rt, alloc, row.one)),
        "equal" => say(
            rt,
            told,
            yes(rule(rt, alloc, row.one) == rule(rt, alloc, row.two)),
        ),
        "null" => say(rt, told, yes(rule(rt, alloc, row.one).is_null())),
        "in order" => say(rt, told, yes(are_in_order(rt, alloc, row.one))),
        _ => return false,
    }
    true
}

#[test]
fn atoms_and_rules_are_what_the_rows_say(rt: HostRuntime) {
    play(&rt, rt.alloc(), ROWS);
}
