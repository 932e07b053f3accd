//! Who holds which rules, row by row.
use crate::asserting::must;
use crate::atoms::rule;
use crate::rows::{Row, number, play, say, say_number, yes};
use rule_table::{BeginError, EndError, RuleTable};
use sched_rules::{Rule, WsAtom};
use std::alloc::Global;
use std::process::Abort;

/// The rows go on with one table from each `new` on. `begin` and `admit` have a holder, a rule, and the rule that a
/// refusal names; `last` and `outer` a holder and the rule that is found; `end` a holder and a rule; `transfer` two
/// holders.
const ROWS: &str = "new|ok
begin|ok|1|/P
begin|conflict 1|2|/P/src|/P
admit|conflict 1|2|/P/src|/P
admit|ok|2|/PQ
begin|ok|2|/PQ
free|no|/P/src
free|yes|/Q
new|ok
begin|ok|1|/P+/R
begin|outside|1|/Q|/P+/R
begin|ok|1|/P/a+/R/b
end|last 2|1|/P+/R
end|nothing|3|/P
end|ok|1|/P/a+/R/b
end|ok|1|/P+/R
last|none|1
new|ok
begin|ok|1|m
begin|outside|1|/Q/x|m
new|ok
begin|ok|1|/P
begin|ok|1|
begin|outside|1|/Q|/P
outer|this|1|/P
last|this|1|
outer|none|2
new|ok
begin|ok|7|/P/a
begin|ok|3|
begin|ok|3|/P/b
begin|ok|3|/P/b/c
begin|ok|5|/P/d
begin|conflict 3|9|/|/P/b
new|ok
begin|ok|1|/P
begin|ok|2|/Q
begin|ok|1|/P/a
transfer|nothing|4|3
transfer|holds|1|2
transfer|holds|1|1
transfer|ok|1|3
last|none|1
last|this|3|/P/a
end|ok|3|/P/a
outer|this|3|/P
new|ok
begin|ok|1|/P
begin|ok|2|/Q
begin|ok|1|/P/a
copied|no|/P
drop|ok|1
last|none|1
last|this|2|/Q
free|yes|/P
copied|no|/Q";

type Table = RuleTable<WsAtom>;

fn say_begun(
    rt: &impl Abort,
    alloc: Global,
    told: &mut String,
    row: &Row<'_>,
    begun: Result<(), BeginError<WsAtom>>,
) {
    let Err(error) = begun else {
        return say(rt, told, "ok");
    };
    let named = rule(rt, alloc, row.three);
    match must(rt, error.copy()) {
        BeginError::Conflict { holder, rule } if rule == named => {
            say(rt, told, "conflict ");
            say_number(rt, told, holder);
        }
        BeginError::NotContained { outer } if outer == named => say(rt, told, "outside"),
        BeginError::Memory => say(rt, told, "memory"),
        _ => say(rt, told, "another rule"),
    }
}

fn say_ended(rt: &impl Abort, told: &mut String, ended: Result<(), EndError>) {
    match ended {
        Ok(()) => say(rt, told, "ok"),
        Err(EndError::NotLast { held }) => {
            say(rt, told, "last ");
            say_number(rt, told, held);
        }
        Err(EndError::HoldsNothing) => say(rt, told, "nothing"),
        Err(EndError::TargetHolds) => say(rt, told, "holds"),
    }
}

fn say_found(
    rt: &impl Abort,
    alloc: Global,
    told: &mut String,
    row: &Row<'_>,
    found: Option<&Rule<WsAtom>>,
) {
    match found {
        None => say(rt, told, "none"),
        Some(found) if *found == rule(rt, alloc, row.two) => say(rt, told, "this"),
        Some(_) => say(rt, told, "another"),
    }
}

/// Whether the row's word is one of tables, of which then it tells.
pub fn tell(
    rt: &impl Abort,
    alloc: Global,
    row: &Row<'_>,
    table: &mut Table,
    told: &mut String,
) -> bool {
    let holder = u64::from(number(row.one));
    let other = u64::from(number(row.two));
    match row.word {
        "new" => {
            *table = RuleTable::empty(alloc);
            say(rt, told, "ok");
        }
        "drop" => {
            table.drop_all(holder);
            say(rt, told, "ok");
        }
        "begin" => {
            let begun = table.begin(holder, rule(rt, alloc, row.two));
            say_begun(rt, alloc, told, row, begun);
        }
        "admit" => {
            let admitted = table.admit(holder, &rule(rt, alloc, row.two));
            say_begun(rt, alloc, told, row, admitted);
        }
        "end" => say_ended(rt, told, table.end(holder, &rule(rt, alloc, row.two))),
        "transfer" => say_ended(rt, told, table.transfer(holder, other)),
        "last" => say_found(rt, alloc, told, row, table.last(holder)),
        "outer" => say_found(rt, alloc, told, row, table.outer(holder)),
        "free" => say(rt, told, yes(table.is_free(&rule(rt, alloc, row.one)))),
        "copied" => say(
            rt,
            told,
            yes(must(rt, table.copy()).is_free(&rule(rt, alloc, row.one))),
        ),
        _ => return false,
    }
    true
}

#[test]
fn rules_are_held_as_the_rows_say(rt: HostRuntime) {
    play(&rt, rt.alloc(), ROWS);
}
