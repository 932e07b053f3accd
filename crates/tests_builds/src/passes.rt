//! Calls of passes, row by row.
use crate::asserting::{must, name_of};
use crate::jobs::{put_number, put_rule, rule_in};
use crate::orders::{cut, put};
use pass_table::{NoMemory, Passes, TransferError};
use rule_table::{BeginError, EndError};
use sched_rules::WsAtom;
use std::process::Abort;

/// A row has a call, what it gives, the pass, and what else the call has: a rule, which is a path; the other pass; a job's name
/// and its rule. The rows go on with the same passes from `new` on.
///
/// In turn: rules within and outside one's own, in conflict, ended in the wrong order, handed to a pass that isn't there, that has
/// rules, to the pass itself, and to one that has none; passes that are busy don't leave, and no number is given twice; batches of
/// two passes; a job with its rule, its batch and its end.
const ROWS: &str = "new|ok
busy|no|0
quiet|yes|
enter|1|
enter|2|
has|yes|2
has|no|3
begin|ok|1|/P/src
begin|ok|1|/P/src/a
begin|outside /P/src/a|1|/Q
begin|1 has /P/src|2|/P/src/b
end|not the last of 2|1|/P/src
end|nothing|2|/P/src
transfer|no pass|1|9
transfer|nothing|2|1
transfer|has rules|1|1
transfer|ok|1|2
end|nothing|1|/P/src/a
busy|yes|2
busy|no|1
transfer|no pass|1|9
end|ok|2|/P/src/a
leave|busy|2
leave|ok|1
has|no|1
end|ok|2|/P/src
leave|ok|2
next|3|
enter|3|
batch|ok|0
batch|ok|3
batch|ok|3
quiet|no|
batches|2|3
unbatch|ok|3
unbatch|ok|0
quiet|no|
unbatch|none|0
unbatch|ok|3
quiet|yes|
run|ok|3|j /P
job|j|3
job|none|0
busy|yes|3
begin|3 has /P|0|/P/x
batch|ok|3
leave|busy|3
finish|j|3
quiet|yes|
busy|no|3
finish|none|3
begin|ok|0|/P/x
leave|busy|0
end|ok|0|/P/x
batch|ok|0
leave|busy|0
unbatch|ok|0
leave|ok|0
leave|ok|3
enter|4|";

fn put_is(rt: &impl Abort, out: &mut String, is: bool) {
    put(rt, out, if is { "yes" } else { "no" });
}

fn put_done(rt: &impl Abort, out: &mut String, is_done: bool, refused: &str) {
    put(rt, out, if is_done { "ok" } else { refused });
}

fn put_begun(rt: &impl Abort, out: &mut String, done: Result<(), BeginError<WsAtom>>) {
    match done {
        Ok(()) => put(rt, out, "ok"),
        Err(BeginError::NotContained { outer }) => {
            put(rt, out, "outside ");
            put_rule(rt, out, &outer);
        }
        Err(BeginError::Conflict { holder, rule }) => {
            put_number(rt, out, holder);
            put(rt, out, " has ");
            put_rule(rt, out, &rule);
        }
        Err(BeginError::Memory) => put(rt, out, "memory"),
    }
}

fn put_ended(rt: &impl Abort, out: &mut String, done: Result<(), EndError>) {
    match done {
        Ok(()) => put(rt, out, "ok"),
        Err(EndError::NotLast { held }) => {
            put(rt, out, "not the last of ");
            put_number(rt, out, held);
        }
        Err(EndError::HoldsNothing) => put(rt, out, "nothing"),
        Err(EndError::TargetHolds) => put(rt, out, "has rules"),
    }
}

fn transferred(done: Result<(), TransferError>) -> &'static str {
    match done {
        Ok(()) => "ok",
        Err(TransferError::NoPass) => "no pass",
        Err(TransferError::HoldsNothing) => "nothing",
        Err(TransferError::TargetHolds) => "has rules",
    }
}

fn number(text: &str) -> u64 {
    match text.parse() {
        Ok(number) => number,
        Err(_) => 0,
    }
}

fn batch(passes: &mut Passes<WsAtom>, pass: u64) -> bool {
    passes.has(pass) && passes.begin_batch(pass).is_ok()
}

fn run(rt: &(impl Abort + AllocGlobal), passes: &mut Passes<WsAtom>, pass: u64, job: &str) -> bool {
    let (name, rule) = cut(job, ' ');
    let rule = rule_in(rt, rule);
    passes.has(pass)
        && !passes.is_busy(pass)
        && passes.rules().is_free(&rule)
        && passes.run(pass, name_of(rt, name), rule).is_ok()
}

fn finish(rt: &impl Abort, passes: &mut Passes<WsAtom>, pass: u64, out: &mut String) {
    match passes.finish(pass) {
        Some(name) => put(rt, out, name.text()),
        None => put(rt, out, "none"),
    }
}

/// Makes a call that changes passes.
fn change(
    rt: &(impl Abort + AllocGlobal),
    passes: &mut Passes<WsAtom>,
    (word, pass, what): (&str, u64, &str),
    out: &mut String,
) {
    match word {
        "begin" => put_begun(rt, out, passes.begin(pass, rule_in(rt, what))),
        "end" => put_ended(rt, out, passes.end(pass, &rule_in(rt, what))),
        "transfer" => put(rt, out, transferred(passes.transfer(pass, number(what)))),
        "leave" => put_done(rt, out, passes.leave(pass).is_ok(), "busy"),
        "batch" => put_done(rt, out, batch(passes, pass), "memory"),
        "unbatch" => put_done(rt, out, passes.end_batch(pass).is_ok(), "none"),
        "run" => put_done(rt, out, run(rt, passes, pass, what), "refused"),
        _ => finish(rt, passes, pass, out),
    }
}

fn enter(rt: &impl Abort, passes: &mut Passes<WsAtom>, out: &mut String) {
    match passes.enter() {
        Ok(pass) => put_number(rt, out, pass),
        Err(_) => put(rt, out, "memory"),
    }
}

fn put_job(rt: &impl Abort, out: &mut String, passes: &Passes<WsAtom>, pass: u64) {
    match passes.job(pass) {
        Some(name) => put(rt, out, name.text()),
        None => put(rt, out, "none"),
    }
}

/// Makes the call, and tells what it gives.
fn tell(
    rt: &(impl Abort + AllocGlobal),
    passes: &mut Passes<WsAtom>,
    call: (&str, u64, &str),
    out: &mut String,
) {
    let (word, pass, _) = call;
    match word {
        "new" => put(rt, out, "ok"),
        "enter" => enter(rt, passes, out),
        "next" => put_number(rt, out, passes.next()),
        "has" => put_is(rt, out, passes.has(pass)),
        "busy" => put_is(rt, out, passes.is_busy(pass)),
        "quiet" => put_is(rt, out, passes.is_quiet()),
        "batches" => put_number(rt, out, passes.batches(pass)),
        "job" => put_job(rt, out, passes, pass),
        _ => change(rt, passes, call, out),
    }
}

fn tell_all(rt: &(impl Abort + AllocGlobal), passes: &mut Passes<WsAtom>) {
    for row in ROWS.lines() {
        let (word, rest) = cut(row, '|');
        let (gives, rest) = cut(rest, '|');
        let (pass, what) = cut(rest, '|');
        let mut out = String::new(rt.alloc());
        tell(rt, passes, (word, number(pass), what), &mut out);
        assert!(rt; out.as_str() == gives, "{row} gives {out}");
    }
}

fn first(rt: &(impl Abort + AllocGlobal)) -> Result<Passes<WsAtom>, NoMemory> {
    Passes::first(rt.alloc())
}

#[test]
fn passes_are_called_as_the_rows_say(rt: HostRuntime) {
    let mut passes = must(&rt, first(&rt));
    let copy = must(&rt, passes.copy());
    tell_all(&rt, &mut passes);
    let mut again = copy;
    tell_all(&rt, &mut again);
}
