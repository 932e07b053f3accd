//! Calls of a queue, row by row.
use crate::asserting::{must, name_of};
use crate::orders::{cut, put};
use job_queue::{JobError, JobQueue, JobState};
use res_path::Path;
use rule_table::RuleTable;
use sched_rules::{Rule, WsAtom};
use std::fmt::Write;
use std::process::Abort;

/// A row has a call, what it gives, the job's name, and what else the call has: `schedule` and `asleep` a priority and a
/// rule, `hold` and `drop` the holder of a rule. A rule is a path, or a mutex, or nothing. The rows go on with one queue
/// and one table of held rules from each `new` on.
///
/// What is told of a refusal is the platform's number of the state, or the word of another cause; of a state the number.
/// In turn: all calls of states that they aren't for; the lesser priority number first; one priority in the order of
/// scheduling, whatever the names; a job keeps its place while it sleeps, and has a new one when it is scheduled again;
/// what is in conflict stands back; and jobs that wake others.
const ROWS: &str = "new|ok
next|none
live|0
sleep|unknown|j
wake|unknown|j
cancel|unknown|j
start|unknown|j
finish|unknown|j
state|unknown|j
schedule|ok|j|30|/P
state|2|j
schedule|2|j|30|/P
wake|2|j
finish|2|j
live|1
sleep|ok|j
state|1|j
live|0
next|none
schedule|1|j|30|/P
sleep|1|j
start|1|j
finish|1|j
wake|ok|j
next|j
start|/P|j
state|4|j
live|1
next|none
schedule|4|j|30|/P
sleep|4|j
wake|4|j
cancel|4|j
start|4|j
finished|0
finish|ok|j
state|0|j
live|0
finished|1
sleep|0|j
wake|0|j
cancel|0|j
start|0|j
finish|0|j
asleep|ok|j|30|
state|1|j
cancel|ok|j
cancel|0|j
schedule|ok|j|30|
cancel|ok|j
state|0|j
finished|1
next|none
new|ok
schedule|ok|a|50|
schedule|ok|b|10|
schedule|ok|c|255|
schedule|ok|d|0|
next|d
start||d
next|b
start||b
next|a
start||a
next|c
live|4
new|ok
schedule|ok|c|30|
schedule|ok|b|30|
schedule|ok|a|30|
next|c
sleep|ok|c
next|b
wake|ok|c
next|c
cancel|ok|c
next|b
schedule|ok|c|30|
next|b
start||b
next|a
finish|ok|b
start||a
next|c
new|ok
schedule|ok|a|10|/P
schedule|ok|b|20|/Q
schedule|ok|c|30|
schedule|ok|d|5|m
hold|ok|1||/P/src
hold|ok|2||m
next|b
hold|ok|3||/Q
next|c
start||c
next|none
drop|ok|2
next|d
drop|ok|1
start|m|d
next|a
cancel|ok|a
next|none
drop|ok|3
next|b
live|3
new|ok
schedule|ok|x|30|
schedule|ok|y|10|
asleep|ok|z|20|
asleep|ok|w|50|
next|y
start||y
finish|ok|y
next|x
start||x
wake|ok|z
cancel|unknown|q
wake|4|x
finish|ok|x
next|z
start||z
finish|ok|z
next|none
cancel|ok|w
live|0
finished|3";

/// The queue and the held rules of some rows.
#[derive(Drop)]
struct Board {
    queue: JobQueue<WsAtom>,
    held: RuleTable<WsAtom>,
}

/// What a call is given.
#[derive(Clone, Copy)]
struct Given<'a> {
    name: &'a str,
    priority: &'a str,
    rule: &'a str,
}

fn number(text: &str) -> u8 {
    match text.parse() {
        Ok(number) => number,
        Err(_) => 0,
    }
}

pub fn rule_in(rt: &(impl Abort + AllocGlobal), text: &str) -> Rule<WsAtom> {
    if text.is_empty() {
        return Rule::null(rt.alloc());
    }
    let atom = if text.starts_with('/') {
        WsAtom::Path(must(rt, Path::parse(rt.alloc(), text)))
    } else {
        WsAtom::Mutex(name_of(rt, text))
    };
    must(rt, Rule::of(rt.alloc(), atom))
}

pub fn put_number(rt: &impl Abort, out: &mut String, number: u64) {
    must(rt, write!(out, "{number}"));
}

fn put_done(rt: &impl Abort, out: &mut String, done: Result<(), JobError>) {
    match done {
        Ok(()) => put(rt, out, "ok"),
        Err(JobError::UnknownJob) => put(rt, out, "unknown"),
        Err(JobError::WrongState(state)) => put_number(rt, out, u64::from(state.number())),
        Err(JobError::NumbersUsed) => put(rt, out, "numbers"),
        Err(JobError::Memory) => put(rt, out, "memory"),
    }
}

fn put_state(rt: &impl Abort, out: &mut String, state: Option<JobState>) {
    match state {
        Some(state) => put_number(rt, out, u64::from(state.number())),
        None => put(rt, out, "unknown"),
    }
}

pub fn put_rule(rt: &impl Abort, out: &mut String, rule: &Rule<WsAtom>) {
    for atom in rule.atoms() {
        match atom {
            WsAtom::Path(path) => put(rt, out, path.as_str()),
            WsAtom::Mutex(name) => put(rt, out, name.text()),
            WsAtom::Lines { .. } => put(rt, out, "lines"),
        }
    }
}

fn schedule(
    rt: &(impl Abort + AllocGlobal),
    queue: &mut JobQueue<WsAtom>,
    given: Given<'_>,
    asleep: bool,
) -> Result<(), JobError> {
    let rule = rule_in(rt, given.rule);
    queue.schedule(
        name_of(rt, given.name),
        number(given.priority),
        rule,
        asleep,
    )
}

fn start(
    rt: &(impl Abort + AllocGlobal),
    queue: &mut JobQueue<WsAtom>,
    name: &str,
    out: &mut String,
) {
    match queue.start(&name_of(rt, name)) {
        Ok(rule) => put_rule(rt, out, &rule),
        Err(error) => put_done(rt, out, Err(error)),
    }
}

fn put_next(rt: &impl Abort, out: &mut String, board: &Board) {
    match board.queue.next(&board.held) {
        Some(name) => put(rt, out, name.text()),
        None => put(rt, out, "none"),
    }
}

/// Makes one of the calls that take a job's name alone.
fn call(
    rt: &(impl Abort + AllocGlobal),
    queue: &mut JobQueue<WsAtom>,
    word: &str,
    name: &str,
) -> Result<(), JobError> {
    let name = name_of(rt, name);
    match word {
        "sleep" => queue.sleep(&name),
        "wake" => queue.wake(&name),
        "cancel" => queue.cancel(&name),
        _ => queue.finish(&name),
    }
}

fn tell(
    rt: &(impl Abort + AllocGlobal),
    board: &mut Board,
    word: &str,
    given: Given<'_>,
    out: &mut String,
) {
    let holder = u64::from(number(given.name));
    match word {
        "new" => {
            *board = empty(rt);
            put(rt, out, "ok");
        }
        "hold" => {
            must(rt, board.held.begin(holder, rule_in(rt, given.rule)));
            put(rt, out, "ok");
        }
        "drop" => {
            board.held.drop_all(holder);
            put(rt, out, "ok");
        }
        "next" => put_next(rt, out, board),
        "live" => put_number(rt, out, board.queue.live()),
        "finished" => put_number(rt, out, board.queue.finished()),
        "state" => put_state(rt, out, board.queue.state(&name_of(rt, given.name))),
        "start" => start(rt, &mut board.queue, given.name, out),
        "schedule" => put_done(rt, out, schedule(rt, &mut board.queue, given, false)),
        "asleep" => put_done(rt, out, schedule(rt, &mut board.queue, given, true)),
        _ => put_done(rt, out, call(rt, &mut board.queue, word, given.name)),
    }
}

fn empty(rt: &(impl Abort + AllocGlobal)) -> Board {
    Board {
        queue: JobQueue::empty(rt.alloc()),
        held: RuleTable::empty(rt.alloc()),
    }
}

#[test]
fn jobs_are_called_as_the_rows_say(rt: HostRuntime) {
    let mut board = empty(&rt);
    for row in ROWS.lines() {
        let (word, rest) = cut(row, '|');
        let (gives, rest) = cut(rest, '|');
        let (name, rest) = cut(rest, '|');
        let (priority, rule) = cut(rest, '|');
        let given = Given {
            name,
            priority,
            rule,
        };
        let mut out = String::new(rt.alloc());
        tell(&rt, &mut board, word, given, &mut out);
        assert!(rt; out.as_str() == gives, "{row} gives {out}");
    }
}
