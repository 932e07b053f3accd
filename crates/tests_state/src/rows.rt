//! Lists of events of several passes, whose answers were worked by hand. A line has the pass, the event and the answer, as
//! texts of runs have it; below it stands what is told, or that it left no entry.
use crate::asserting::{cut, holds, let_go, must, number};
use crate::playing::{start, told_by_both};
use std::process::Abort;

/// Rules in conflict with one or several that are held, within and outside one's own, null ones between; ended in the
/// wrong order; handed to a pass that isn't there, that has rules, and to one that has none; and operations and passes
/// under rules. Only the form that doesn't wait leaves an entry where another's rule is in the way.
const RULES: &str = "\
p0 enter -> id 1
p0 enter -> id 2
p1 begin path /P -> ok
p2 trybegin path /P/src -> refused 30 1 path /P
p2 begin path /P/src -> refused 30 1 path /P
no entry
p2 trybegin path /PQ -> ok
p2 end path /P/src -> refused 19 1
p2 end path /PQ -> ok
p2 end path /PQ -> refused 20
p0 transfer 9 -> refused 43
p0 transfer 1 -> refused 20
p0 transfer 0 -> refused 20
p2 begin path /Q -> ok
p2 transfer 9 -> refused 43
p2 transfer 1 -> refused 31
p2 transfer 2 -> refused 31
p2 transfer 0 -> ok
p2 end path /Q -> refused 20
p0 end path /Q -> ok
p1 end path /P -> ok
p2 begin path /P path /R -> ok
p2 begin path /Q -> refused 15 path /P path /R
p2 begin path /P/a path /R/b -> ok
p2 end path /P path /R -> refused 19 2
p2 transfer 1 -> ok
p1 end path /P/a path /R/b -> ok
p1 end path /P path /R -> ok
p1 end path /P -> refused 20
p2 begin null -> ok
p2 begin path /P -> ok
p2 begin null -> ok
p2 begin path /Q -> refused 15 path /P
p2 begin path /P/x -> ok
p2 end path /P -> refused 19 4
p2 end path /P/x -> ok
p2 end null -> ok
p2 end path /P -> ok
p2 end path /P -> refused 19 1
p2 begin mutex m -> ok
p1 trybegin mutex m -> refused 30 2 mutex m
p2 begin path /P -> refused 15 mutex m
p2 end mutex m -> ok
p2 begin path /P/a -> ok
p1 begin path /P/b -> ok
p0 trybegin path /P -> refused 30 1 path /P/b
p1 begin path /P/b/c -> ok
p0 trybegin path /P -> refused 30 1 path /P/b
p0 trybegin path /P/b/c/d -> refused 30 1 path /P/b
p0 trybegin path /P/a/d path /Q -> refused 30 2 path /P/a
p0 create project /P -> refused 30 1 path /P/b
no entry
p1 create project /P -> refused 15 path /P/b/c
p0 create project /Q -> ok
  / *
  /Q + OPEN
p0 show /P -> refused 10 /P
p2 write /P/a x -> refused 10 /P/a
p2 create file /P/a/f x -> refused 10 /P/a
p2 create file /P/f x -> refused 15 path /P/a
p1 leave -> refused 42
p1 end path /P/b/c -> ok
p1 leave -> refused 42
p1 end path /P/b -> ok
p1 leave -> ok
p0 transfer 1 -> refused 43
p0 enter -> id 3
p2 end path /P/a -> ok
p2 leave -> refused 42
p2 end null -> ok
p2 batch -> ok
p2 leave -> refused 42
p2 take -> refused 42
p2 endbatch -> ok
p2 endbatch -> refused 44
p2 leave -> ok
p0 schedule j 30 null -> ok
p0 begin path /P -> ok
p0 take -> refused 42
p0 end path /P -> ok
p3 take -> j
p3 leave -> refused 42
p3 take -> refused 42
p3 finish -> ok
p3 finish -> refused 41 0
p3 leave -> ok
p0 begin null -> ok
p0 leave -> refused 42
p0 end null -> ok
p0 leave -> ok
";

/// Calls in states of a job that they aren't for, of which no script can ask; a job with its rule and its batch, which end
/// with it; and one that has another place when it is scheduled again.
const JOBS: &str = "\
p0 finish -> refused 41 0
p0 take -> none
no entry
p0 schedule j 30 path /P -> ok
p0 schedule j 10 path /Q -> refused 41 2
p0 sleep j -> ok
p0 schedule j 30 null -> refused 41 1
p0 schedule j 30 asleep null -> refused 41 1
p0 take -> none
no entry
p0 cancel j -> ok
p0 schedule j 30 path /P -> ok
p0 enter -> id 1
p1 take -> j
p1 take -> refused 42
p0 schedule j 30 null -> refused 41 4
p0 begin path /P/x -> refused 30 1 path /P
no entry
p1 begin path /P/x -> ok
p1 batch -> ok
p1 end path /P -> refused 19 2
p1 finish -> ok
p1 end path /P/x -> refused 20
p1 endbatch -> refused 44
p1 finish -> refused 41 0
p0 begin path /P/x -> ok
p0 end path /P/x -> ok
p0 schedule y 20 null -> ok
p0 schedule x 20 null -> ok
p0 schedule z 20 null -> ok
p0 cancel y -> ok
p0 schedule y 20 null -> ok
p0 take -> x
p0 finish -> ok
p0 take -> z
p0 finish -> ok
p0 take -> y
p0 finish -> ok
p0 take -> none
no entry
";

/// What is in conflict stands back, and is taken once the rule is free.
const TURNS: &str = "\
p0 schedule e 10 path /P -> ok
p0 schedule f 20 path /Q -> ok
p0 schedule g 30 mutex m -> ok
p0 begin path /P/src -> ok
p0 enter -> id 1
p0 enter -> id 2
p0 enter -> id 3
p1 take -> f
p2 take -> g
p3 take -> none
no entry
p0 schedule h 40 mutex m -> ok
p3 take -> none
no entry
p0 take -> refused 42
p0 end path /P/src -> ok
p3 take -> e
p0 take -> none
no entry
p2 finish -> ok
p2 take -> h
p1 finish -> ok
p2 finish -> ok
p3 finish -> ok
";

/// What two batches did, one notice tells when the second ends; a checkpoint inside tells, and what it told isn't told
/// again; a refused event between changes nothing of what is told; and a job's end ends its batches.
const NOTICES: &str = "\
p0 enter -> id 1
p0 enter -> id 2
p0 create project /P -> ok
  / *
  /P + OPEN
p0 create file /P/a hi -> ok
  / *
  /P *
  /P/a +
p0 touch /P/a -> ok
  / *
  /P *
  /P/a * CONTENT
p0 copy /P/a /P/b -> ok
  / *
  /P *
  /P/b +
p0 derived /P/b on -> ok
  / *
  /P *
  /P/b * DERIVED_CHANGED
p0 derived /P/b on -> ok
p0 checkpoint -> ok
p1 batch -> ok
p2 batch -> ok
p1 write /P/a x -> ok
p2 write /P/b y -> ok
p0 create file /P/c z -> ok
p1 endbatch -> ok
p1 endbatch -> refused 44
p2 create file /P/a x -> refused 11 /P/a
p1 delete /P/n -> refused 10 /P/n
p2 endbatch -> ok
  / *
  /P *
  /P/a * CONTENT
  /P/b * CONTENT
  /P/c +
p2 endbatch -> refused 44
p1 batch -> ok
p1 touch /P/a -> ok
p2 batch -> ok
p2 checkpoint -> ok
  / *
  /P *
  /P/a * CONTENT
p0 checkpoint -> ok
p1 touch /P/b -> ok
p2 create file /P/b x -> refused 11 /P/b
p2 take -> refused 42
p1 endbatch -> ok
p1 leave -> ok
p2 endbatch -> ok
  / *
  /P *
  /P/b * CONTENT
p0 schedule j 30 path /P -> ok
p0 enter -> id 3
p3 take -> j
p3 batch -> ok
p3 batch -> ok
p3 delete /P/c -> ok
p2 delete /P/b -> refused 30 3 path /P
no entry
p2 batch -> ok
p3 endbatch -> ok
p3 finish -> ok
p2 touch /P/n -> refused 10 /P/n
p2 endbatch -> ok
  / *
  /P *
  /P/c -
p2 delete /P/b -> ok
  / *
  /P *
  /P/b -
p0 schedule j 30 path /P -> ok
p3 take -> j
p3 batch -> ok
p3 write /P/a z -> ok
p3 finish -> ok
  / *
  /P *
  /P/a * CONTENT
";

/// What both cores answer and tell of the list's events.
fn played(rt: &(impl Abort + AllocGlobal), list: &str, finished: u64) -> Vec<u8> {
    let mut both = start(rt);
    let mut out = Vec::new(rt.alloc());
    for line in list.lines() {
        let (asked, _) = cut(line, " -> ");
        let (pass, event) = cut(asked, " ");
        if let Some(pass) = pass.strip_prefix('p') {
            let lines = told_by_both(rt, &mut both, number(pass), event);
            must(rt, out.extend_from_slice(lines.as_slice()));
        }
    }
    let jobs = both.layered.jobs();
    holds(rt, jobs.live == 0 && jobs.finished == finished);
    let_go(both);
    out
}

/// Beside each list stands how many jobs it finished.
#[test]
fn events_are_answered_and_told_as_the_lists_say(rt: HostRuntime) {
    for (list, finished) in [(RULES, 1), (JOBS, 4), (TURNS, 4), (NOTICES, 2)] {
        let found = played(&rt, list, finished);
        assert_eq!(rt; str::from_utf8(found.as_slice()), Ok(list));
    }
}
