//! The program over sources and sinks in memory.
use crate::asserting::{let_go, must, reads};
use crate::rows::{cut, lines_of, number};
use crate::running;
use report_text::{put_counted, put_text};
use std::process::Abort;
use ws_outside::{MemSink, MemSource};

/// Words, a script, the read and the write that fail; and then the status, how many entries, reads and writes there were,
/// and what was written. `/` ends a line. A read gives at most seven bytes, a write takes at most 14. The first script has 36
/// bytes, and its text 69 before the last line.
///
/// Each call fails once. The first cause counts, and other words than `run` read nothing.
const RUNS: &str = "\
run a b|phase/job j 30 null/endjob/endphase/|9|9|0 5 7 6|p0 schedule j 30 null -> ok/p1 take -> j/p1 finish -> ok/since start/status 0/
run a b|phase/job j 30 null/endjob/endphase/|0|9|3 0 1 1|status 3/
run a b|phase/job j 30 null/endjob/endphase/|1|9|3 0 2 1|status 3/
run a b|phase/job j 30 null/endjob/endphase/|5|9|3 0 6 1|status 3/
run a b|phase/job j 30 null/endjob/endphase/|6|9|3 0 7 1|status 3/
run a b|phase/job j 30 null/endjob/endphase/|9|0|4 5 7 1|
run a b|phase/job j 30 null/endjob/endphase/|9|1|4 5 7 2|p0 schedule j\u{20}
run a b|phase/job j 30 null/endjob/endphase/|9|2|4 5 7 3|p0 schedule j 30 null -> ok/
run a b|phase/job j 30 null/endjob/endphase/|9|3|4 5 7 4|p0 schedule j 30 null -> ok/p1 take -> j/p
run a b|phase/job j 30 null/endjob/endphase/|9|4|4 5 7 5|p0 schedule j 30 null -> ok/p1 take -> j/p1 finish -> ok
run a b|phase/job j 30 null/endjob/endphase/|9|5|4 5 7 6|p0 schedule j 30 null -> ok/p1 take -> j/p1 finish -> ok/since start/
run a b|phase/job j 30 null/endjob/endphase/|6|0|3 0 7 1|
run a b|phase/|9|9|6 0 2 2|status 6 line 2/
run a b|phase/|9|1|6 0 2 2|status 6 line\u{20}
run a b|phase/|1|0|3 0 2 1|
run a a|phase/|0|9|2 0 0 1|status 2/
run a|phase/|0|0|2 0 0 1|
check a b|phase/|0|9|0 0 0 5|left closed/right closed/chosen none/elements 1/status 0/
check a b|phase/|0|1|4 0 0 2|left closed/ri
check a a|phase/|0|9|2 0 0 1|status 2/
gen 07|phase/|0|9|2 0 0 1|status 2/
gen 7|phase/|0|0|4 0 0 1|
gen 7|phase/|0|1|4 0 0 2|phase/job setu
--help|phase/|0|99|0 0 0 38|wsrun run A B//Runs the script on standard input, on the workspace that the area files A and B hold, and prints what was done. A save goes into these files.//wsrun check A B//Prints what the area files A and B hold.//wsrun gen N//Prints the script that the number N gives, which has at most nine digits.//wsrun load N A B//Runs that script on the workspace that A and B hold, as run does, and prints how many jobs were finished, how many builds settled, how many elements the workspace has then, and the digest of its tree./
--version|phase/|0|9|0 0 0 1|wsrun 0.1.0/
--version|phase/|0|0|4 0 0 1|";

/// The call of this number is to fail.
fn call(rt: &(impl Abort + AllocGlobal), number_text: &str) -> Vec<u64> {
    must(rt, vec![in rt.alloc(); number(number_text)])
}

/// What comes of a run: the status, how many entries, reads and writes there were, and what was written.
fn run(
    rt: &(impl Abort + AllocGlobal),
    asked: &str,
    mut source: MemSource,
    mut sink: MemSink,
) -> Vec<u8> {
    let builders = Vec::new(rt.alloc());
    let listeners = Vec::new(rt.alloc());
    let outcome = running::run(rt, asked, &mut source, &mut sink, builders, listeners);
    let mut out = Vec::new(rt.alloc());
    must(rt, put_counted(&mut out, "", u64::from(outcome.status)));
    must(rt, put_counted(&mut out, " ", outcome.history.len() as u64));
    let_go(outcome);
    must(rt, put_counted(&mut out, " ", source.calls()));
    must(rt, put_counted(&mut out, " ", sink.calls()));
    must(rt, put_text(&mut out, "|"));
    must(rt, out.extend_from_slice(sink.written()));
    out
}

#[test]
fn the_first_read_or_write_that_fails_is_told(rt: HostRuntime) {
    for row in RUNS.lines() {
        let (asked, rest) = cut(row, "|");
        let (text, rest) = cut(rest, "|");
        let (read, rest) = cut(rest, "|");
        let (write, wanted) = cut(rest, "|");
        let source = MemSource::new(rt.alloc(), lines_of(&rt, text).into_bytes());
        let source = source.giving_at_most(7).failing_at(call(&rt, read));
        let sink = MemSink::new(rt.alloc()).taking_at_most(14);
        let found = run(&rt, asked, source, sink.failing_at(call(&rt, write)));
        reads(&rt, row, found.as_slice(), lines_of(&rt, wanted).as_str());
    }
}
