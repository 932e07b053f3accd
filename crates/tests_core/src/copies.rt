//! Copies of what was done.
use crate::asserting::{holds, let_go, must, same};
use crate::listening::heard;
use core_event::Entry;
use run_text::print_entries;
use std::process::Abort;
use ws_outside::MemSink;

/// Answers of each kind, some with notices.
const SCRIPT: &str = "\
phase
job a 30 path /
batch
create project /P
create file /P/a hi
mark /P/a t name text x
endbatch
unmark /P/a 1
clearmarks /P t 2
cat /P/a
tree /
write /Q/b x
endbatch
begin path /P
trybegin mutex m
end path /P
wake b
endjob
job b 10 asleep null
endjob
endphase
";

/// The lines of the entries.
fn lines(rt: &(impl Abort + AllocGlobal), entries: &[Entry]) -> Vec<u8> {
    let mut sink = MemSink::new(rt.alloc());
    let mut out = Vec::new(rt.alloc());
    let printed = print_entries(&mut sink, &mut out, entries);
    holds(rt, "printed", printed.is_ok());
    let_go(sink);
    out
}

#[test]
fn copies_of_what_was_done_read_as_it(rt: HostRuntime) {
    let outcome = heard(&rt, SCRIPT);
    let history = outcome.history;
    same(&rt, "entries", history.len(), 23);
    let copy = must(&rt, history.copy());
    let text = lines(&rt, history.entries());
    let_go(history);
    holds(&rt, "copy", lines(&rt, copy.entries()) == text);
    let_go(copy);
}
