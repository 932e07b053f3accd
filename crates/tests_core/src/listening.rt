//! Listeners of the program.
ghost use Rattle.std.specs.Prelude.{None};

use crate::asserting::{holds, let_go, must, reads, same};
use crate::builders::Asked;
use crate::running::{run, source};
use delta_kind::Delta;
use report_text::delta_lines;
use save_round::Notes;
use std::alloc::Global;
use std::process::Abort;
use ws_outside::{MemDisk, MemSink};
use ws_top::{Listener, Outcome};

/// A listener that writes down what it is told, as far as memory suffices.
#[derive(Drop)]
pub struct Note {
    text: Vec<u8>,
    alloc: Global,
}

impl Listener for Note {
    ghost heard = { λ _. None };

    fn told(&mut self, delta: &Delta) {
        if let Ok(lines) = delta_lines(self.alloc, delta) {
            let _ = self.text.extend_from_slice(lines.as_slice());
            let _ = self.text.extend_from_slice(b"-\n");
        }
    }
}

/// What comes of the script, where two listen.
pub fn heard(
    rt: &(impl Abort + AllocGlobal),
    script: &str,
) -> Outcome<MemDisk, Note, Asked, Notes> {
    let mut listeners = Vec::new(rt.alloc());
    for _ in 0..2_u64 {
        let note = Note {
            text: Vec::new(rt.alloc()),
            alloc: rt.alloc(),
        };
        must(rt, listeners.push(note));
    }
    let mut source = source(rt, script);
    let mut sink = MemSink::new(rt.alloc());
    let builders = Vec::new(rt.alloc());
    let outcome = run(rt, "run a b", &mut source, &mut sink, builders, listeners);
    same(rt, "status", outcome.status, 0);
    outcome
}

const SCRIPT: &str = "\
phase
job a 30 null
create project /P
create file /P/a hi
endjob
endphase
phase
job b 30 null
batch
write /P/a ho
checkpoint
delete /P/a
endjob
endphase
";

/// What each change tells, and a line after it. The batch is ended with its job.
const TOLD: &str = "  / *
  /P + OPEN
-
  / *
  /P *
  /P/a +
-
  / *
  /P *
  /P/a * CONTENT
-
  / *
  /P *
  /P/a -
-
";

#[test]
fn each_listener_is_told_what_each_phase_changed(rt: HostRuntime) {
    let outcome = heard(&rt, SCRIPT);
    let Outcome { history, kit, .. } = outcome;
    let_go(history);
    let listeners = kit.listeners.into_vec();
    same(&rt, "listeners", listeners.len(), 2);
    for listener in listeners.as_slice() {
        reads(&rt, "told", listener.text.as_slice(), TOLD);
    }
    let_go(listeners);
    let none = heard(&rt, "");
    holds(&rt, "nothing was done", none.history.is_empty());
    let_go(none);
}
