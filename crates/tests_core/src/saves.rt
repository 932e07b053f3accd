//! Saves of the program: over disks that fail at each call, and with participants that fail.
ghost use Rattle.std.specs.Prelude.{◌≡◌, ◌≤◌, None, Err};
ghost use Rattle.save_round.specs.Told.{HasRisen};

use crate::asserting::{holds, let_go, must, reads, same};
use crate::builders::Asked;
use crate::listening::Note;
use crate::rows::{cut, lines_of, lines_with, number};
use crate::running::{disk, kit_of, notes, run_over, source};
use bytes::Bytes;
use delta_kind::Delta;
use res_path::{Name, NoMemory};
use save_kind::{PartState, SaveKind};
use save_round::PartFault;
use std::alloc::Global;
use std::process::Abort;
use ws_outside::{MemDisk, MemSink};
use ws_top::{Kit, Outcome, Participant};

/// Three saves, the last two of them snapshots.
const THREE: &str = "phase
job j 30 path /
create project /P
save full
create file /P/a hi
save snapshot
create file /P/b ho
save snapshot
endjob
endphase
";

/// Ends of these saves, with the status; then how many elements the areas hold behind the run. `/` ends a line. A call on the
/// disk that fails ends the run as the areas are opened, or else the save that makes it; the saves behind that one are full
/// ones. The areas hold what was acknowledged last, or what the save that failed brought to them.
const ENDS: [&str; 4] = [
    "status 5/|elements 1/status 0/|",
    "p1 checkin save-failed -> ok/p1 checkin saved -> ok/p1 checkin saved -> ok/status 5/|elements 4/status 0/|",
    "p1 checkin saved -> ok/p1 checkin save-failed -> ok/p1 checkin saved -> ok/status 5/|elements 4/status 0/|",
    "p1 checkin saved -> ok/p1 checkin saved -> ok/p1 checkin save-failed -> ok/status 5/|elements 3/status 0/|elements 4/status 0/",
];

/// The same where no call fails.
const SAVED: &str =
    "p1 checkin saved -> ok/p1 checkin saved -> ok/p1 checkin saved -> ok/status 0/|elements 4/status 0/|";

/// What a run of the text over the disk writes in lines with these words, and the disk that it leaves with the kit.
pub fn ran<P: Participant>(
    rt: &(impl Abort + AllocGlobal),
    asked: &str,
    text: &str,
    words: &str,
    disk: MemDisk,
    kit: Kit<Note, Asked, P>,
) -> (String, MemDisk, Vec<P>) {
    let mut source = source(rt, text);
    let mut sink = MemSink::new(rt.alloc());
    let outcome = run_over(rt, asked, &mut source, &mut sink, disk, kit);
    let Outcome {
        history,
        areas,
        kit,
        ..
    } = outcome;
    let_go(history);
    let found = lines_with(rt, sink.written(), words);
    (found, areas.disk, kit.participants.into_vec())
}

/// The script over a disk on which these calls fail: how its saves end, what the areas hold then, and how many calls on the
/// disk it made.
fn saved_over(rt: &(impl Abort + AllocGlobal), failing: Vec<u64>) -> (String, String, u64) {
    let disk = disk(rt, b"", b"").failing_at(failing);
    let kit = kit_of(rt, notes(rt));
    let (ends, disk, parts) = ran(rt, "run a b", THREE, "checkin status", disk, kit);
    let_go(parts);
    let calls = disk.calls().len() as u64;
    let kit = kit_of(rt, notes(rt));
    let (held, disk, parts) = ran(rt, "check a b", "", "elements status", disk, kit);
    let_go(parts);
    let_go(disk);
    (ends, held, calls)
}

/// Both are as the row tells.
fn is_row(rt: &(impl Abort + AllocGlobal), row: &str, ends: &str, held: &str) -> bool {
    let (wanted, rest) = cut(row, "|");
    let (one, other) = cut(rest, "|");
    let holds_one = held == lines_of(rt, one).as_str() || held == lines_of(rt, other).as_str();
    ends == lines_of(rt, wanted).as_str() && holds_one
}

/// The row of this number.
fn row(number: usize) -> &'static str {
    match ENDS.get(number) {
        Some(row) => row,
        None => "",
    }
}

/// How many rows were met once this call has failed too, where so many were before. It is as the last of these tells, or the
/// next one.
fn met_with(rt: &(impl Abort + AllocGlobal), call: u64, met: usize) -> usize {
    let (ends, held, _) = saved_over(rt, must(rt, vec![in rt.alloc(); call]));
    if met > 0 && is_row(rt, row(met.saturating_sub(1)), ends.as_str(), held.as_str()) {
        return met;
    }
    let is_next = is_row(rt, row(met), ends.as_str(), held.as_str());
    holds(rt, row(met), is_next);
    met.saturating_add(1)
}

#[test]
fn each_call_on_the_disk_that_fails_ends_its_save(rt: HostRuntime) {
    let (ends, held, calls) = saved_over(&rt, Vec::new(rt.alloc()));
    let all_saved = is_row(&rt, SAVED, ends.as_str(), held.as_str());
    holds(&rt, SAVED, all_saved);
    let mut met = 0;
    for call in 0..calls {
        met = met_with(&rt, call, met);
    }
    same(&rt, "rows", met, ENDS.len());
}

/// A participant that keeps what it was called for so far, and answers the fault at its call of this number.
#[derive(Drop)]
pub struct Part {
    alloc: Global,
    name: Name,
    at: u64,
    fault: PartFault,
    calls: String,
    faults: u64,
}

impl Part {
    /// Writes the call down, and answers it.
    fn asked(&mut self, call: &str) -> Result<(), PartFault>
        ensures name { self.new.name ≡ self.old.name }
        ensures faults { self.old.faults ≤ self.new.faults }
        ensures failed { result ≡ Err PartFault.Failed → HasRisen self.old.faults self.new.faults }
    {
        let _ = self.calls.push_str(call);
        if self.calls.len() as u64 == self.at {
            self.faults = self.faults.saturating_add(1);
            return Err(self.fault);
        }
        Ok(())
    }
}

impl Participant for Part {
    ghost tells = { λ p. record { named = p.name; calls = None; faults = p.faults } };

    fn name(&self) -> &str {
        self.name.text()
    }

    fn prepare(&mut self, _kind: SaveKind) -> Result<(), PartFault> {
        self.asked("p")
    }

    fn saving(&mut self, _kind: SaveKind) -> Result<Option<PartState>, PartFault> {
        match self.asked("s") {
            Ok(()) => {
                let bytes = Bytes::copy_from_slice(self.alloc, self.calls.as_str().as_bytes())?;
                Ok(Some(PartState {
                    bytes,
                    needs_delta: true,
                }))
            }
            Err(fault) => Err(fault),
        }
    }

    fn done(&mut self) {
        let _ = self.calls.push_str("d");
    }

    fn rollback(&mut self) {
        let _ = self.calls.push_str("r");
    }

    fn restored(&mut self, bytes: &Bytes, delta: Option<&Delta>) -> Result<(), NoMemory> {
        self.calls
            .push_str(if delta.is_some() { "with tree " } else { "" })?;
        match str::from_utf8(bytes.as_slice()) {
            Ok(text) => self.calls.push_str(text),
            Err(_) => self.calls.push_str("?"),
        }
    }
}

/// Participants of these names, of which the one that is called b answers the fault at its call of this number.
fn parts(
    rt: &(impl Abort + AllocGlobal),
    names: &str,
    failing: u64,
    fault: PartFault,
) -> Vec<Part> {
    let mut all = Vec::new(rt.alloc());
    for name in names.split(' ') {
        let part = Part {
            alloc: rt.alloc(),
            name: must(rt, Name::parse(rt.alloc(), name)),
            at: if name == "b" { failing } else { 0 },
            fault,
            calls: String::new(rt.alloc()),
            faults: 0,
        };
        must(rt, all.push(part));
    }
    all
}

/// Appends what each participant was called for: `p` and `s` for prepare and saving, `d` and `r` for done and rollback.
fn put_calls(rt: &(impl Abort + AllocGlobal), text: &mut String, parts: Vec<Part>) {
    for part in parts.as_slice() {
        for word in [part.name.text(), " ", part.calls.as_str(), "\n"] {
            must(rt, text.push_str(word));
        }
    }
    let_go(parts);
}

/// Two saves, the second one a snapshot.
const TWO: &str = "phase
job j 30 path /
create project /P
save full
create file /P/a hi
save snapshot
endjob
endphase
";

/// The number of b's call that has a fault, and the fault. Then what three runs write of their ends, with the calls of each
/// participant: the script's; a check; and the empty script's, whose kit has two participants of one name. `/` ends a line.
const FAULTS: &str = "\
0|failed|p1 checkin saved -> ok/p1 checkin saved -> ok/status 0/a psdpsd/b psdpsd/c psdpsd/left open 1 1/chosen left/status 0/restored b/restored a/restored c/status 0/b with tree psdps/a with tree psdps/a /c with tree psdps/
1|failed|p1 checkin participant b -> ok/p1 checkin saved -> ok/status 0/a prpsd/b ppsd/c psd/left open 1 0/chosen left/status 0/restored b/restored a/restored c/status 0/b with tree pps/a with tree prps/a /c with tree ps/
2|failed|p1 checkin participant b -> ok/p1 checkin saved -> ok/status 0/a psrpsd/b psrpsd/c prpsd/left open 1 0/chosen left/status 0/restored b/restored a/restored c/status 0/b with tree psrps/a with tree psrps/a /c with tree prps/
4|failed|p1 checkin saved -> ok/p1 checkin participant b -> ok/status 0/a psdpr/b psdp/c psd/left open 1 0/chosen left/status 0/restored b/restored a/restored c/status 0/b with tree ps/a with tree ps/a /c with tree ps/
5|failed|p1 checkin saved -> ok/p1 checkin participant b -> ok/status 0/a psdpsr/b psdpsr/c psdpr/left open 1 0/chosen left/status 0/restored b/restored a/restored c/status 0/b with tree ps/a with tree ps/a /c with tree ps/
1|memory|p1 checkin no-memory -> ok/status 8/a pr/b p/c /left closed/status 0/status 0/b /a /a /c /
5|memory|p1 checkin saved -> ok/p1 checkin no-memory -> ok/status 8/a psdpsr/b psdpsr/c psdpr/left open 1 0/chosen left/status 0/restored b/restored a/restored c/status 0/b with tree ps/a with tree ps/a /c with tree ps/";

/// What the three runs write where b answers the fault.
fn sessions(rt: &(impl Abort + AllocGlobal), failing: u64, fault: PartFault) -> String {
    let kit = kit_of(rt, parts(rt, "a b c", failing, fault));
    let empty = disk(rt, b"", b"");
    let (mut text, disk, called) = ran(rt, "run a b", TWO, "checkin status", empty, kit);
    put_calls(rt, &mut text, called);
    let kit = kit_of(rt, notes(rt));
    let (held, disk, called) = ran(rt, "check a b", "", "left status", disk, kit);
    must(rt, text.push_str(held.as_str()));
    let_go(called);
    let kit = kit_of(rt, parts(rt, "b a a c", 0, fault));
    let (given, disk, called) = ran(rt, "run a b", "", "restored status", disk, kit);
    must(rt, text.push_str(given.as_str()));
    let_go(disk);
    put_calls(rt, &mut text, called);
    text
}

#[test]
fn a_participant_that_fails_ends_its_save(rt: HostRuntime) {
    for row in FAULTS.lines() {
        let (at, rest) = cut(row, "|");
        let (kind, wanted) = cut(rest, "|");
        let fault = if kind == "failed" {
            PartFault::Failed
        } else {
            PartFault::Memory
        };
        let found = sessions(&rt, number(at), fault);
        let wanted = lines_of(&rt, wanted);
        reads(&rt, row, found.as_str().as_bytes(), wanted.as_str());
    }
}
