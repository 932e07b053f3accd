//! The program over what a crash leaves at each moment of a run that builds and saves.
use crate::asserting::{holds, let_go, must, same};
use crate::builders::{Asked, builders};
use crate::listening::Note;
use crate::running::{disk, notes};
use crate::saves::ran;
use builder_api::Builders;
use save_round::Notes;
use std::process::Abort;
use ws_outside::{MemDisk, Remnant};
use ws_top::{Kit, Listeners, Participants};

/// Two builds with a save behind each, and a file that is saved before it is built. The first save is a full one.
const FIRST: &str = "phase
job j 30 path /
create project /P
create folder /P/src
create file /P/src/a 1
describe /P \"{\\\"commands\\\":[{\\\"builder\\\":\\\"failing\\\",\\\"inputs\\\":[\\\"src\\\"],\\\"output\\\":\\\"out\\\"}]}\"
build incr
save snapshot
write /P/src/a 2
build incr
save snapshot
create file /P/src/b 3
save snapshot
endjob
endphase
";

const NEXT: &str = "phase
job k 30 path /
build incr
cat /P/src/a
endjob
endphase
";

/// What the next run hands to the builder and reads, as the crash comes later: over the fresh workspace, and over what each
/// save left. What is handed is what changed since the last build of the state that is opened.
const STATES: [&str; 4] = [
    "p1 cat /P/src/a -> refused 10 /P/src/a\n",
    "p1 handed /P 0 10 -> delta\np1 cat /P/src/a -> 1\n",
    "p1 handed /P 0 10 -> delta\np1 cat /P/src/a -> 2\n",
    "p1 handed /P 0 10 -> delta\n  /P *\n  /P/src *\n  /P/src/b +\np1 cat /P/src/a -> 2\n",
];

/// The state of this number.
fn state(number: usize) -> &'static str {
    match STATES.get(number) {
        Some(state) => state,
        None => "",
    }
}

/// A kit with the builders of these tests.
fn kit(rt: &(impl Abort + AllocGlobal)) -> Kit<Note, Asked, Notes> {
    Kit {
        builders: Builders::of(builders(rt)),
        listeners: Listeners::of(Vec::new(rt.alloc())),
        participants: Participants::of(notes(rt)),
    }
}

/// What the next run hands and reads over what a crash leaves after so many calls, with this left of each that isn't on the
/// device.
fn found_after(
    rt: &(impl Abort + AllocGlobal),
    disk: &MemDisk,
    calls: usize,
    remnant: Remnant<'static>,
) -> String {
    let calls = calls.min(disk.calls().len());
    let remnants = must(rt, vec![in rt.alloc(); remnant; calls]);
    let left = must(rt, disk.crash(rt.alloc(), calls, remnants.as_slice()));
    let disk = must(rt, MemDisk::new(rt.alloc(), left));
    let (found, disk, parts) = ran(rt, "run a b", NEXT, "handed cat", disk, kit(rt));
    let_go(disk);
    let_go(parts);
    found
}

/// The number of the state that is found after so many calls: this one, or the next.
fn next_state(
    rt: &(impl Abort + AllocGlobal),
    disk: &MemDisk,
    calls: usize,
    remnant: Remnant<'static>,
    number: usize,
) -> usize {
    let found = found_after(rt, disk, calls, remnant);
    if found.as_str() == state(number) {
        return number;
    }
    let next = number.saturating_add(1);
    holds(rt, found.as_str(), found.as_str() == state(next));
    next
}

#[test]
fn what_a_crash_leaves_is_one_of_two_states_and_is_built_from_there(rt: HostRuntime) {
    let empty = disk(&rt, b"", b"");
    let (_, disk, parts) = ran(&rt, "run a b", FIRST, "status", empty, kit(&rt));
    let_go(parts);
    for remnant in [Remnant::Nothing, Remnant::Whole] {
        let mut number = 0;
        for calls in 0..disk.calls().len().saturating_add(1) {
            number = next_state(&rt, &disk, calls, remnant, number);
        }
        same(&rt, "the last state", number, 3);
    }
    let_go(disk);
}
