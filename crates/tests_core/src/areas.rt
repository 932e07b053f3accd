//! The program over disks that fail at each call.
use crate::asserting::{holds, let_go, must, reads, same};
use crate::rows::{cut, lines_of};
use crate::running::{disk, kit_of, notes, run_over, source};
use report_text::{put_counted, put_text};
use save_store::Store;
use std::process::Abort;
use ws_outside::{MemDisk, MemSink, Which};
use ws_top::Outcome;

/// Words, what the left area holds, and then the status and what is written, `/` for the end of a line: of the empty script
/// where it is run, and where no call on the disk fails. The right area is empty.
const ROWS: &str = "\
run a b|nothing|0|since start/status 0/
check a b|nothing|0|left closed/right closed/chosen none/elements 1/status 0/
run a b|fresh|0|since start/status 0/
check a b|fresh|0|left open 1 0/right closed/chosen left/elements 1/status 0/
run a b|no head|7|status 7 left 1 magic/
check a b|no head|7|status 7 left 1 magic/";

/// What a full save of the fresh workspace leaves in the left area.
fn saved(rt: &(impl Abort + AllocGlobal)) -> Vec<u8> {
    match Store::open(rt.alloc(), disk(rt, b"", b"")) {
        Ok((mut store, durable)) => {
            holds(rt, "saved", store.full(rt.alloc(), &durable).is_ok());
            left_of(rt, &store.into_disk())
        }
        Err(_) => Vec::new(rt.alloc()),
    }
}

fn left_of(rt: &(impl Abort + AllocGlobal), disk: &MemDisk) -> Vec<u8> {
    must(rt, disk.contents().of(Which::Left).to_vec(rt.alloc()))
}

/// An open gate, and zeros for the rest of a head.
fn no_head(rt: &(impl Abort + AllocGlobal)) -> Vec<u8> {
    let mut bytes = must(rt, vec![in rt.alloc(); 0u8; 57]);
    if let Some(gate) = bytes.get_mut(0) {
        *gate = 1;
    }
    bytes
}

/// The left area of this name.
fn area(rt: &(impl Abort + AllocGlobal), name: &str) -> Vec<u8> {
    match name {
        "fresh" => saved(rt),
        "no head" => no_head(rt),
        _ => Vec::new(rt.alloc()),
    }
}

/// The status and what is written, with these words, over this left area, where a call fails; how many calls on the disk
/// there were. The areas hold what they held.
fn ended(
    rt: &(impl Abort + AllocGlobal),
    asked: &str,
    left: &[u8],
    failing: Option<u64>,
) -> (Vec<u8>, u64) {
    let mut source = source(rt, "");
    let mut sink = MemSink::new(rt.alloc());
    let disk = disk(rt, left, b"").failing_at(calls(rt, failing));
    let kit = kit_of(rt, notes(rt));
    let outcome = run_over(rt, asked, &mut source, &mut sink, disk, kit);
    let Outcome {
        status,
        history,
        areas,
        kit,
        ..
    } = outcome;
    let_go(history);
    let_go(kit);
    let mut out = Vec::new(rt.alloc());
    must(rt, put_counted(&mut out, "", u64::from(status)));
    must(rt, put_text(&mut out, "|"));
    must(rt, out.extend_from_slice(sink.written()));
    holds(rt, "left", areas.disk.contents().of(Which::Left) == left);
    holds(
        rt,
        "right",
        areas.disk.contents().of(Which::Right).is_empty(),
    );
    (out, areas.disk.calls().len() as u64)
}

fn calls(rt: &(impl Abort + AllocGlobal), failing: Option<u64>) -> Vec<u64> {
    match failing {
        None => Vec::new(rt.alloc()),
        Some(call) => must(rt, vec![in rt.alloc(); call]),
    }
}

#[test]
fn each_call_on_the_disk_that_fails_is_told(rt: HostRuntime) {
    for row in ROWS.lines() {
        let (asked, rest) = cut(row, "|");
        let (name, wanted) = cut(rest, "|");
        let left = area(&rt, name);
        let (found, count) = ended(&rt, asked, left.as_slice(), None);
        reads(&rt, row, found.as_slice(), lines_of(&rt, wanted).as_str());
        holds(&rt, row, count > 1);
        for call in 0..count {
            let (found, made) = ended(&rt, asked, left.as_slice(), Some(call));
            reads(&rt, row, found.as_slice(), "5|status 5\n");
            same(&rt, row, made, call + 1);
        }
    }
}
