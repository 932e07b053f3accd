//! Saves, stopped or failed at every call.
use crate::asserting::{holds, must, same};
use crate::opened::{disk_of, open_on, opened};
use area_store::AreaStore;
use disk_area::write_image;
use std::alloc::Global;
use std::process::Abort;
use ws_outside::{MemDisk, Remnant, Which};

/// What a crash leaves of each call that no sync followed.
const REMNANTS: [Remnant<'static>; 5] = [
    Remnant::Nothing,
    Remnant::Whole,
    Remnant::Front(1),
    Remnant::Filled(0x5a),
    Remnant::Filled(1),
];

/// A save of these texts is begun: each that may be opened to stands between blanks.
fn begun(rt: &impl Abort, may: &mut String, text: &str) {
    must(rt, may.push_str(text));
    must(rt, may.push(' '));
}

/// A save of these texts is acknowledged.
fn acknowledged(rt: &impl Abort, may: &mut String, text: &str) {
    may.clear();
    must(rt, may.push(' '));
    begun(rt, may, text);
}

/// A full save of an image, which reads as this text.
fn full(
    rt: &impl Abort,
    store: &mut AreaStore<MemDisk>,
    may: &mut String,
    image: &[u8],
    text: &str,
) {
    begun(rt, may, text);
    match store.full(image) {
        Ok(()) => acknowledged(rt, may, text),
        Err(_) => holds(rt, store.room().is_none()),
    }
}

/// A record of one byte, with which the texts read as the first of these; or a full save where there is no room.
fn record(
    rt: &impl Abort,
    store: &mut AreaStore<MemDisk>,
    may: &mut String,
    body: &[u8],
    texts: (&str, &[u8], &str),
) {
    let (text, image, other) = texts;
    match store.room() {
        Some(room) if body.len() as u64 <= room => {
            begun(rt, may, text);
            match store.snapshot(body) {
                Ok(()) => acknowledged(rt, may, text),
                Err(_) => holds(rt, store.room().is_none()),
            }
        }
        _ => full(rt, store, may, image, other),
    }
}

/// Two full saves, each with a record behind it, on areas of which the left one holds this; and what the areas may be
/// opened to then. A call that is to fail fails.
pub fn saved(rt: &impl Abort, alloc: Global, left: &[u8], failing: Vec<u64>) -> (MemDisk, String) {
    let mut may = must(rt, String::from_str(alloc, " "));
    begun(rt, &mut may, opened(rt, alloc, left, b"").as_str());
    let disk = disk_of(rt, alloc, left, b"").failing_at(failing);
    match AreaStore::open(alloc, disk) {
        Ok((store, _)) => {
            let mut store = store;
            full(rt, &mut store, &mut may, b"one", "|one");
            record(
                rt,
                &mut store,
                &mut may,
                b"a",
                ("|one|a", b"one+a", "|one+a"),
            );
            full(rt, &mut store, &mut may, b"two", "|two");
            record(
                rt,
                &mut store,
                &mut may,
                b"b",
                ("|two|b", b"two+b", "|two+b"),
            );
            (store.into_disk(), may)
        }
        Err((_, disk)) => (disk, may),
    }
}

/// Whether what a crash after so many calls leaves is opened to one of these texts.
fn is_kept(rt: &impl Abort, alloc: Global, disk: &MemDisk, calls: usize, may: &str) -> bool {
    let calls = calls.min(disk.calls().len());
    let mut is = true;
    for remnant in REMNANTS {
        let remnants = must(rt, vec![in alloc; remnant; calls]);
        let left = must(rt, disk.crash(alloc, calls, &remnants));
        let text = opened(rt, alloc, left.of(Which::Left), left.of(Which::Right));
        let wanted = must(rt, format!(in alloc; " {} ", text.as_str()));
        is = is && may.contains(wanted.as_str());
    }
    is
}

/// What the areas may be opened to once so many calls were made, where the saves end at these.
fn may_read(ends: [usize; 4], calls: usize) -> &'static str {
    let [one, one_a, two, two_b] = ends;
    if calls <= 8 {
        " none "
    } else if calls < one {
        " none |one "
    } else if calls < one_a {
        " |one |one|a "
    } else if calls < two {
        " |one|a |two "
    } else if calls < two_b {
        " |two |two|b "
    } else {
        " |two|b "
    }
}

/// Stops the saves at every call, and lets every call fail in turn.
fn are_kept(rt: &impl Abort, alloc: Global, left: &[u8], ends: [usize; 4]) {
    let (disk, may) = saved(rt, alloc, left, Vec::new(alloc));
    let [_, _, _, last] = ends;
    same(rt, disk.calls().len(), last);
    same(rt, may.as_str(), " |two|b ");
    for calls in 0..=last {
        holds(rt, is_kept(rt, alloc, &disk, calls, may_read(ends, calls)));
    }
    for call in 0..last {
        is_kept_failing(rt, alloc, left, call as u64);
    }
}

fn is_kept_failing(rt: &impl Abort, alloc: Global, left: &[u8], call: u64) {
    let failing = must(rt, vec![in alloc; call]);
    let (disk, may) = saved(rt, alloc, left, failing);
    same(rt, disk.faults(), 1);
    let calls = disk.calls().len();
    holds(rt, is_kept(rt, alloc, &disk, calls, may.as_str()));
}

/// An area that is closed, with the whole save 7 behind its gate.
fn closed_area(rt: &impl Abort, alloc: Global) -> Vec<u8> {
    let mut disk = disk_of(rt, alloc, b"", b"");
    must(rt, write_image(&mut disk, Which::Left, 7, b"old", false));
    let mut bytes = must(rt, disk.contents().of(Which::Left).to_vec(alloc));
    if let Some(gate) = bytes.first_mut() {
        *gate = 0;
    }
    bytes
}

#[test]
fn a_stop_or_a_fault_at_any_call_leaves_the_last_save_or_one_begun_after_it(rt: HostRuntime) {
    // opening makes eight calls, a full save ten and a record six
    are_kept(&rt, rt.alloc(), b"", [18, 24, 34, 40]);
}

#[test]
fn a_gate_that_is_shut_is_not_written_again(rt: HostRuntime) {
    // the first full save makes two calls less
    let left = closed_area(&rt, rt.alloc());
    are_kept(&rt, rt.alloc(), &left, [16, 22, 32, 38]);
}

#[test]
fn a_fault_of_opening_is_told(rt: HostRuntime) {
    for call in 0..8 {
        let failing = must(&rt, vec![in rt.alloc(); call]);
        let disk = disk_of(&rt, rt.alloc(), b"", b"").failing_at(failing);
        let (_, text) = open_on(&rt, rt.alloc(), disk);
        same(&rt, text.as_str(), "disk");
    }
}
