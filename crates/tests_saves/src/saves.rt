//! What saves write, by its bytes, and when they are refused.
use crate::areas::{area_of, numbered, text_named};
use crate::asserting::{holds, same};
use crate::opened::{disk_of, open_on};
use crate::states::{bytes_of, state};
use save_store::{SaveFault, Store};
use std::alloc::Global;
use std::process::Abort;
use ws_outside::{MemDisk, Request, Which};

/// An area with the image of the fresh workspace as the save 1.
const FRESH: &str = "\
01 575341524541 0001 0000000000000001 000000000000005d \
ed87d92d7e11a6a0aabd18a779512f2c7db0919a0a2b202b92b049f8424f69d4 \
0000000000000002 0000000000000001 0000000000000001 00000000 \
00000001 00000001 2f 01 08 0000000000000001 0000000000000000 00 00 \
0000000000000000 00000000 00000000 00000000 00000000 00000000 00000000 00000000 00";

/// The record of a file that was made since a kept number was, and the closed gate behind it.
const MADE: &str = "\
0000000000000004 0000000000000003 0000000000000001 00000000 \
00000001 00000004 2f502f61 01 01 0000000000000003 0000000000000002 00 00 0000000000000000 \
00000000 00000002 6869 00000000 00000000 00000000 00000000 \
00000001 00000005 6e6f746573 00000008 0000000000000001 01 00000001 00000004 2f502f61 00 00";

/// A full save of the state of this name.
pub fn full(
    rt: &impl Abort,
    alloc: Global,
    store: &mut Store<MemDisk>,
    name: &str,
) -> Result<(), SaveFault> {
    let now = state(rt, alloc, name);
    store.full(alloc, &now)
}

/// A snapshot of the state of this name.
pub fn snapshot(
    rt: &impl Abort,
    alloc: Global,
    store: &mut Store<MemDisk>,
    name: &str,
) -> Result<(), SaveFault> {
    let now = state(rt, alloc, name);
    store.snapshot(alloc, &now)
}

/// What the areas hold once this state was saved on empty ones, and that one as a snapshot behind it if it has a name.
fn saved_so(rt: &impl Abort, alloc: Global, name: &str, next: &str) -> Option<MemDisk> {
    let (store, _) = open_on(rt, alloc, disk_of(rt, alloc, b"", b""));
    match store {
        Some(mut store) => {
            holds(rt, full(rt, alloc, &mut store, name).is_ok());
            if !next.is_empty() {
                holds(rt, snapshot(rt, alloc, &mut store, next).is_ok());
            }
            Some(store.into_disk())
        }
        None => None,
    }
}

/// The left area ends in these bytes and has so many, and the right one is empty.
fn has_left(rt: &impl Abort, disk: Option<MemDisk>, len: usize, end: &[u8]) {
    match disk {
        Some(disk) => {
            let left = disk.contents().of(Which::Left);
            same(rt, left.len(), len);
            holds(rt, left.ends_with(end));
            holds(rt, disk.contents().of(Which::Right).is_empty());
        }
        None => holds(rt, false),
    }
}

#[test]
fn a_full_save_of_the_fresh_workspace_has_the_known_bytes_on_the_left(rt: HostRuntime) {
    let alloc = rt.alloc();
    let known = bytes_of(&rt, alloc, FRESH);
    has_left(&rt, saved_so(&rt, alloc, "f", ""), 151, &known);
    same(&rt, known.len(), 151);
}

#[test]
fn the_record_of_a_file_has_the_known_bytes(rt: HostRuntime) {
    let alloc = rt.alloc();
    let known = bytes_of(&rt, alloc, MADE);
    let before = text_named(&rt, alloc, "n").len().saturating_add(58);
    let len = before.saturating_add(174);
    has_left(&rt, saved_so(&rt, alloc, "n", "s"), len, &known);
    same(&rt, known.len(), 134);
}

/// One full save is written, and no save behind it.
fn saves_once(rt: &impl Abort, alloc: Global, store: Store<MemDisk>) {
    let mut store = store;
    let used = Err(SaveFault::NumbersUsed);
    same(rt, full(rt, alloc, &mut store, "o"), Ok(()));
    same(rt, full(rt, alloc, &mut store, "c"), used);
    same(rt, snapshot(rt, alloc, &mut store, "c"), used);
}

#[test]
fn the_last_save_number_is_used_once(rt: HostRuntime) {
    let alloc = rt.alloc();
    let left = numbered(&rt, alloc, (1 << 63) - 2, &text_named(&rt, alloc, "f"));
    let (store, text) = open_on(&rt, alloc, disk_of(&rt, alloc, &left, b""));
    same(&rt, text.as_str(), "f");
    match store {
        Some(store) => saves_once(&rt, alloc, store),
        None => holds(&rt, false),
    }
}

/// How many bytes were asked of the disk.
fn bytes_read(disk: &MemDisk) -> u64 {
    let mut total: u64 = 0;
    for call in disk.calls() {
        if let Request::Read { at: _, len } = &call.request {
            total = total.saturating_add(*len);
        }
    }
    total
}

#[test]
fn opening_reads_a_text_once(rt: HostRuntime) {
    let alloc = rt.alloc();
    let left = area_of(&rt, alloc, "f", "grown");
    let (store, _) = open_on(&rt, alloc, disk_of(&rt, alloc, &left, b""));
    // a head of each area and again of the one that decides, a first gate of each, an image of 93 bytes and a record of 205,
    // each with its length, its digest and the gate behind it
    let texts = (40 + 93 + 1) + (40 + 205 + 1);
    match store {
        Some(store) => same(&rt, bytes_read(&store.into_disk()), 57 * 3 + 2 + texts),
        None => holds(&rt, false),
    }
}
