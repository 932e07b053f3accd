//! Fields as they are written and read.
use crate::asserting::{holds, must, same, same_at};
use crate::rows::{number, word};
use std::alloc::Global;
use std::process::Abort;
use ws_wire::{In, Out, Short};

/// Fields one behind another: what each is, and the number, the text or the bytes that it holds.
const FIELDS: &str = "\
u8 1
u16 515
u32 4294967295
u64 9223372036854775809
text hi
raw end";

/// Their bytes.
const BYTES: &[u8] =
    b"\x01\x02\x03\xff\xff\xff\xff\x80\x00\x00\x00\x00\x00\x00\x01\x00\x00\x00\x02hiend";

/// Fields that are read from bytes that end too early for some, and the place told of these.
const SHORT: &str = "\
u8 7
text !1
u64 !1
seven !1
u32 3
text !5
u32 !5
u16 26729
u16 !7
u8 !7";

fn write(rt: &impl Abort, out: &mut Out, row: &str) {
    let mut words = row.split_whitespace();
    let field = word(&mut words);
    let held = word(&mut words);
    match field {
        "u8" => must(rt, out.u8(number(held).min(255) as u8)),
        "u16" => must(rt, out.u16(number(held).min(65_535) as u16)),
        "u32" => must(rt, out.u32(number(held).min(0xffff_ffff) as u32)),
        "u64" => must(rt, out.u64(number(held))),
        "text" => must(rt, out.text(b"hi")),
        _ => must(rt, out.raw(held.as_bytes())),
    }
}

fn is_number<N: Into<u64> + Drop>(rt: &impl Abort, row: &str, told: Result<N, Short>, held: &str) {
    match told {
        Ok(told) => same_at(rt, row, told.into(), number(held)),
        Err(short) => is_short(rt, row, short, held),
    }
}

fn is_bytes(rt: &impl Abort, row: &str, told: Result<&[u8], Short>, held: &str) {
    match told {
        Ok(told) => same_at(rt, row, told, held.as_bytes()),
        Err(short) => is_short(rt, row, short, held),
    }
}

fn is_short(rt: &impl Abort, row: &str, short: Short, held: &str) {
    match held.strip_prefix('!') {
        Some(place) => same_at(rt, row, short.at as u64, number(place)),
        None => holds(rt, false),
    }
}

fn is_read(rt: &impl Abort, input: &mut In<'_>, row: &str) {
    let mut words = row.split_whitespace();
    let field = word(&mut words);
    let held = word(&mut words);
    match field {
        "u8" => is_number(rt, row, input.u8(), held),
        "u16" => is_number(rt, row, input.u16(), held),
        "u32" => is_number(rt, row, input.u32(), held),
        "u64" => is_number(rt, row, input.u64(), held),
        "text" => is_bytes(rt, row, input.text(), held),
        "raw" => is_bytes(rt, row, input.raw(3), held),
        _ => is_bytes(rt, row, input.raw(7), held),
    }
}

#[test]
fn fields_have_the_highest_byte_first_and_are_read_back(rt: HostRuntime) {
    let mut out = Out::empty(rt.alloc());
    for row in FIELDS.lines() {
        write(&rt, &mut out, row);
    }
    same(&rt, out.bytes(), BYTES);
    let mut input = In::of(BYTES);
    for row in FIELDS.lines() {
        is_read(&rt, &mut input, row);
    }
    holds(&rt, input.is_empty() && input.len() == 0);
    same(&rt, input.at(), BYTES.len());
    let mut cut = In::of(b"\x07\x00\x00\x00\x03hi");
    for row in SHORT.lines() {
        is_read(&rt, &mut cut, row);
    }
    is_bytes(&rt, "long", In::of(b"\xff\xff\xff\xffx").text(), "!0");
    let copy = must(&rt, out.copy(rt.alloc()));
    same(&rt, copy.bytes(), out.into_vec().as_slice());
}

/// Whether a text of so many bytes stands behind these four, and is read back.
fn is_whole(rt: &impl Abort, alloc: Global, len: usize, size: [u8; 4]) -> bool {
    let text = must(rt, vec![in alloc; 0x61u8; len]);
    if text.len() > 65_536 {
        return false;
    }
    let mut out = Out::empty(alloc);
    must(rt, out.text(text.as_slice()));
    let bytes = out.into_vec();
    let is = match In::of(bytes.as_slice()).text() {
        Ok(read) => read == text.as_slice(),
        Err(_) => false,
    };
    is && bytes.len() == text.len() + 4 && bytes.starts_with(&size)
}

#[test]
fn texts_of_edge_lengths_come_back_whole(rt: HostRuntime) {
    for (len, size) in [
        (0, [0, 0, 0, 0]),
        (255, [0, 0, 0, 255]),
        (256, [0, 0, 1, 0]),
        (65_535, [0, 0, 255, 255]),
        (65_536, [0, 1, 0, 0]),
    ] {
        holds(&rt, is_whole(&rt, rt.alloc(), len, size));
    }
}
