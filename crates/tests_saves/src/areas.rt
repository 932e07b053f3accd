//! Areas with an image and records, and with bytes that are changed.
use crate::asserting::{holds, must};
use crate::opened::disk_of;
use crate::states::{bytes_of, image_named};
use area_store::AreaStore;
use disk_area::write_image;
use std::alloc::Global;
use std::process::Abort;
use ws_outside::{MemDisk, Which};

/// The image of the fresh workspace with a root that isn't below its counter.
const LOW: &str = "\
0000000000000001 0000000000000001 0000000000000001 00000000 \
00000001 00000001 2f 01 08 0000000000000001 0000000000000000 00 00 \
0000000000000000 00000000 00000000 00000000 00000000 00000000 00000000 00000000";

/// The record of no change behind the fresh workspace; one with such a counter; and one of a project, its file and a kept
/// state from before the file.
const SAME: &str =
    "0000000000000002 0000000000000001 0000000000000001 00000000 00000000 00000000 00000000 00000000";

const LESS: &str =
    "0000000000000001 0000000000000001 0000000000000001 00000000 00000000 00000000 00000000 00000000";

const GROWN: &str = "\
0000000000000004 0000000000000003 0000000000000001 00000000 \
00000002 00000002 2f70 01 04 0000000000000002 0000000000000000 01 00 0000000000000001 \
0000001f 7b22636f6d6d616e6473223a5b5d2c227265666572656e636573223a5b5d7d 00000000 00000000 00000000 \
00000004 2f702f66 01 01 0000000000000003 0000000000000002 00 00 0000000000000000 \
00000000 00000003 616263 00000000 00000000 00000000 00000000 \
00000001 00000001 6b 00000002 abcd 01 00000001 00000004 2f702f66 00";

/// The text of this name.
pub fn text_named(rt: &impl Abort, alloc: Global, name: &str) -> Vec<u8> {
    match name {
        "low" => bytes_of(rt, alloc, LOW),
        "same" => bytes_of(rt, alloc, SAME),
        "less" => bytes_of(rt, alloc, LESS),
        "grown" => bytes_of(rt, alloc, GROWN),
        "00" => bytes_of(rt, alloc, "00"),
        "long" => longer(rt, image_named(rt, alloc, "f")),
        _ => image_named(rt, alloc, name),
    }
}

fn longer(rt: &impl Abort, bytes: Vec<u8>) -> Vec<u8> {
    let mut bytes = bytes;
    must(rt, bytes.push(0));
    bytes
}

/// The text that a word tells: of a name, with a change behind a slash.
fn text_of(rt: &impl Abort, alloc: Global, word: &str) -> Vec<u8> {
    match word.split_once('/') {
        Some((name, change)) => changed(text_named(rt, alloc, name), change),
        None => text_named(rt, alloc, word),
    }
}

/// Writes a record, unless it has no bytes.
fn add(rt: &impl Abort, store: &mut AreaStore<MemDisk>, body: &[u8]) {
    match store.room() {
        Some(room) if !body.is_empty() && body.len() as u64 <= room => {
            holds(rt, store.snapshot(body).is_ok());
        }
        _ => {}
    }
}

/// The left area with an image and one record, none where it has no bytes.
pub fn area_with(rt: &impl Abort, alloc: Global, image: &[u8], record: &[u8]) -> Vec<u8> {
    match AreaStore::open(alloc, disk_of(rt, alloc, b"", b"")) {
        Ok((mut store, _)) => {
            holds(rt, store.full(image).is_ok());
            add(rt, &mut store, record);
            left_of(rt, alloc, &store.into_disk())
        }
        Err(_) => Vec::new(alloc),
    }
}

fn left_of(rt: &impl Abort, alloc: Global, disk: &MemDisk) -> Vec<u8> {
    must(rt, disk.contents().of(Which::Left).to_vec(alloc))
}

/// The left area with the image of a word and the records of the other.
pub fn area_of(rt: &impl Abort, alloc: Global, image: &str, records: &str) -> Vec<u8> {
    match AreaStore::open(alloc, disk_of(rt, alloc, b"", b"")) {
        Ok((mut store, _)) => {
            holds(rt, store.full(&text_of(rt, alloc, image)).is_ok());
            for word in records.split(',') {
                add(rt, &mut store, &text_of(rt, alloc, word));
            }
            left_of(rt, alloc, &store.into_disk())
        }
        Err(_) => Vec::new(alloc),
    }
}

/// An area with this image and save number.
pub fn numbered(rt: &impl Abort, alloc: Global, number: u64, image: &[u8]) -> Vec<u8> {
    let mut disk = disk_of(rt, alloc, b"", b"");
    let number = number.clamp(1, (1 << 63) - 1);
    if image.len() <= 1 << 20 {
        must(
            rt,
            write_image(&mut disk, Which::Left, number, image, false),
        );
    }
    left_of(rt, alloc, &disk)
}

/// The number that a word tells, 0 where it tells none.
pub fn number(word: &str) -> u64 {
    match word.parse() {
        Ok(number) => number,
        Err(_) => 0,
    }
}

/// The bytes with these bits of one byte turned.
pub fn turned(bytes: Vec<u8>, place: usize, bits: u8) -> Vec<u8> {
    let mut bytes = bytes;
    if let Some(byte) = bytes.get_mut(place) {
        *byte ^= bits;
    }
    bytes
}

/// The bytes with this one at a place, or at each from one to another.
fn filled(bytes: Vec<u8>, places: &str, value: u8) -> Vec<u8> {
    let mut bytes = bytes;
    let (first, last) = match places.split_once('-') {
        Some((first, last)) => (number(first), number(last)),
        None => (number(places), number(places)),
    };
    for place in first..=last {
        if let Some(byte) = bytes.get_mut(place as usize) {
            *byte = value;
        }
    }
    bytes
}

fn cut(bytes: Vec<u8>, len: usize) -> Vec<u8> {
    let mut bytes = bytes;
    bytes.truncate(len);
    bytes
}

/// The bytes as a word changes them: `57` turns a bit of that byte, `1=0` makes that byte so, `17-24=255` each of these,
/// `<150` leaves that many; any other leaves all.
pub fn changed(bytes: Vec<u8>, word: &str) -> Vec<u8> {
    if let Some(len) = word.strip_prefix('<') {
        return cut(bytes, number(len) as usize);
    }
    if let Some((places, value)) = word.split_once('=') {
        return filled(bytes, places, (number(value) & 255) as u8);
    }
    match word.parse::<usize>() {
        Ok(place) => turned(bytes, place, 0x40),
        Err(_) => bytes,
    }
}
