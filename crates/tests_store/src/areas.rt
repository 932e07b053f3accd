//! A save's known bytes, and what is opened of areas that are changed.
ghost use Rattle.std.specs.Prelude.{◌≤◌, ◌<◌, ◌^◌};

use crate::asserting::{holds, must, same, same_at};
use crate::opened::{disk_of, open_on, opened};
use area_store::SaveFault;
use disk_area::write_image;
use std::alloc::Global;
use std::process::Abort;
use std::str::SplitWhitespace;
use ws_outside::Which;

/// The image of a workspace with nothing in it.
const IMAGE: &[u8] = b"\
\x00\x00\x00\x00\x00\x00\x00\x02\x00\x00\x00\x00\x00\x00\x00\x01\x00\x00\x00\x00\x00\x00\x00\x01\
\x00\x00\x00\x00\
\x00\x00\x00\x01\x00\x00\x00\x01\x2f\x01\x08\x00\x00\x00\x00\x00\x00\x00\x01\x00\x00\x00\x00\x00\x00\x00\x00\
\x00\x00\x00\x00\x00\x00\x00\x00\x00\x00\x00\x00\x00\x00\x00\x00\x00\x00\x00\x00\x00\x00\x00\x00\x00\x00\
\x00\x00\x00\x00\x00\x00\x00\x00\x00\x00\x00\x00";

/// An area with that image as the save 1.
const FRESH: &[u8] = b"\
\x01WSAREA\x00\x01\x00\x00\x00\x00\x00\x00\x00\x01\x00\x00\x00\x00\x00\x00\x00\x5d\
\xed\x87\xd9\x2d\x7e\x11\xa6\xa0\xaa\xbd\x18\xa7\x79\x51\x2f\x2c\
\x7d\xb0\x91\x9a\x0a\x2b\x20\x2b\x92\xb0\x49\xf8\x42\x4f\x69\xd4\
\x00\x00\x00\x00\x00\x00\x00\x02\x00\x00\x00\x00\x00\x00\x00\x01\x00\x00\x00\x00\x00\x00\x00\x01\
\x00\x00\x00\x00\
\x00\x00\x00\x01\x00\x00\x00\x01\x2f\x01\x08\x00\x00\x00\x00\x00\x00\x00\x01\x00\x00\x00\x00\x00\x00\x00\x00\
\x00\x00\x00\x00\x00\x00\x00\x00\x00\x00\x00\x00\x00\x00\x00\x00\x00\x00\x00\x00\x00\x00\x00\x00\x00\x00\
\x00\x00\x00\x00\x00\x00\x00\x00\x00\x00\x00\x00\
\x00";

/// A row: a place in that area, the value of its byte, and what the areas are then opened to, the right one empty.
const BYTES: &str = "\
0 0 none
0 2 none
1 0 left:1:magic
6 0 left:1:magic
7 1 left:7:version
8 3 left:7:version
9 128 left:9:number
16 0 left:9:number
17 255 left:17:truncated
24 94 left:17:truncated
24 92 left:57:digest
25 0 left:57:digest
57 1 left:57:digest
149 1 left:57:digest
150 1 left:151:truncated
";

/// A row: the length to which that area is cut, and what the areas are opened to.
const CUTS: &str = "\
0 none
1 none
56 none
57 left:17:truncated
150 left:17:truncated
";

/// A row: the areas, each by its save number, or a dash for one that is empty, and what they are opened to. The image is
/// `l` on the left and `r` on the right. Behind the number stands what is wrong: `m` the magic, `d` the digest, and `g` a
/// gate that is closed.
const TWINS: &str = "\
- - none
3 - |l
- 3 |r
3 3 |l
3 2 |l
2 3 |r
4g 3 |r
3 4g |l
4g - none
4g 4g none
3d 2 left:57:digest
2d 3 |r
2m 3 left:1:magic
3 2m right:1:magic
3m 2m left:1:magic
";

pub fn word<'a>(words: &mut SplitWhitespace<'a>) -> &'a str {
    match words.next() {
        Some(word) => word,
        None => "",
    }
}

fn number(word: &str) -> u64 {
    match word.parse() {
        Ok(number) => number,
        Err(_) => 0,
    }
}

/// The bytes with this one at a place.
fn with_byte(rt: &impl Abort, alloc: Global, bytes: &[u8], at: usize, value: u8) -> Vec<u8> {
    let mut changed = must(rt, bytes.to_vec(alloc));
    if let Some(byte) = changed.get_mut(at) {
        *byte = value;
    }
    changed
}

fn is_opened_so(rt: &impl Abort, alloc: Global, row: &str) {
    let mut words = row.split_whitespace();
    let at = number(word(&mut words)) as usize;
    let value = (number(word(&mut words)) & 255) as u8;
    let left = with_byte(rt, alloc, FRESH, at, value);
    same_at(
        rt,
        row,
        opened(rt, alloc, &left, b"").as_str(),
        word(&mut words),
    );
}

fn is_cut_so(rt: &impl Abort, alloc: Global, row: &str) {
    let mut words = row.split_whitespace();
    let len = number(word(&mut words)) as usize;
    let left = &FRESH[..len.min(FRESH.len())];
    same_at(
        rt,
        row,
        opened(rt, alloc, left, b"").as_str(),
        word(&mut words),
    );
}

/// An area as its word in a row says.
pub fn area_of(rt: &impl Abort, alloc: Global, word: &str, image: &[u8; 1]) -> Vec<u8> {
    let letters = word.as_bytes();
    let digit = match letters {
        [digit, ..] if *digit != b'-' => *digit,
        _ => return Vec::new(alloc),
    };
    let mut disk = disk_of(rt, alloc, b"", b"");
    let number = u64::from(digit & 15).max(1);
    must(
        rt,
        write_image(&mut disk, Which::Left, number, image, false),
    );
    let bytes = disk.contents().of(Which::Left);
    match letters {
        [_, b'm'] => with_byte(rt, alloc, bytes, 1, b'V'),
        [_, b'd'] => with_byte(rt, alloc, bytes, 57, b'x'),
        [_, b'g'] => with_byte(rt, alloc, bytes, 0, 0),
        _ => must(rt, bytes.to_vec(alloc)),
    }
}

fn are_opened_so(rt: &impl Abort, alloc: Global, row: &str) {
    let mut words = row.split_whitespace();
    let left = area_of(rt, alloc, word(&mut words), b"l");
    let right = area_of(rt, alloc, word(&mut words), b"r");
    same_at(
        rt,
        row,
        opened(rt, alloc, &left, &right).as_str(),
        word(&mut words),
    );
}

#[test]
fn areas_are_opened_to_the_texts_of_the_chosen_one_or_to_the_first_damage(rt: HostRuntime) {
    for row in BYTES.lines() {
        is_opened_so(&rt, rt.alloc(), row);
    }
    for row in CUTS.lines() {
        is_cut_so(&rt, rt.alloc(), row);
    }
    for row in TWINS.lines() {
        are_opened_so(&rt, rt.alloc(), row);
    }
    same(
        &rt,
        BYTES.lines().count() + CUTS.lines().count() + TWINS.lines().count(),
        15 + 5 + 15,
    );
}

#[test]
fn a_full_save_on_empty_areas_has_the_known_bytes_on_the_left(rt: HostRuntime) {
    same(&rt, IMAGE.len(), 93);
    same(&rt, FRESH.len(), 151);
    let (store, text) = open_on(&rt, rt.alloc(), disk_of(&rt, rt.alloc(), b"", b""));
    same(&rt, text.as_str(), "none");
    holds(&rt, store.is_some());
    if let Some(mut store) = store {
        same(&rt, store.room(), None);
        same(&rt, store.full(IMAGE), Ok(()));
        same(&rt, store.room(), Some((1 << 30) - 150 - 42));
        let disk = store.into_disk();
        same(&rt, disk.contents().of(Which::Left), FRESH);
        holds(&rt, disk.contents().of(Which::Right).is_empty());
    }
}

/// What a full save answers over an area with this save number, and whether there is room for a record then.
fn saved_over(rt: &impl Abort, alloc: Global, number: u64) -> (Result<(), SaveFault>, bool)
    requires low { 1 ≤ number }
    requires high { number < 2 ^ 63 }
{
    let mut disk = disk_of(rt, alloc, b"", b"");
    must(rt, write_image(&mut disk, Which::Left, number, b"l", false));
    let (store, _) = open_on(rt, alloc, disk);
    match store {
        Some(mut store) => {
            let answer = store.full(b"r");
            (answer, store.room().is_some())
        }
        None => (Ok(()), false),
    }
}

#[test]
fn the_last_save_number_is_used_once(rt: HostRuntime) {
    let (answer, room) = saved_over(&rt, rt.alloc(), (1 << 63) - 2);
    same(&rt, answer, Ok(()));
    holds(&rt, room);
    let (answer, room) = saved_over(&rt, rt.alloc(), (1 << 63) - 1);
    same(&rt, answer, Err(SaveFault::NumbersUsed));
    holds(&rt, !room);
}
