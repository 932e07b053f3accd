//! What is read of an area that is changed or cut.
use crate::asserting::{holds, must, same_at};
use crate::disks::disk_of;
use crate::rows::{number, put, word};
use disk_area::{Area, AreaFault, DamageCause, image_piece, read_area};
use std::alloc::Global;
use std::process::Abort;
use ws_outside::Which;

/// An area with the save 1, the image `abc` and the records `abc` and `de`. The first digest is its standard's example.
pub const AREA: &[u8] = b"\
\x01WSAREA\x00\x01\x00\x00\x00\x00\x00\x00\x00\x01\x00\x00\x00\x00\x00\x00\x00\x03\
\xba\x78\x16\xbf\x8f\x01\xcf\xea\x41\x41\x40\xde\x5d\xae\x22\x23\
\xb0\x03\x61\xa3\x96\x17\x7a\x9c\xb4\x10\xff\x61\xf2\x00\x15\xad\
abc\x01\x00\x00\x00\x00\x00\x00\x00\x03\
\xba\x78\x16\xbf\x8f\x01\xcf\xea\x41\x41\x40\xde\x5d\xae\x22\x23\
\xb0\x03\x61\xa3\x96\x17\x7a\x9c\xb4\x10\xff\x61\xf2\x00\x15\xad\
abc\x01\x00\x00\x00\x00\x00\x00\x00\x02\
\x95\x9a\x45\xd4\x4e\x6f\xcf\x58\x36\x1e\xd0\x04\x68\x15\x56\xfe\
\x50\x12\x9f\x21\x09\xe8\x17\xde\xc0\x98\xc0\x0c\x9e\x5d\x25\x78\
de\x00";

/// A row: the first and the last of some places, what is done at each of them to `AREA`, and what it is then read as, with a
/// bar between two words. An `x` changes the lowest bit of the byte, a `0` makes it 00 and an `f` ff, an `8` makes eight
/// bytes ff, and a `c` cuts the area there, which has twelve bytes of 7 behind it. A byte that has the value is untried.
const ROWS: &str = "\
0 0 x0f closed
1 6 x0f magic|1
7 8 x0f version|7
9 9 x 72057594037927937|abc|abc|de
9 9 f number|9
10 10 x 281474976710657|abc|abc|de
10 10 f 71776119061217281|abc|abc|de
11 11 x 1099511627777|abc|abc|de
11 11 f 280375465082881|abc|abc|de
12 12 x 4294967297|abc|abc|de
12 12 f 1095216660481|abc|abc|de
13 13 x 16777217|abc|abc|de
13 13 f 4278190081|abc|abc|de
14 14 x 65537|abc|abc|de
14 14 f 16711681|abc|abc|de
15 15 x 257|abc|abc|de
15 15 f 65281|abc|abc|de
16 16 x0 number|9
16 16 f 255|abc|abc|de
17 23 xf truncated|17
24 24 x0 digest|57
24 24 f truncated|17
25 59 x0f digest|57
60 60 x0f 1|abc
61 67 xf truncated|61
68 68 x0 digest|101
68 68 f truncated|61
69 103 x0f digest|101
104 104 x0f 1|abc|abc
105 111 xf truncated|105
112 112 xf truncated|105
112 112 0 digest|145
113 146 x0f digest|145
147 147 x truncated|148
147 147 f 1|abc|abc|de
17 17 8 truncated|17
61 61 8 truncated|61
105 105 8 truncated|105
0 56 c closed
57 60 c truncated|17
61 104 c truncated|61
105 147 c truncated|105
148 160 c 1|abc|abc|de
";

pub fn word_of(cause: DamageCause) -> &'static str {
    match cause {
        DamageCause::TooLarge => "large",
        DamageCause::BadMagic => "magic",
        DamageCause::BadVersion(_) => "version",
        DamageCause::BadNumber => "number",
        DamageCause::Truncated => "truncated",
        DamageCause::BadDigest { .. } => "digest",
        DamageCause::BadText | DamageCause::BadState => "text",
    }
}

/// The damage and its place.
fn damage(rt: &impl Abort, alloc: Global, at: u64, cause: DamageCause) -> String {
    let word = word_of(cause);
    must(rt, format!(in alloc; "{word}|{at}"))
}

/// The number, the image and the bodies of the records, each after a bar; or the damage behind them.
fn text_of(rt: &impl Abort, alloc: Global, area: Area) -> String {
    let Area {
        number,
        image,
        records,
        end,
    } = area;
    if let Err((at, cause)) = end {
        return damage(rt, alloc, at, cause);
    }
    let mut text = must(rt, format!(in alloc; "{number}|"));
    put(rt, &mut text, image.as_slice());
    holds(rt, records.as_slice().len() < 3);
    for body in records.into_vec() {
        put(rt, &mut text, b"|");
        put(rt, &mut text, body.as_slice());
    }
    text
}

/// What the left area of these bytes is read as.
pub fn read_as(rt: &impl Abort, alloc: Global, left: &[u8]) -> String {
    let mut disk = disk_of(rt, alloc, left);
    match read_area(alloc, &mut disk, Which::Left) {
        Ok(Some(area)) => text_of(rt, alloc, must(rt, area.copy(alloc))),
        Ok(None) => must(rt, String::from_str(alloc, "closed")),
        Err(AreaFault::Damaged(fault)) => damage(rt, alloc, fault.at, fault.cause),
        Err(AreaFault::Disk | AreaFault::Memory) => String::new(alloc),
    }
}

/// Changes bytes from a place on, and tells whether one is another than before.
fn change(bytes: &mut [u8], at: usize, count: usize, what: u8) -> bool {
    let mut is = false;
    for byte in bytes.iter_mut().skip(at).take(count) {
        let value = match what {
            b'x' => *byte ^ 1,
            b'0' => 0,
            _ => 0xff,
        };
        is = is || *byte != value;
        *byte = value;
    }
    is
}

/// The area with this done at a place; None where it is as before.
fn changed(rt: &impl Abort, alloc: Global, at: usize, what: u8) -> Option<Vec<u8>> {
    let mut bytes = must(rt, AREA.to_vec(alloc));
    let is = match what {
        b'c' => {
            must(rt, bytes.extend_from_slice(&[7; 12]));
            bytes.truncate(at);
            true
        }
        b'8' => change(&mut bytes, at, 8, what),
        _ => change(&mut bytes, at, 1, what),
    };
    if is { Some(bytes) } else { None }
}

fn is_read_so(rt: &impl Abort, alloc: Global, row: &str) {
    let mut words = row.split_whitespace();
    let first = number(word(&mut words));
    let last = number(word(&mut words));
    let what = word(&mut words);
    let wanted = word(&mut words);
    for at in first..last.saturating_add(1) {
        for letter in what.bytes() {
            if let Some(bytes) = changed(rt, alloc, at as usize, letter) {
                same_at(rt, row, read_as(rt, alloc, &bytes).as_str(), wanted);
            }
        }
    }
}

/// The image with its place and that of the gate behind it.
fn image_is_in_its_place(rt: &impl Abort, alloc: Global) {
    let mut disk = disk_of(rt, alloc, AREA);
    let image = must(rt, image_piece(alloc, &mut disk, Which::Left));
    let copy = must(rt, image.copy(alloc));
    holds(rt, copy.body.as_slice() == b"abc".as_slice());
    holds(rt, copy.at == 57 && copy.gate == 60);
}

#[test]
fn an_area_is_read_or_told_by_its_first_damage(rt: HostRuntime) {
    for row in ROWS.lines() {
        is_read_so(&rt, rt.alloc(), row);
    }
    holds(&rt, ROWS.lines().count() == 43);
    image_is_in_its_place(&rt, rt.alloc());
}
