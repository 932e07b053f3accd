//! What areas are opened to, or their first damage.
use crate::areas::{area_of, changed, number, numbered, text_named};
use crate::asserting::{must, same, same_at};
use crate::looks::looked_at;
use crate::opened::{disk_of, opened};
use crate::states::bytes_of;
use disk_area::{Damage, DamageCause};
use save_store::{OpenFault, Store};
use std::alloc::Global;
use std::process::Abort;
use ws_outside::Which;

/// A row: the image of an area, its records, how its bytes are changed, and what is opened, the right area empty.
const ROWS: &str = "\
f - - f
o - - o
f same - f
f same,same - f
f - 0=0 f
f - 0=2 f
f - 1=0 left:1:magic
f - 8=3 left:7:version.3
f - 16=0 left:9:number
f - 17-24=255 left:17:truncated
f - <150 left:17:truncated
f - 150=1 left:151:truncated
f - 57 left:57:digest
f/55=2 - - left:112:text
long - - left:150:text
low - - left:57:state
f/<92 - - left:149:text
00 - - left:58:text
00 same - left:58:text
00 same 67 left:58:text
f 00 - left:192:text
f less - left:191:state
f same,same 244 left:276:digest
f same,00 - left:277:text
f 00,same 201 left:192:text
f less,same 244 left:191:state
";

/// A row: both areas, each by its save number, the state of its image and how its bytes are changed then, or a dash for one
/// that is empty; and what is opened.
const TWINS: &str = "\
3f 3o f
3f 4o o
4f 3o f
3f:57 2o left:57:digest
2f:57 3o o
2f:1=0 3o left:1:magic
3f 2o:1=0 right:1:magic
2f:1=0 3o:1=0 left:1:magic
4f:0=0 3o o
3f 4o:0=2 f
- 3o o
";

fn is_opened_so(rt: &impl Abort, alloc: Global, row: &str) {
    let mut words = row.split_whitespace();
    let image = words.next().unwrap_or("");
    let records = words.next().unwrap_or("");
    let change = words.next().unwrap_or("");
    let expected = words.next().unwrap_or("");
    let left = changed(area_of(rt, alloc, image, records), change);
    same_at(rt, row, opened(rt, alloc, &left, b"").as_str(), expected);
    if expected.contains(':') {
        let text = looked_at(rt, alloc, disk_of(rt, alloc, &left, b""));
        same_at(rt, row, text.as_str(), expected);
    }
}

/// The area of a word in a row.
fn twin(rt: &impl Abort, alloc: Global, word: &str) -> Vec<u8> {
    let (whole, change) = word.split_once(':').unwrap_or((word, "-"));
    match whole.split_at_checked(1) {
        Some((digit, name)) if !name.is_empty() => {
            let area = numbered(rt, alloc, number(digit), &text_named(rt, alloc, name));
            changed(area, change)
        }
        _ => Vec::new(alloc),
    }
}

fn are_opened_so(rt: &impl Abort, alloc: Global, row: &str) {
    let mut words = row.split_whitespace();
    let left = twin(rt, alloc, words.next().unwrap_or(""));
    let right = twin(rt, alloc, words.next().unwrap_or(""));
    let expected = words.next().unwrap_or("");
    same_at(rt, row, opened(rt, alloc, &left, &right).as_str(), expected);
}

#[test]
fn areas_are_opened_to_their_state_or_to_the_first_damage(rt: HostRuntime) {
    for row in ROWS.lines() {
        is_opened_so(&rt, rt.alloc(), row);
    }
    for row in TWINS.lines() {
        are_opened_so(&rt, rt.alloc(), row);
    }
    same(&rt, ROWS.lines().count() + TWINS.lines().count(), 26 + 11);
}

/// The digest of the image of the fresh workspace, and that of the same with a first byte 01.
const DIGESTS: [&str; 2] = [
    "ed87d92d7e11a6a0aabd18a779512f2c7db0919a0a2b202b92b049f8424f69d4",
    "fb97afb4a49513b5a7d68c08ed150e07712e0ad38df0173897c2dac22a6325f6",
];

fn digest(rt: &impl Abort, alloc: Global, digits: &str) -> [u8; 32] {
    let mut digest = [0; 32];
    let bytes = bytes_of(rt, alloc, digits);
    for place in 0..32usize {
        digest[place] = bytes.get(place).copied().unwrap_or(0);
    }
    digest
}

#[test]
fn a_changed_image_is_told_with_both_digests(rt: HostRuntime) {
    let alloc = rt.alloc();
    let [kept, found] = DIGESTS;
    let cause = DamageCause::BadDigest {
        kept: digest(&rt, alloc, kept),
        found: digest(&rt, alloc, found),
    };
    let damage = Damage {
        area: Which::Left,
        at: 57,
        cause,
    };
    let left = changed(area_of(&rt, alloc, "f", "-"), "57=1");
    let mut disk = disk_of(&rt, alloc, &left, b"");
    let told = Store::check(alloc, &mut disk);
    same(&rt, told, Err(OpenFault::Damaged(damage)));
}

#[test]
fn a_byte_alone_is_the_fresh_workspace(rt: HostRuntime) {
    let alloc = rt.alloc();
    for byte in 0..=255u8 {
        let area = must(&rt, vec![in alloc; byte]);
        same(&rt, opened(&rt, alloc, &area, b"").as_str(), "f");
        same(&rt, opened(&rt, alloc, b"", &area).as_str(), "f");
    }
}
