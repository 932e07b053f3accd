//! A disk in memory.
ghost use Rattle.std.specs.Prelude.{◌≤◌, length, IfSome};
ghost use Rattle.ws_outside.specs.Disk.{held};

use crate::asserting::{holds, must, same_at};
use crate::rows::{digit, digits, word};
use std::alloc::Global;
use std::process::Abort;
use ws_outside::{Contents, Disk, Failed, MemDisk, Octets, Remnant, Which};

/// A row: the numbers of the calls that are to fail, the calls on an area that holds `abcd`, whether each is done, what
/// the area reads as, a remnant, and what a crash leaves where each write and cut that no sync followed leaves this.
const ROWS: &str = "\
- w1XY,s yy aXYd whole aXYd
- w2XYZ,s yy abXYZ whole abXYZ
- w4XY,c5 yy abcdX whole abcdX
- c2,w1X yy aX whole aX
0 c2,w1X ny aXcd nothing abcd
1 w0X,w1Y yn Xbcd nothing abcd
- w1XY,r yy aXYd nothing abcd
- w1XY,r yy aXYd whole aXYd
- w1XY,r yy aXYd 1 aXcd
- w1XY,r yy aXYd =Z aZZd
- w1XY,r yy aXYd +1234 a12d
0 w1XY,r ny abcd 1 aXcd
- c4,w4XY yy abcdXY nothing abcd
- c4,w4XY yy abcdXY 1 abcdX
- c4,w4XY yy abcdXY =Z abcdZZ
- s,c2 yy ab nothing abcd
- s,c2 yy ab whole ab
- w1XY,s yy aXYd nothing aXYd
- w1XY,s yy aXYd =Z aXYd
0 w1XY,s ny abcd =Z abcd
1 w1XY,s yn aXYd =Z aZZd
023 s,r,s nyn abcd whole abcd
13 l,g1bcd,s,w0X,s ynyny abcd whole abcd
";

/// A disk that holds these bytes on the left.
pub fn disk_of(rt: &impl Abort, alloc: Global, left: &[u8]) -> MemDisk {
    let first = Contents {
        left: must(rt, Octets::of(alloc, left)),
        right: must(rt, Octets::of(alloc, b"right")),
    };
    must(rt, MemDisk::new(alloc, first))
}

/// Makes a call on an area that has at least this length, at a place within that, and tells a count. A read is told by its
/// count where it gives these bytes up to the end, and else by 99.
pub fn made<D: Disk>(disk: &mut D, area: Which, len: u64, call: &str) -> Result<u64, Failed>
    requires { IfSome (D.seen disk.old) (λ both. len ≤ length (held area both)) }
{
    match call.as_bytes() {
        [b'w', at, piece @ ..] => done(disk.write_at(area, digit(*at).min(len), piece)),
        [b'c', most] => done(disk.cut(area, digit(*most).min(len))),
        [b's'] => done(disk.sync(area)),
        [b'g', at, bytes @ ..] => given(disk, area, digit(*at), bytes),
        _ => disk.len(area),
    }
}

fn done(answer: Result<(), Failed>) -> Result<u64, Failed> {
    match answer {
        Ok(()) => Ok(0),
        Err(Failed) => Err(Failed),
    }
}

fn given<D: Disk>(disk: &mut D, area: Which, at: u64, bytes: &[u8]) -> Result<u64, Failed> {
    let mut buf = [0; 6];
    let count = disk.read(area, at, &mut buf)?;
    if &buf[..count] == bytes {
        Ok(count as u64)
    } else {
        Ok(99)
    }
}

fn remnant_of(word: &str) -> Remnant<'_> {
    match word.as_bytes() {
        [b'n', ..] => Remnant::Nothing,
        [b'w', ..] => Remnant::Whole,
        [b'=', byte] => Remnant::Filled(*byte),
        [b'+', bytes @ ..] => Remnant::Bytes(bytes),
        [count, ..] => Remnant::Front(digit(*count) as usize),
        [] => Remnant::Nothing,
    }
}

/// Whether the disk remembers the calls, each done or not as the letters say, and counted those that weren't.
fn remembers(rt: &impl Abort, alloc: Global, disk: &MemDisk, done: &str) -> bool {
    let mut faults = 0u64;
    let mut is = disk.calls().len() == done.len();
    for (call, letter) in disk.calls().iter().zip(done.bytes()) {
        let copy = must(rt, call.copy(alloc));
        if letter != b'y' {
            faults = faults.saturating_add(1);
        }
        if copy.done != (letter == b'y') {
            is = false;
        }
    }
    is && disk.faults() == faults
}

/// What a crash leaves on the left where each call leaves this.
fn left_of(rt: &impl Abort, alloc: Global, disk: &MemDisk, remnant: Remnant<'_>) -> Vec<u8> {
    let calls = disk.calls().len();
    let remnants = must(rt, vec![in alloc; remnant; calls]);
    must(rt, disk.crash(alloc, calls, &remnants))
        .left
        .into_vec()
}

/// Makes a call on the left area, or syncs the right one.
fn call_on(disk: &mut MemDisk, call: &str) {
    if call == "r" {
        let _ = made(disk, Which::Right, 0, "s");
    } else {
        let len = disk.contents().of(Which::Left).len() as u64;
        let _ = made(disk, Which::Left, len, call);
    }
}

fn is_shown(rt: &impl Abort, alloc: Global, row: &str) {
    let mut words = row.split_whitespace();
    let failing = digits(rt, alloc, word(&mut words));
    let mut disk = disk_of(rt, alloc, b"abcd").failing_at(failing);
    must(rt, disk.reserve(8));
    for call in word(&mut words).split(',') {
        call_on(&mut disk, call);
    }
    holds(rt, remembers(rt, alloc, &disk, word(&mut words)));
    let reads = disk.contents().of(Which::Left);
    same_at(rt, row, reads, word(&mut words).as_bytes());
    let left = left_of(rt, alloc, &disk, remnant_of(word(&mut words)));
    same_at(rt, row, left.as_slice(), word(&mut words).as_bytes());
}

#[test]
fn a_disk_in_memory_fails_where_it_is_to_and_a_crash_leaves_what_is_chosen(rt: HostRuntime) {
    for row in ROWS.lines() {
        is_shown(&rt, rt.alloc(), row);
    }
    same_at(&rt, "rows", ROWS.lines().count(), 23);
    let mut disk = disk_of(&rt, rt.alloc(), b"abcd");
    same_at(&rt, "end", made(&mut disk, Which::Left, 0, "g1bcd"), Ok(3));
    same_at(&rt, "right", made(&mut disk, Which::Right, 0, "l"), Ok(5));
    holds(&rt, Octets::empty(rt.alloc()).as_slice().is_empty());
}
