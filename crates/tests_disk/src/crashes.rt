//! A save and its records, stopped or failed at every call.
ghost use Rattle.std.specs.Prelude.{◌≤◌, ◌<◌, ◌+◌, ◌^◌, length};

use crate::areas::{AREA, read_as};
use crate::asserting::{holds, must, same};
use crate::disks::disk_of;
use disk_area::{close_gate, head, lay_image, open_gate, write_image, write_record};
use std::alloc::Global;
use std::process::Abort;
use ws_outside::{Disk, Failed, MemDisk, Remnant, Request, Which};

/// Writes a save and two records into the left area, and tells after each that it stands.
fn write_all<D: Disk>(
    disk: &mut D,
    number: u64,
    image: &[u8],
    first: &[u8],
    second: &[u8],
    stands: &mut u64,
) -> Result<(), Failed>
    requires small { length image.now + length first.now + length second.now + 300 ≤ 2 ^ 30 }
    requires low { 1 ≤ number }
    requires high { number < 2 ^ 63 }
{
    write_image(disk, Which::Left, number, image, false)?;
    *stands = 1;
    let gate = 57 + image.len() as u64;
    write_record(disk, Which::Left, gate, first)?;
    *stands = 2;
    let next = gate + 41 + first.len() as u64;
    write_record(disk, Which::Left, next, second)?;
    *stands = 3;
    Ok(())
}

/// Writes a save by its parts, and another one over it with the gate known to be shut.
fn write_by_parts<D: Disk>(disk: &mut D) -> Result<(), Failed> {
    close_gate(disk, Which::Left)?;
    lay_image(disk, Which::Left, 1, b"abc")?;
    open_gate(disk, Which::Left)?;
    close_gate(disk, Which::Left)?;
    write_image(disk, Which::Left, 2, b"de", true)
}

/// Whether the head of an area is read by its length and one look at 57 bytes.
fn is_one_look(rt: &impl Abort, alloc: Global) -> bool {
    let mut disk = disk_of(rt, alloc, AREA);
    let is = head(&mut disk, Which::Left).is_ok();
    match disk.calls() {
        [length, read] => {
            is && matches!(length.request, Request::Len)
                && matches!(read.request, Request::Read { at: 0, len: 57 })
        }
        _ => false,
    }
}

#[test]
fn an_area_has_the_bytes_of_its_version(rt: HostRuntime) {
    let mut disk = disk_of(&rt, rt.alloc(), b"");
    let answer = write_all(&mut disk, 1, b"abc", b"abc", b"de", &mut 0);
    same(&rt, answer, Ok(()));
    same(&rt, disk.contents().of(Which::Left), AREA);
    let mut parts = disk_of(&rt, rt.alloc(), b"");
    same(&rt, write_by_parts(&mut parts), Ok(()));
    // two calls for each gate, and six to lay an image: three writes, a sync, a cut, a sync
    same(&rt, parts.calls().len(), 2 + 6 + 2 + 2 + 8);
    let bytes = parts.contents().of(Which::Left);
    same(&rt, bytes.len(), 57 + 2 + 1);
    same(&rt, read_as(&rt, rt.alloc(), bytes).as_str(), "2|de");
    holds(&rt, is_one_look(&rt, rt.alloc()));
}

/// What a crash leaves of each call that no sync followed.
const REMNANTS: [Remnant<'static>; 5] = [
    Remnant::Nothing,
    Remnant::Whole,
    Remnant::Front(1),
    Remnant::Filled(0x5a),
    Remnant::Filled(1),
];

/// What an area may be read as where none, one, two or three of the writes stand, each between blanks.
fn may_read(stands: u64) -> &'static str {
    match stands {
        0 => " 1|old closed 2|abc ",
        1 => " 2|abc 2|abc|abc ",
        2 => " 2|abc|abc 2|abc|abc|de ",
        _ => " 2|abc|abc|de ",
    }
}

/// What a crash after so many calls leaves on the left.
fn left_of(
    rt: &impl Abort,
    alloc: Global,
    disk: &MemDisk,
    calls: usize,
    remnant: Remnant<'_>,
) -> Vec<u8> {
    let calls = calls.min(disk.calls().len());
    let remnants = must(rt, vec![in alloc; remnant; calls]);
    must(rt, disk.crash(alloc, calls, &remnants))
        .left
        .into_vec()
}

/// Whether what a crash after so many calls leaves is read as it may be where so many of the three writes stood.
fn is_kept(rt: &impl Abort, alloc: Global, disk: &MemDisk, calls: usize, stands: u64) -> bool {
    let mut is = true;
    for remnant in REMNANTS {
        let left = left_of(rt, alloc, disk, calls, remnant);
        let text = read_as(rt, alloc, &left);
        let wanted = must(rt, format!(in alloc; " {} ", text.as_str()));
        is = is && may_read(stands).contains(wanted.as_str());
    }
    is
}

/// An area with the save 1 of the image `old`.
fn old_area(rt: &impl Abort, alloc: Global) -> Vec<u8> {
    let mut disk = disk_of(rt, alloc, b"");
    must(rt, write_image(&mut disk, Which::Left, 1, b"old", false));
    must(rt, disk.contents().of(Which::Left).to_vec(alloc))
}

/// The disk after the three writes over an area, and how many of them stand.
fn overwritten(rt: &impl Abort, alloc: Global, old: &[u8], failing: Vec<u64>) -> (MemDisk, u64) {
    let mut disk = disk_of(rt, alloc, old).failing_at(failing);
    let mut stands = 0;
    let _ = write_all(&mut disk, 2, b"abc", b"abc", b"de", &mut stands);
    (disk, stands)
}

/// How many of the three writes stand once so many calls were made: the first one makes ten, and the others six each.
fn standing(calls: usize) -> u64 {
    match calls {
        0..=9 => 0,
        10..=15 => 1,
        16..=21 => 2,
        _ => 3,
    }
}

/// Whether a fault at this call is one fault, after which a crash leaves what it may.
fn is_kept_failing(rt: &impl Abort, alloc: Global, old: &[u8], call: u64) -> bool {
    let failing = must(rt, vec![in alloc; call]);
    let (disk, stands) = overwritten(rt, alloc, old, failing);
    disk.faults() == 1 && is_kept(rt, alloc, &disk, 22, stands)
}

#[test]
fn a_stop_or_a_fault_at_any_call_leaves_the_old_save_or_the_new(rt: HostRuntime) {
    let old = old_area(&rt, rt.alloc());
    let (disk, stands) = overwritten(&rt, rt.alloc(), &old, Vec::new(rt.alloc()));
    same(&rt, disk.calls().len(), 22);
    same(&rt, stands, 3);
    for calls in 0..=22 {
        holds(&rt, is_kept(&rt, rt.alloc(), &disk, calls, standing(calls)));
    }
    for call in 0..22 {
        holds(&rt, is_kept_failing(&rt, rt.alloc(), &old, call));
    }
}
