// The head, the image and the records of an area.
ghost use Rattle.std.specs.Prelude.{◌≡◌, ◌≢◌, ◌≤◌, ◌<◌, ◌+◌, ◌^◌, length, take, drop, Err, IfOk, OnErr, IfErr, IfSome};
ghost use Rattle.ws_outside.specs.Disk.{held, LeavesOnly};
ghost use Rattle.disk_area.specs.Reading.{head_of, image_of, record_of, piece_in, piece_at, Tells, IsOfBytes, HasFault};

use crate::looks::{fetch, size};
use crate::parse::{judge, opens, parse_frame, parse_head};
use crate::pieces::Frame;
use crate::{AreaFault, Damage, DamageCause, Head, Piece};
use std::alloc::Global;
use ws_outside::{Disk, Which};

/// The answer with its damage placed in the area.
fn placed<T: Drop>(area: Which, answer: Result<T, (u64, DamageCause)>) -> Result<T, AreaFault>
    ensures tells { Tells area answer result }
    ensures of_bytes { IsOfBytes result }
{
    match answer {
        Ok(value) => Ok(value),
        Err((at, cause)) => Err(AreaFault::Damaged(Damage { area, at, cause })),
    }
}

/// The head of an area: None exactly where it is closed, that is shorter than 57 bytes or with a gate that isn't 01. The
/// damage of an open one is, in this order: TooLarge at 0 where it is longer than 1,073,741,824 bytes, BadMagic at 1,
/// BadVersion at 7, BadNumber at 9. `Disk` comes exactly where the disk's count of faults rose in this call. The disk is
/// as before. Reads 57 bytes at most.
pub fn head<D: Disk>(disk: &mut D, area: Which) -> Result<Option<Head>, AreaFault>
    ensures head { IfSome (D.seen disk.old) (λ both. Tells area (head_of (held area both)) result) }
    ensures no_memory { result ≢ Err AreaFault.Memory }
    ensures seen { D.seen disk.new ≡ D.seen disk.old }
    ensures any_moment { LeavesOnly D.moment D.left_since D.may_leave disk.old disk.new (D.may_leave disk.old) }
    ensures cause { HasFault (D.faults disk.old) (D.faults disk.new) result }
{
    let len = size(disk, area)?;
    let mut front = [0u8; 57];
    let count = fetch(disk, area, 0, &mut front)?;
    placed(area, parse_head(len, &front[..count]))
}

/// The piece whose length stands at a place of an area of this length.
fn piece<D: Disk>(
    alloc: Global,
    disk: &mut D,
    area: Which,
    len: u64,
    at: u64,
) -> Result<Piece, AreaFault>
    requires { IfSome (D.seen disk.old) (λ both. len ≡ length (held area both)) }
    ensures piece { IfSome (D.seen disk.old) (λ both. Tells area (piece_at at (held area both)) result) }
    ensures seen { D.seen disk.new ≡ D.seen disk.old }
    ensures any_moment { LeavesOnly D.moment D.left_since D.may_leave disk.old disk.new (D.may_leave disk.old) }
    ensures cause { HasFault (D.faults disk.old) (D.faults disk.new) result }
{
    let mut front = [0u8; 40];
    let count = fetch(disk, area, at, &mut front)?;
    match parse_frame(len, at, &front[..count]) {
        None => Err(AreaFault::Damaged(Damage {
            area,
            at,
            cause: DamageCause::Truncated,
        })),
        Some(frame) => body(alloc, disk, area, at, frame),
    }
}

/// The body behind a frame that announces no more than the area has.
fn body<D: Disk>(
    alloc: Global,
    disk: &mut D,
    area: Which,
    at: u64,
    frame: Frame,
) -> Result<Piece, AreaFault>
    requires { at + 40 + frame.size < 2 ^ 64 }
    ensures piece { IfSome (D.seen disk.old) (λ both. Tells area (piece_in at frame (take frame.size (drop (at + 40) (held area both)))) result) }
    ensures seen { D.seen disk.new ≡ D.seen disk.old }
    ensures any_moment { LeavesOnly D.moment D.left_since D.may_leave disk.old disk.new (D.may_leave disk.old) }
    ensures cause { HasFault (D.faults disk.old) (D.faults disk.new) result }
{
    let mut bytes = vec![in alloc; 0u8; frame.size as usize]?;
    let count = fetch(disk, area, at + 40, &mut bytes)?;
    bytes.truncate(count);
    placed(area, judge(at, frame, bytes))
}

/// The image of an area of which `head` gives a head, with its place and that of the gate of the first record. Its damage
/// is Truncated at 17, the place of its length, where it or the gate after it reaches past the end, and else BadDigest at
/// 57. `Disk` comes exactly where the disk's count of faults rose in this call; `Memory` says that the image's bytes
/// weren't to be had. The disk is as before. Reads each byte once, into one allocation of the image's length.
pub fn image_piece<D: Disk>(alloc: Global, disk: &mut D, area: Which) -> Result<Piece, AreaFault>
    ensures image { IfSome (D.seen disk.old) (λ both. Tells area (image_of (held area both)) result) }
    ensures seen { D.seen disk.new ≡ D.seen disk.old }
    ensures any_moment { LeavesOnly D.moment D.left_since D.may_leave disk.old disk.new (D.may_leave disk.old) }
    ensures cause { HasFault (D.faults disk.old) (D.faults disk.new) result }
{
    let len = size(disk, area)?;
    piece(alloc, disk, area, len, 17)
}

/// The record whose gate stands at a place: None exactly where that gate is closed, or the area ends before it. Its damage
/// is Truncated at the byte after the gate where its header, its body or the gate after it reaches past the end, and else
/// BadDigest at its body. `Disk` comes exactly where the disk's count of faults rose in this call; `Memory` says that the
/// body's bytes weren't to be had. The disk is as before. Reads each byte once, into one allocation of the body's length.
pub fn record_piece<D: Disk>(
    alloc: Global,
    disk: &mut D,
    area: Which,
    gate: u64,
) -> Result<Option<Piece>, AreaFault>
    ensures record { IfSome (D.seen disk.old) (λ both. Tells area (record_of gate (held area both)) result) }
    ensures seen { D.seen disk.new ≡ D.seen disk.old }
    ensures any_moment { LeavesOnly D.moment D.left_since D.may_leave disk.old disk.new (D.may_leave disk.old) }
    ensures cause { HasFault (D.faults disk.old) (D.faults disk.new) result }
{
    let len = size(disk, area)?;
    if gate >= len {
        return Ok(None);
    }
    let mut front = [0u8; 1];
    let count = fetch(disk, area, gate, &mut front)?;
    if !opens(&front[..count]) {
        return Ok(None);
    }
    Ok(Some(piece(alloc, disk, area, len, gate + 1)?))
}
