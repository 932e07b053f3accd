// What the bytes of a head and of a frame say.
ghost use Rattle.std.specs.Prelude.{◌≡◌, ◌<◌, ◌+◌, ◌^◌, length};
ghost use Rattle.byteorder.specs.Endian.{big_number};
ghost use Rattle.disk_area.specs.Reading.{is_open, head_from, head_in, frame_in, piece_in};

use crate::pieces::Frame;
use crate::version::READ;
use crate::{DamageCause, Head, Piece};
use sha2::{Digest, Sha256};
use ws_outside::Octets;
use ws_wire::In;

const MAGIC: [u8; 6] = *b"WSAREA";

/// The most bytes of an area.
const LARGEST: u64 = 1 << 30;

const OPEN: [u8; 1] = [1];

/// Whether a gate is open.
pub(crate) fn opens(gate: &[u8]) -> bool
    ensures { result ≡ is_open gate.now }
{
    gate == OPEN.as_slice()
}

/// The number in a field of two bytes.
fn two(field: &[u8]) -> u16
    requires { length field.now ≡ 2 }
    ensures { result ≡ big_number 2 field.now }
{
    match In::of(field).u16() {
        Ok(number) => number,
        Err(_) => 0,
    }
}

/// The number in a field of eight bytes.
fn eight(field: &[u8]) -> u64
    requires { length field.now ≡ 8 }
    ensures { result ≡ big_number 8 field.now }
{
    match In::of(field).u64() {
        Ok(number) => number,
        Err(_) => 0,
    }
}

/// The head of an area of this length with these first bytes.
pub(crate) fn parse_head(len: u64, front: &[u8]) -> Result<Option<Head>, (u64, DamageCause)>
    ensures { result ≡ head_in len front.now }
{
    if front.len() < 57 {
        return Ok(None);
    }
    if !opens(&front[..1]) {
        return Ok(None);
    }
    let version = two(&front[7..9]);
    let number = eight(&front[9..17]);
    let length = eight(&front[17..25]);
    open_head(len, &front[1..7], version, number, length)
}

fn open_head(
    len: u64,
    magic: &[u8],
    version: u16,
    number: u64,
    length: u64,
) -> Result<Option<Head>, (u64, DamageCause)>
    ensures { result ≡ head_from len magic.now version number length }
{
    if len > LARGEST {
        return Err((0, DamageCause::TooLarge));
    }
    if magic != MAGIC.as_slice() {
        return Err((1, DamageCause::BadMagic));
    }
    if version != READ {
        return Err((7, DamageCause::BadVersion(version)));
    }
    if number < 1 {
        return Err((9, DamageCause::BadNumber));
    }
    if number >= 1 << 63 {
        return Err((9, DamageCause::BadNumber));
    }
    Ok(Some(Head {
        number,
        version,
        length,
    }))
}

/// The frame at a place of an area of this length, where what it announces ends within the area.
pub(crate) fn parse_frame(len: u64, at: u64, front: &[u8]) -> Option<Frame>
    ensures { result ≡ frame_in len at front.now }
{
    if front.len() < 40 {
        return None;
    }
    let size = eight(&front[..8]);
    let rest = len.saturating_sub(at).saturating_sub(40);
    if size >= rest {
        return None;
    }
    let mut digest = [0; 32];
    digest.copy_from_slice(&front[8..40]);
    Some(Frame { size, digest })
}

/// The body, where it has its digest.
pub(crate) fn judge(at: u64, frame: Frame, body: Vec<u8>) -> Result<Piece, (u64, DamageCause)>
    requires { at + 40 + frame.size < 2 ^ 64 }
    ensures { result ≡ piece_in at frame body.items }
{
    let found = Sha256::digest(&body);
    if frame.digest != found {
        let kept = frame.digest;
        return Err((at + 40, DamageCause::BadDigest { kept, found }));
    }
    Ok(Piece {
        body: Octets::from(body),
        at: at + 40,
        gate: at + 40 + frame.size,
    })
}
