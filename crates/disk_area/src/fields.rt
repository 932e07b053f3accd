// The headers of an area and of a record, as bytes.
ghost use Rattle.std.specs.Prelude.{◌≡◌, ◌++◌, ◌<◌, ◌^◌, length};
ghost use Rattle.disk_area.specs.Area.{header, record_header};

use crate::version::WRITTEN;
use byteorder::{BigEndian, ByteOrder};
use sha2::{Digest, Sha256};

/// Bytes 1 to 56 of an area.
#[tactic(auto, unfolding(crate::specs::Area::header, ws_wire::specs::Fields::number_field))]
pub(crate) fn header_bytes(number: u64, image: &[u8]) -> [u8; 56]
    ensures { result ≡ header number image.now }
{
    let mut head = [0u8; 56];
    head[..6].copy_from_slice(b"WSAREA");
    BigEndian::write_u16(&mut head[6..8], WRITTEN);
    BigEndian::write_u64(&mut head[8..16], number);
    BigEndian::write_u64(&mut head[16..24], image.len() as u64);
    let digest = Sha256::digest(image);
    head[24..].copy_from_slice(&digest);
    head
}

/// The bytes of a record between its gate and its body.
#[tactic(auto, unfolding(crate::specs::Area::record_header, ws_wire::specs::Fields::number_field))]
pub(crate) fn record_bytes(body: &[u8]) -> [u8; 40]
    ensures { result ≡ record_header body.now }
{
    let mut head = [0u8; 40];
    BigEndian::write_u64(&mut head[..8], body.len() as u64);
    head[8..].copy_from_slice(&Sha256::digest(body));
    head
}
