//! Files as they are written in rows.
use crate::asserting::must;
use bytes::Bytes;
use std::process::Abort;

/// The bytes that are written so: `;` stands for a line feed, `^` for a byte that is in no text, `%` and `#` for the
/// first byte of a character of two and of three bytes, and `$` for one that may follow.
pub fn bytes_of(rt: &(impl Abort + AllocGlobal), text: &str) -> Bytes {
    let mut bytes = Vec::new(rt.alloc());
    for byte in text.as_bytes() {
        let byte = match *byte {
            b';' => b'\n',
            b'^' => 0xff,
            b'%' => 0xc3,
            b'#' => 0xe2,
            b'$' => 0x82,
            other => other,
        };
        must(rt, bytes.push(byte));
    }
    must(rt, Bytes::from_vec(bytes))
}

/// The bytes as they are written.
pub fn put_bytes(rt: &(impl Abort + AllocGlobal), out: &mut String, bytes: &[u8]) {
    match std::str::from_utf8(bytes) {
        Ok(text) => put(rt, out, text),
        Err(_) => put(rt, out, "no text"),
    }
}

pub fn put(rt: &(impl Abort + AllocGlobal), out: &mut String, text: &str) {
    for letter in text.chars() {
        must(rt, out.push(if letter == '\n' { ';' } else { letter }));
    }
}
