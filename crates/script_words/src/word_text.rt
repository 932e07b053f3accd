//! How words are printed.
ghost use Rattle.std.specs.Prelude.{◌≡◌, ◌<◌, ◌≤◌, ◌++◌, length, OnOk, OnErr};
ghost use Rattle.std.specs.List.{flat_map};
ghost use Rattle.std.specs.Char.{digit_char};
ghost use Rattle.std.specs.Str.Lossy.{utf8_valid_len};
ghost use Rattle.script_words.specs.Words.{hex_text, byte_text, quoted_text, word_text, SpellsMore, Grows};

use crate::NoMemory;
use crate::words::is_bare;
use std::str::from_utf8;

/// Appends a word as a script's text has it: bare where it can be, and else quoted. After want of memory a part of it
/// may have been appended, and what stood there before stays in front. Costs one pass over the word.
pub fn put_word(out: &mut Vec<u8>, word: &[u8]) -> Result<(), NoMemory>
    ensures text { OnOk result (out.new.items ≡ out.old.items ++ word_text word.now) }
    ensures read { OnOk result (SpellsMore out.old.items word.now out.new.items) }
    ensures kept { Grows out.old.items out.new.items }
{
    put_text(out, word)?;
    Ok(())
}

fn put_text(out: &mut Vec<u8>, word: &[u8]) -> Result<(), NoMemory>
    ensures text { OnOk result (out.new.items ≡ out.old.items ++ word_text word.now) }
    ensures kept { Grows out.old.items out.new.items }
{
    if is_bare(word) {
        put_bytes(out, word)
    } else {
        put_bytes(out, b"\"")?;
        put_quoted(out, word)?;
        put_bytes(out, b"\"")
    }
}

/// Appends these bytes. After want of memory all stands as it was.
pub fn put_bytes(out: &mut Vec<u8>, text: &[u8]) -> Result<(), NoMemory>
    ensures text { OnOk result (out.new.items ≡ out.old.items ++ text.now) }
    ensures err { OnErr result (out.new.items ≡ out.old.items) }
    ensures kept { Grows out.old.items out.new.items }
{
    out.extend_from_slice(text)?;
    Ok(())
}

/// Appends what stands between the quotes.
fn put_quoted(out: &mut Vec<u8>, word: &[u8]) -> Result<(), NoMemory>
    ensures text { OnOk result (out.new.items ≡ out.old.items ++ quoted_text word.now) }
    ensures kept { Grows out.old.items out.new.items }
{
    let mut rest = word;
    loop {
        let (valid, after) = rest.split_at(valid_len(rest));
        put_valid(out, valid)?;
        let Some((invalid, more)) = after.split_first() else {
            return Ok(());
        };
        put_hex(out, *invalid)?;
        rest = more;
    }
}

/// How long the longest front is that is UTF-8.
fn valid_len(text: &[u8]) -> usize
    ensures value { result ≡ utf8_valid_len text.now }
    ensures bound { result ≤ length text.now }
{
    match from_utf8(text) {
        Ok(_) => text.len(),
        Err(e) => e.valid_up_to(),
    }
}

/// Appends bytes of UTF-8.
fn put_valid(out: &mut Vec<u8>, text: &[u8]) -> Result<(), NoMemory>
    ensures text { OnOk result (out.new.items ≡ out.old.items ++ flat_map byte_text text.now) }
    ensures kept { Grows out.old.items out.new.items }
{
    for b in text {
        put_byte(out, *b)?;
    }
    Ok(())
}

fn put_byte(out: &mut Vec<u8>, b: u8) -> Result<(), NoMemory>
    ensures text { OnOk result (out.new.items ≡ out.old.items ++ byte_text b) }
    ensures kept { Grows out.old.items out.new.items }
{
    match b {
        b'"' | b'\\' => put_bytes(out, &[b'\\', b]),
        b'\n' => put_bytes(out, b"\\n"),
        b'\t' => put_bytes(out, b"\\t"),
        b'\r' => put_bytes(out, b"\\r"),
        0..32 | 127 => put_hex(out, b),
        _ => put_bytes(out, &[b]),
    }
}

/// Appends a byte by its two digits.
fn put_hex(out: &mut Vec<u8>, b: u8) -> Result<(), NoMemory>
    ensures text { OnOk result (out.new.items ≡ out.old.items ++ hex_text b) }
    ensures kept { Grows out.old.items out.new.items }
{
    put_bytes(out, &[b'\\', b'x', hex_digit(b / 16), hex_digit(b % 16)])
}

/// A number below 16 as a hexadecimal digit, in lower case.
pub fn hex_digit(d: u8) -> u8
    requires { d < 16 }
    ensures { result ≡ digit_char d }
{
    if d < 10 { b'0' + d } else { 87 + d }
}
