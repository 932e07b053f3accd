//! What is told of a file that isn't there.
ghost use Rattle.std.specs.Prelude.{◌≡◌, ◌<◌, ◌≤◌, ◌++◌, length, take, IfOk, OnOk, MatchOption, string_bytes};
ghost use Rattle.include_lines.specs.Messages.{text_front, readable, message};

use mark_set::MarkText;
use std::alloc::{AllocError, Global};
use std::str::from_utf8;

/// The longest message, in bytes.
const LIMIT: usize = 200;

/// `missing NAME`, with `?` in place of each byte of the name that is part of no character, cut to at most 200 bytes at
/// a character's end. Costs one pass over the name.
pub(crate) fn message(alloc: Global, name: &[u8]) -> Result<MarkText, AllocError>
    ensures { IfOk result (λ text. text ≡ message name.now) }
{
    let mut text = String::from_str(alloc, "missing ")?;
    push_readable(&mut text, name)?;
    let whole = text.as_str().as_bytes();
    let shown = text_front(front(whole));
    // A text of 200 bytes is refused for memory alone.
    let Ok(shown) = MarkText::parse(alloc, shown) else {
        return Err(AllocError);
    };
    Ok(shown)
}

/// The bytes up to the limit.
fn front(bytes: &[u8]) -> &[u8]
    ensures { result.now ≡ take 200 bytes.now }
{
    if bytes.len() <= LIMIT {
        bytes
    } else {
        bytes.split_at(LIMIT).0
    }
}

/// The longest front of the bytes that is UTF-8.
fn text_front(bytes: &[u8]) -> &str
    ensures { result.now ≡ text_front bytes.now }
{
    match from_utf8(bytes) {
        Ok(text) => text,
        Err(fault) => match from_utf8(bytes.split_at(fault.valid_up_to()).0) {
            Ok(text) => text,
            // The front that is valid is UTF-8.
            Err(_) => "",
        },
    }
}

/// Adds the bytes, with `?` in place of each that is part of no character.
fn push_readable(text: &mut String, bytes: &[u8]) -> Result<(), AllocError>
    ensures { OnOk result (string_bytes text.new ≡ string_bytes text.old ++ readable bytes.now) }
{
    let mut rest = bytes;
    loop {
        match push_front(text, rest)? {
            Some(after) => rest = after,
            None => return Ok(()),
        }
    }
}

/// Adds the longest front of the bytes that is UTF-8, and where a byte follows it, `?`. What then follows is still to
/// be added.
fn push_front<'a>(text: &mut String, bytes: &'a [u8]) -> Result<Option<&'a [u8]>, AllocError>
    ensures added { IfOk result (λ rest. MatchOption rest
        (string_bytes text.new ≡ string_bytes text.old ++ readable bytes.now)
        (λ after. string_bytes text.new ++ readable after.now ≡ string_bytes text.old ++ readable bytes.now)) }
    ensures shorter { IfOk result (λ rest. MatchOption rest Unit (λ after. length after.now < length bytes.now)) }
{
    let front = text_front(bytes);
    text.push_str(front)?;
    let (_, others) = bytes.split_at(front.len());
    match others.split_first() {
        Some((_, after)) => {
            text.push('?')?;
            Ok(Some(after))
        }
        None => Ok(None),
    }
}
