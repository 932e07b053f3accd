//! What stands between the slashes of a text.
ghost use Rattle.std.specs.Prelude.{◌≡◌, ◌+◌, ◌<◌, ◌≤◌, ◌^◌, ◌↔◌, ℕ, [], ◌∷◌, length, take, drop, IsTrue, MatchOption, IfSome, IfNone, true, slice_index, Some, None};
ghost use Rattle.std.specs.List.{slice_split, list_all, position, count_by};
ghost use Rattle.res_path.specs.Names.{is_name, is_dots, has_name_length, is_name_byte};
ghost use Rattle.res_path.specs.Parts.{is_slash, has_no_slash, first_bad, bad_segment, part_count, path_fault};

use crate::PathError;

/// The most bytes that a path's text has.
pub const MAX_LEN: usize = 4096;

/// The most names that a path has.
pub const MAX_DEPTH: usize = 64;

/// Whether the bytes have a name's form. That they are UTF-8 is not looked at.
pub fn has_name_form(bytes: &[u8]) -> bool
    ensures { result ≡ is_name bytes.now }
{
    has_name_length(bytes) && has_name_bytes(bytes) && !is_dots(bytes)
}

fn has_name_length(bytes: &[u8]) -> bool
    ensures { result ≡ has_name_length bytes.now }
{
    1 <= bytes.len() && bytes.len() <= 255
}

fn has_name_bytes(bytes: &[u8]) -> bool
    ensures { result ≡ list_all is_name_byte bytes.now }
{
    bytes.iter().all(|b| 32 <= *b && *b != 127 && *b != b'/')
}

fn is_dots(bytes: &[u8]) -> bool
    ensures { result ≡ is_dots bytes.now }
{
    bytes == b".".as_slice() || bytes == b"..".as_slice()
}

fn slash_at(bytes: &[u8]) -> Option<usize>
    ensures place { result ≡ position is_slash bytes.now }
    ensures bound { IfSome result (λ at. at < length bytes.now) }
{
    bytes.iter().position(|b| *b == b'/')
}

/// What stands before the first slash, and what follows it, where there is one.
fn cut(bytes: &[u8]) -> (&[u8], Option<&[u8]>)
    ensures parts { MatchOption result.1 (slice_split is_slash bytes.now ≡ result.0.now ∷ [])
        (λ rest. slice_split is_slash bytes.now ≡ result.0.now ∷ slice_split is_slash rest.now) }
    ensures len { IfSome result.1 (λ rest. length result.0.now + 1 + length rest.now ≡ length bytes.now) }
{
    match slash_at(bytes) {
        None => (bytes, None),
        Some(at) => (&bytes[..at], Some(&bytes[at + 1..])),
    }
}

/// Where the first part that is no name begins, the first part beginning at `at`.
fn first_bad(bytes: &[u8], at: usize) -> Option<usize>
    requires { at + length bytes.now < 2 ^ 63 }
    ensures { result ≡ first_bad at (slice_split is_slash bytes.now) }
{
    let mut rest = bytes;
    let mut begins = at;
    loop {
        let (part, more) = cut(rest);
        if !has_name_form(part) {
            return Some(begins);
        }
        let Some(next) = more else {
            return None;
        };
        begins += part.len() + 1;
        rest = next;
    }
}

fn bad_segment(text: &[u8]) -> Option<usize>
    requires { length text.now ≤ 4096 }
    ensures { result ≡ bad_segment text.now }
{
    match text {
        [b'/'] => None,
        [b'/', ..] => first_bad(&text[1..], 1),
        _ => Some(0),
    }
}

/// How many slashes the bytes have.
pub fn slash_count(bytes: &[u8]) -> usize
    ensures { result ≡ count_by is_slash bytes.now }
{
    bytes.iter().filter(|b| **b == b'/').count()
}

fn part_count(text: &[u8]) -> usize
    ensures { result ≡ part_count text.now }
{
    if text.len() < 2 {
        return 0;
    }
    slash_count(&text[1..]) + 1
}

/// Why the text is no path, where it isn't one.
pub fn path_fault(text: &[u8]) -> Option<PathError>
    ensures { result ≡ path_fault text.now }
{
    if text.len() > MAX_LEN {
        return Some(PathError::TooLong);
    }
    if let Some(at) = bad_segment(text) {
        return Some(PathError::BadSegment { at });
    }
    if part_count(text) > MAX_DEPTH {
        return Some(PathError::TooDeep);
    }
    None
}

/// Where the last slash stands.
pub fn last_slash(bytes: &[u8]) -> Option<usize>
    ensures none { IfNone result (has_no_slash bytes.now ≡ true) }
    ensures bound { IfSome result (λ at. at < length bytes.now) }
    ensures slash { IfSome result (λ at. slice_index bytes.now at ≡ 47) }
    ensures last { IfSome result (λ at. has_no_slash (drop (at + 1) bytes.now) ≡ true) }
{
    let mut at = bytes.len();
    while at > 0 {
        at -= 1;
        if bytes[at] == b'/' {
            return Some(at);
        }
    }
    None
}
