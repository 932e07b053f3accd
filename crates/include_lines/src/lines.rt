//! The lines of a file.
ghost use Rattle.std.specs.Prelude.{◌≡◌, ◌<◌, ◌∷◌, ◌++◌, length};
ghost use Rattle.std.specs.Option.{option_map};
ghost use Rattle.include_lines.specs.Lines.{lines_of, without_line_feed, include_name};

use memchr::memchr;

/// The first line, and all after it.
pub(crate) fn first_line(bytes: &[u8]) -> (&[u8], &[u8])
    requires { 0 < length bytes.now }
    ensures whole { bytes.now ≡ result.0.now ++ result.1.now }
    ensures lines { lines_of bytes.now ≡ result.0.now ∷ lines_of result.1.now }
    ensures shorter { length result.1.now < length bytes.now }
{
    match memchr(b'\n', bytes) {
        Some(at) => bytes.split_at(at + 1),
        None => bytes.split_at(bytes.len()),
    }
}

/// The name in a line `@include NAME`, if it is one. The line feed at its end is no part of the name.
pub(crate) fn include_name(line: &[u8]) -> Option<&[u8]>
    ensures { option_map (λ name. name.now) result ≡ include_name line.now }
{
    match line.strip_prefix(b"@include ") {
        Some(name) => Some(without_line_feed(name)),
        None => None,
    }
}

/// The line without the line feed at its end.
fn without_line_feed(line: &[u8]) -> &[u8]
    ensures { result.now ≡ without_line_feed line.now }
{
    match line.split_last() {
        Some((last, front)) => { if *last == b'\n' { front } else { line } }
        None => line,
    }
}
