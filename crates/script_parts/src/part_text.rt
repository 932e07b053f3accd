//! How the parts of a line are printed.
ghost use Rattle.std.specs.Prelude.{◌≡◌, ◌++◌, [], ◌∷◌, true, codes, decimal, OnOk, FitsSigned};
ghost use Rattle.std.specs.Fmt.{signed_decimal};
ghost use Rattle.std.specs.Int.{w32};
ghost use Rattle.res_path.specs.Paths.{path_text};
ghost use Rattle.script_words.specs.Words.{Grows, is_bare, word_text};
ghost use Rattle.script_words.specs.Inside.Bytes.{AreBytes};
ghost use Rattle.script_parts.specs.Parts.{a_name, a_number, a_path, a_project, a_text, a_word, depth_word, scope_parts, switch_word, truth_word};
ghost use Rattle.script_parts.specs.Inside.Printed.{AreParts, IsPart, spaced};

use crate::NoMemory;
use bytes::Bytes;
use itoa::Buffer;
use mark_set::RawText;
use res_path::{Name, Path};
use script_words::{put_bytes, put_word};
use ws_elem::Depth;

/// Appends `create`, what is created, which can stand bare, and its path, with one space between. After want of memory a
/// part of it may have been appended, and what stood there before stays in front.
pub fn put_created(out: &mut Vec<u8>, kind: &[u8], path: &[u8]) -> Result<(), NoMemory>
    requires { is_bare kind.now ≡ true }
    ensures text { OnOk result (out.new.items ≡ out.old.items ++ (word_text (codes "create") ++ 32 ∷ (word_text kind.now ++ 32 ∷ word_text path.now))) }
    ensures kept { Grows out.old.items out.new.items }
{
    put_bytes(out, b"create ")?;
    put_bytes(out, kind)?;
    put_next(out, path)
}

/// Appends four words with one space between. The first can stand bare. After want of memory a part of it may have been
/// appended, and what stood there before stays in front.
pub fn put_four(
    out: &mut Vec<u8>,
    first: &[u8],
    second: &[u8],
    third: &[u8],
    fourth: &[u8],
) -> Result<(), NoMemory>
    requires { is_bare first.now ≡ true }
    ensures text { OnOk result (out.new.items
        ≡ out.old.items ++ (word_text first.now ++ 32 ∷ (word_text second.now ++ 32 ∷ (word_text third.now ++ 32 ∷ word_text fourth.now)))) }
    ensures kept { Grows out.old.items out.new.items }
{
    put_three(out, first, second, third)?;
    put_next(out, fourth)
}

/// Appends three words with one space between. The first can stand bare. After want of memory a part of it may have been
/// appended, and what stood there before stays in front.
pub fn put_three(
    out: &mut Vec<u8>,
    first: &[u8],
    second: &[u8],
    third: &[u8],
) -> Result<(), NoMemory>
    requires { is_bare first.now ≡ true }
    ensures text { OnOk result (out.new.items ≡ out.old.items ++ (word_text first.now ++ 32 ∷ (word_text second.now ++ 32 ∷ word_text third.now))) }
    ensures kept { Grows out.old.items out.new.items }
{
    put_two(out, first, second)?;
    put_next(out, third)
}

/// Appends two words with a space between. The first can stand bare. After want of memory a part of it may have been
/// appended, and what stood there before stays in front.
pub fn put_two(out: &mut Vec<u8>, first: &[u8], second: &[u8]) -> Result<(), NoMemory>
    requires { is_bare first.now ≡ true }
    ensures text { OnOk result (out.new.items ≡ out.old.items ++ (word_text first.now ++ 32 ∷ word_text second.now)) }
    ensures kept { Grows out.old.items out.new.items }
{
    put_bytes(out, first)?;
    put_next(out, second)
}

/// Appends a space and a word. After want of memory a part of it may have been appended, and what stood there before
/// stays in front.
pub fn put_next(out: &mut Vec<u8>, word: &[u8]) -> Result<(), NoMemory>
    ensures text { OnOk result (out.new.items ≡ out.old.items ++ 32 ∷ word_text word.now) }
    ensures kept { Grows out.old.items out.new.items }
{
    put_bytes(out, b" ")?;
    put_word(out, word)
}

/// Appends a space and a number, in decimal. After want of memory a part of it may have been appended, and what stood
/// there before stays in front.
pub fn put_number(out: &mut Vec<u8>, number: u64) -> Result<(), NoMemory>
    ensures text { OnOk result (out.new.items ≡ out.old.items ++ 32 ∷ word_text (decimal number)) }
    ensures kept { Grows out.old.items out.new.items }
    ensures part { IsPart (a_number 64 0 number) }
{
    let mut buffer = Buffer::new();
    put_next(out, buffer.format(number).as_bytes())
}

/// Appends a space and an integer, in decimal. After want of memory a part of it may have been appended, and what stood
/// there before stays in front.
pub fn put_integer(out: &mut Vec<u8>, integer: i32) -> Result<(), NoMemory>
    ensures text { OnOk result (out.new.items ≡ out.old.items ++ 32 ∷ word_text (signed_decimal integer)) }
    ensures kept { Grows out.old.items out.new.items }
    ensures part { FitsSigned w32 integer }
{
    let mut buffer = Buffer::new();
    put_next(out, buffer.format(integer).as_bytes())
}

/// Appends the path of the one project that is meant, if it is one, with a space in front. After want of memory a part of
/// it may have been appended, and what stood there before stays in front.
pub fn put_scope(out: &mut Vec<u8>, project: &Option<Name>) -> Result<(), NoMemory>
    ensures text { OnOk result (out.new.items ≡ out.old.items ++ spaced (scope_parts project.now)) }
    ensures kept { Grows out.old.items out.new.items }
    ensures parts { OnOk result (AreParts (scope_parts project.now)) }
{
    match project {
        None => Ok(()),
        Some(name) => put_project(out, name),
    }
}

/// Appends a space and the path of the project of this name.
fn put_project(out: &mut Vec<u8>, name: &Name) -> Result<(), NoMemory>
    ensures text { OnOk result (out.new.items ≡ out.old.items ++ 32 ∷ word_text (path_text (name.now ∷ []))) }
    ensures kept { Grows out.old.items out.new.items }
    ensures part { OnOk result (IsPart (a_project name.now)) }
{
    let mut path = Vec::new(*out.allocator());
    put_bytes(&mut path, b"/")?;
    put_bytes(&mut path, name_word(name))?;
    put_next(out, path.as_slice())
}

/// The word that a path is.
pub fn path_word(path: &Path) -> &[u8]
    ensures text { result.now ≡ path_text path.now }
    ensures part { IsPart (a_path path.now) }
{
    known_bytes(path.as_str().as_bytes())
}

/// The word that a name is.
pub fn name_word(name: &Name) -> &[u8]
    ensures text { result.now ≡ name.now }
    ensures part { IsPart (a_name name.now) }
{
    known_bytes(name.text().as_bytes())
}

/// The word that a text is.
pub fn text_word(text: &RawText) -> &[u8]
    ensures text { result.now ≡ text.now }
    ensures part { IsPart (a_text text.now) }
{
    known_bytes(text.text().as_bytes())
}

/// The word that these bytes are.
pub fn any_word(bytes: &Bytes) -> &[u8]
    ensures text { result.now ≡ bytes.now }
    ensures part { IsPart (a_word bytes.now) }
{
    known_bytes(bytes.as_slice())
}

/// The same bytes. Contracts learn that they are bytes.
fn known_bytes(word: &[u8]) -> &[u8]
    ensures same { result.now ≡ word.now }
    ensures bytes { AreBytes word.now }
{
    word
}

/// The word that says whether a file is derived: `on` or `off`.
pub fn switch_word(derived: bool) -> &'static [u8]
    ensures { result.now ≡ switch_word derived }
{
    if derived { b"on" } else { b"off" }
}

/// The word that a truth value is: `true` or `false`.
pub fn truth_word(truth: bool) -> &'static [u8]
    ensures { result.now ≡ truth_word truth }
{
    if truth { b"true" } else { b"false" }
}

/// The word that a depth is: `0`, `1`, or `2` for all below.
pub fn depth_word(depth: Depth) -> &'static [u8]
    ensures { result.now ≡ depth_word depth }
{
    match depth {
        Depth::Zero => b"0",
        Depth::One => b"1",
        Depth::Infinite => b"2",
    }
}
