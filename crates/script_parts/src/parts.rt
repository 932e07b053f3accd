//! What the words of a line stand for, one by one.
ghost use Rattle.std.specs.Prelude.{◌≡◌, ◌∷◌, List, ℕ, ◌<◌, ◌^◌, ℤ, decimal, FitsSigned, IfOk, MatchOption, IsTrue, ◌↔◌};
ghost use Rattle.std.specs.Fmt.{signed_decimal};
ghost use Rattle.std.specs.Int.{w32};
ghost use Rattle.res_path.specs.Names.{IsName};
ghost use Rattle.res_path.specs.Paths.{Names, IsPath, path_text};
ghost use Rattle.script_parts.specs.Parts.{keyword, a_number, an_integer, a_name, a_path, a_project, a_text, FitsPart, IsNumber, switch_word, truth_word, depth_word};
ghost use Rattle.script_parts.specs.Inside.Found.{IsPartFound};

use crate::NoMemory;
use bytes::{ByteStr, Bytes};
use itoa::Buffer;
use mark_set::RawText;
use res_path::{Name, Path};
use script_words::Token;
use std::alloc::Global;
use std::mem;
use std::str::from_utf8;
use ws_elem::Depth;

/// Whether the token is this keyword.
pub fn is_key(token: &Token, text: &[u8]) -> bool
    ensures { IsTrue result ↔ FitsPart token.now (keyword text.now) }
{
    token.bare && token.word.as_slice() == text
}

/// The path that the token spells. It shares the token's text.
pub fn path_of(token: &Token) -> Result<Option<Path>, NoMemory>
    ensures { IfOk result (IsPartFound a_path token.now) }
{
    Ok(path_in(token.word.clone()?))
}

/// The path that the token spells, to which the token's text goes over.
pub fn take_path(token: &mut Token) -> Option<Path>
    ensures { IsPartFound a_path token.old result }
{
    path_in(take_word(token))
}

/// The path that a word is.
fn path_in(word: Bytes) -> Option<Path>
    ensures { MatchOption result ((path : Names) → IsPath path → word ≡ path_text path → ⊥) (λ path. IsPath path × (word ≡ path_text path)) }
{
    let Ok(text) = ByteStr::from_utf8(word) else {
        return None;
    };
    match Path::from_text(text) {
        Ok(path) => Some(path),
        Err(_) => None,
    }
}

/// The name that the token spells. It shares the token's text.
pub fn name_of(token: &Token) -> Result<Option<Name>, NoMemory>
    ensures { IfOk result (IsPartFound a_name token.now) }
{
    Ok(name_in(token.word.clone()?))
}

/// The name that the token spells, to which the token's text goes over.
pub fn take_name(token: &mut Token) -> Option<Name>
    ensures { IsPartFound a_name token.old result }
{
    name_in(take_word(token))
}

/// The name that a word is.
fn name_in(word: Bytes) -> Option<Name>
    ensures { MatchOption result ((name : List ℕ) → IsName name → word ≡ name → ⊥) (λ name. IsName name × (word ≡ name)) }
{
    let Ok(text) = ByteStr::from_utf8(word) else {
        return None;
    };
    match Name::from_text(text) {
        Ok(name) => Some(name),
        Err(_) => None,
    }
}

/// The project whose path the token spells, a path of one name, to which the token's text goes over.
pub fn take_project(token: &mut Token) -> Option<Name>
    ensures { IsPartFound a_project token.old result }
{
    project_in(take_word(token))
}

/// The name that is the rest of the word behind a slash.
fn project_in(word: Bytes) -> Option<Name>
    ensures { MatchOption result ((name : List ℕ) → IsName name → word ≡ 47 ∷ name → ⊥) (λ name. IsName name × (word ≡ 47 ∷ name)) }
{
    let [first, ..] = word.as_slice() else {
        return None;
    };
    if *first != b'/' {
        return None;
    }
    let mut name = word;
    name.advance(1);
    name_in(name)
}

/// The word that the token denotes, which the token no longer has.
pub fn take_word(token: &mut Token) -> Bytes
    ensures { result ≡ token.old.word }
{
    mem::replace(&mut token.word, Bytes::new())
}

/// The text that the token is, copied.
pub fn text_of(alloc: Global, token: &Token) -> Result<Option<RawText>, NoMemory>
    ensures { IfOk result (IsPartFound a_text token.now) }
{
    let Ok(text) = from_utf8(token.word.as_slice()) else {
        return Ok(None);
    };
    Ok(Some(RawText::of(String::from_str(alloc, text)?)))
}

/// The number of 64 bits that the token spells.
pub fn number_of(token: &Token) -> Option<u64>
    ensures { IsPartFound (a_number 64 0) token.now result }
{
    if token.bare {
        decimal_of(token.word.as_slice())
    } else {
        None
    }
}

/// The number of 32 bits, no less than this one, that the token spells.
pub fn number_from(token: &Token, least: u32) -> Option<u32>
    ensures { IsPartFound (a_number 32 least) token.now result }
{
    let number = number_of(token)?;
    if is_line_number(least, number) {
        Some(number as u32)
    } else {
        None
    }
}

fn is_line_number(least: u32, number: u64) -> bool
    ensures { IsTrue result ↔ IsNumber 32 least number }
{
    u64::from(least) <= number && number < 4_294_967_296
}

/// The number of which this is the decimal text, without a leading zero.
fn decimal_of(word: &[u8]) -> Option<u64>
    ensures { MatchOption result ((number : ℕ) → number < 2 ^ 64 → word.now ≡ decimal number → ⊥) (λ number. word.now ≡ decimal number) }
{
    let Ok(text) = from_utf8(word) else {
        return None;
    };
    let Ok(number) = text.parse::<u64>() else {
        return None;
    };
    if is_decimal_of(word, number) {
        Some(number)
    } else {
        None
    }
}

fn is_decimal_of(word: &[u8], number: u64) -> bool
    ensures { IsTrue result ↔ (word.now ≡ decimal number) }
{
    let mut buffer = Buffer::new();
    word == buffer.format(number).as_bytes()
}

/// The integer of 32 bits that the token spells.
pub fn integer_of(token: &Token) -> Option<i32>
    ensures { IsPartFound an_integer token.now result }
{
    if token.bare {
        signed_of(token.word.as_slice())
    } else {
        None
    }
}

/// The integer of which this is the decimal text, without a leading zero.
fn signed_of(word: &[u8]) -> Option<i32>
    ensures { MatchOption result ((integer : ℤ) → FitsSigned w32 integer → word.now ≡ signed_decimal integer → ⊥)
        (λ integer. word.now ≡ signed_decimal integer) }
{
    let Ok(text) = from_utf8(word) else {
        return None;
    };
    let Ok(integer) = text.parse::<i32>() else {
        return None;
    };
    if is_signed_of(word, integer) {
        Some(integer)
    } else {
        None
    }
}

fn is_signed_of(word: &[u8], integer: i32) -> bool
    ensures { IsTrue result ↔ (word.now ≡ signed_decimal integer) }
{
    let mut buffer = Buffer::new();
    word == buffer.format(integer).as_bytes()
}

/// The depth that the token is.
pub fn depth_of(token: &Token) -> Option<Depth>
    ensures { IsPartFound (λ depth. keyword (depth_word depth)) token.now result }
{
    if is_key(token, b"0") {
        return Some(Depth::Zero);
    }
    if is_key(token, b"1") {
        return Some(Depth::One);
    }
    if is_key(token, b"2") {
        return Some(Depth::Infinite);
    }
    None
}

/// Whether the token is `on` or `off`.
pub fn switch_of(token: &Token) -> Option<bool>
    ensures { IsPartFound (λ derived. keyword (switch_word derived)) token.now result }
{
    if is_key(token, b"on") {
        return Some(true);
    }
    if is_key(token, b"off") {
        return Some(false);
    }
    None
}

/// Whether the token is `true` or `false`.
pub fn truth_of(token: &Token) -> Option<bool>
    ensures { IsPartFound (λ truth. keyword (truth_word truth)) token.now result }
{
    if is_key(token, b"true") {
        return Some(true);
    }
    if is_key(token, b"false") {
        return Some(false);
    }
    None
}
