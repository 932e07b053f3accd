//! What stands between the quotes of a word.
ghost use Rattle.std.specs.Prelude.{◌≡◌, ◌++◌, None, Some, length, ◌<◌, ◌&&◌, nat_le, false, IsTrue, IsUtf8, ◌↔◌, IfOk, OnOk, IfSome, MatchOption, slice_index};
ghost use Rattle.std.specs.List.{list_all};
ghost use Rattle.std.specs.Char.{digit_value};
ghost use Rattle.std.specs.Option.{option_to_list};
ghost use Rattle.script_words.specs.declared.quoted.State.TheVariants.{Between, Escape, SecondDigit};
ghost use Rattle.script_words.specs.Words.{Word, is_plain, is_letter, letter_byte, is_hex, SpellsQuoted};
ghost use Rattle.script_words.specs.Inside.Quoted.{closes, takes_next, quote_from, step, denoted};

use crate::NoMemory;
use bytes::Bytes;
use std::alloc::Global;
use std::str::from_utf8;

/// What may follow within a quoted word.
#[derive(Clone, Copy)]
pub enum State {
    /// An item, or the end.
    Between,
    /// The letter of an escape.
    Escape,
    /// The first digit of a byte.
    FirstDigit,
    /// The second digit of a byte, after this first one.
    SecondDigit(u8),
}

/// The place of the quote that closes a quoted word, in what follows the opening one.
pub fn quote_place(text: &[u8]) -> Option<usize>
    ensures place { result ≡ quote_from false 0 text.now }
    ensures bound { IfSome result (λ at. at < length text.now) }
    ensures quote { IfSome result (λ at. slice_index text.now at ≡ 34) }
{
    let mut escaped = false;
    for at in 0..text.len() {
        if closes(escaped, text[at]) {
            return Some(at);
        }
        escaped = takes_next(escaped, text[at]);
    }
    None
}

fn closes(escaped: bool, b: u8) -> bool
    ensures { result ≡ closes escaped b }
{
    !escaped && b == b'"'
}

fn takes_next(escaped: bool, b: u8) -> bool
    ensures { result ≡ takes_next escaped b }
{
    !escaped && b == b'\\'
}

/// The word that these bytes between quotes denote, where they are items. Shares them where none is an escape.
pub fn denoted(alloc: Global, inner: Bytes) -> Result<Option<Bytes>, NoMemory>
    ensures { IfOk result (λ found. MatchOption found ((word : Word) → SpellsQuoted inner word → ⊥) (λ word. SpellsQuoted inner word)) }
{
    if !is_utf8(inner.as_slice()) {
        return Ok(None);
    }
    if is_all_plain(inner.as_slice()) {
        return Ok(Some(inner));
    }
    match unescaped(alloc, inner.as_slice())? {
        None => Ok(None),
        Some(word) => Ok(Some(Bytes::from_vec(word)?)),
    }
}

fn is_utf8(bytes: &[u8]) -> bool
    ensures { IsTrue result ↔ IsUtf8 bytes.now }
{
    from_utf8(bytes).is_ok()
}

fn is_all_plain(text: &[u8]) -> bool
    ensures { result ≡ list_all is_plain text.now }
{
    text.iter().all(|b| is_plain(*b))
}

fn is_plain(b: u8) -> bool
    ensures { result ≡ is_plain b }
{
    32 <= b && b != b'"' && b != b'\\' && b != 127
}

/// What the bytes denote, where they are items to the end.
fn unescaped(alloc: Global, text: &[u8]) -> Result<Option<Vec<u8>>, NoMemory>
    ensures { IfOk result (λ found. MatchOption found (denoted text.now Between ≡ None) (λ word. denoted text.now Between ≡ Some word.items)) }
{
    let mut word = Vec::new(alloc);
    let mut state = State::Between;
    for b in text {
        let Some((next, byte)) = step(state, *b) else {
            return Ok(None);
        };
        put(&mut word, byte)?;
        state = next;
    }
    match state {
        State::Between => Ok(Some(word)),
        _ => Ok(None),
    }
}

fn put(word: &mut Vec<u8>, byte: Option<u8>) -> Result<(), NoMemory>
    ensures { OnOk result (word.new.items ≡ word.old.items ++ option_to_list byte) }
{
    match byte {
        None => Ok(()),
        Some(byte) => {
            word.push(byte)?;
            Ok(())
        }
    }
}

/// What may follow a byte, and the byte of the word that is whole with it.
fn step(state: State, b: u8) -> Option<(State, Option<u8>)>
    ensures { result ≡ step state b }
{
    match state {
        State::Between => after_item(b),
        State::Escape => after_backslash(b),
        State::FirstDigit => Some((State::SecondDigit(b), None)),
        State::SecondDigit(high) => after_digits(high, b),
    }
}

fn after_item(b: u8) -> Option<(State, Option<u8>)>
    ensures { result ≡ step Between b }
{
    if b == b'\\' {
        Some((State::Escape, None))
    } else if is_plain(b) {
        Some((State::Between, Some(b)))
    } else {
        None
    }
}

fn after_backslash(b: u8) -> Option<(State, Option<u8>)>
    ensures { result ≡ step Escape b }
{
    if b == b'x' {
        Some((State::FirstDigit, None))
    } else if is_letter(b) {
        Some((State::Between, Some(letter_byte(b))))
    } else {
        None
    }
}

fn after_digits(high: u8, low: u8) -> Option<(State, Option<u8>)>
    ensures { result ≡ step (SecondDigit high) low }
{
    if is_hex(high) && is_hex(low) {
        Some((State::Between, Some(digit(high) * 16 + digit(low))))
    } else {
        None
    }
}

fn is_letter(b: u8) -> bool
    ensures { result ≡ is_letter b }
{
    b == b'"' || b == b'\\' || b == b'n' || b == b't' || b == b'r'
}

/// The byte that a letter after a backslash stands for.
fn letter_byte(letter: u8) -> u8
    ensures { result ≡ letter_byte letter }
{
    match letter {
        b'n' => b'\n',
        b't' => b'\t',
        b'r' => b'\r',
        _ => letter,
    }
}

/// Whether this is a hexadecimal digit in lower case.
fn is_hex(b: u8) -> bool
    ensures { result ≡ is_hex b }
{
    is_decimal(b) || is_low_letter(b)
}

fn is_decimal(b: u8) -> bool
    ensures { result ≡ (nat_le 48 b && nat_le b 57) }
{
    b'0' <= b && b <= b'9'
}

fn is_low_letter(b: u8) -> bool
    ensures { result ≡ (nat_le 97 b && nat_le b 102) }
{
    b'a' <= b && b <= b'f'
}

fn digit(b: u8) -> u8
    requires { IsTrue (is_hex b) }
    ensures value { result ≡ digit_value b }
    ensures bound { result < 16 }
{
    if b <= b'9' { b - b'0' } else { b - 87 }
}
