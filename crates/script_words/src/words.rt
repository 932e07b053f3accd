//! The words of a line.
ghost use Rattle.std.specs.Prelude.{◌≡◌, ◌==◌, ◌+◌, ◌<◌, ◌≤◌, List, ℕ, true, false, [], ◌∷◌, ◌++◌, length, take, drop, Option, Some, None, IfOk, IfSome, OnOk, OnErr, MatchOption};
ghost use Rattle.std.specs.Bool.{MatchBool};
ghost use Rattle.std.specs.List.{slice_split, list_all, position};
ghost use Rattle.script_words.specs.declared.words.Token.{Token};
ghost use Rattle.script_words.specs.Words.{is_bare, is_bare_byte, SpellsLine};
ghost use Rattle.script_words.specs.Inside.Quoted.{quote_from};
ghost use Rattle.script_words.specs.Inside.Tokens.{starts_quoted, after_token, left_after, StartsWith, StartsWithNone, TakesToken};

use crate::NoMemory;
use crate::quoted::{denoted, quote_place};
use bytes::Bytes;
use memchr::memchr;
use std::alloc::Global;
use std::mem;

/// A word as it stands in a line.
#[derive(Drop)]
pub struct Token {
    /// Whether it stands bare.
    pub bare: bool,
    /// The bytes that it denotes.
    pub word: Bytes,
}

/// Reads the tokens that a line spells, in place of those that were there. Whether it spells some. A bare word that is
/// no common one, and a quoted one without an escape, shares the line's bytes. Where it spells none, and after want of
/// memory, nothing is said of the tokens. Costs one pass over the line.
pub fn words_of(alloc: Global, line: Bytes, tokens: &mut Vec<Token>) -> Result<bool, NoMemory>
    ensures { IfOk result (λ found. MatchBool found (SpellsLine line tokens.new.items) ((others : List Token) → SpellsLine line others → ⊥)) }
{
    tokens.clear();
    let mut rest = line;
    loop {
        let Some(goes_on) = take_token(alloc, tokens, &mut rest)? else {
            return Ok(false);
        };
        if !goes_on {
            return Ok(true);
        }
    }
}

/// Takes the token in front off a line, with the space that follows it, and adds it to those read. Whether there was
/// such a space; none where no token is in front.
fn take_token(
    alloc: Global,
    tokens: &mut Vec<Token>,
    line: &mut Bytes,
) -> Result<Option<bool>, NoMemory>
    ensures { IfOk result (λ found. MatchOption found (StartsWithNone line.old)
        (λ goes_on. TakesToken line.old line.new tokens.old.items tokens.new.items goes_on)) }
{
    if starts_quoted(line.as_slice()) {
        take_quoted(alloc, tokens, line)
    } else {
        take_bare(tokens, line)
    }
}

fn starts_quoted(line: &[u8]) -> bool
    ensures { result ≡ starts_quoted line.now }
{
    match line {
        [first, ..] => *first == b'"',
        [] => false,
    }
}

fn take_bare(tokens: &mut Vec<Token>, line: &mut Bytes) -> Result<Option<bool>, NoMemory>
    requires { starts_quoted line.old ≡ false }
    ensures { IfOk result (λ found. MatchOption found (StartsWithNone line.old)
        (λ goes_on. TakesToken line.old line.new tokens.old.items tokens.new.items goes_on)) }
{
    let Front {
        word,
        goes_on,
        bare,
    } = cut_word(line)?;
    if !bare {
        return Ok(None);
    }
    tokens.push(Token { bare: true, word })?;
    Ok(Some(goes_on))
}

/// What stood in front of a line.
#[derive(Drop)]
struct Front {
    /// What stood before the first space.
    word: Bytes,
    /// Whether there is a space.
    goes_on: bool,
    /// Whether it can stand bare.
    bare: bool,
}

/// Takes what stands before the first space off a line, and the space too; where there is none, all of the line.
/// Nothing is copied. A common word needs no share of the line's bytes. After want of memory the line is as it was.
fn cut_word(line: &mut Bytes) -> Result<Front, NoMemory>
    ensures parts { IfOk result (λ front. MatchBool front.goes_on
        (slice_split (λ b. b == 32) line.old ≡ front.word ∷ slice_split (λ b. b == 32) line.new)
        (slice_split (λ b. b == 32) line.old ≡ front.word ∷ [])) }
    ensures bare { IfOk result (λ front. front.bare ≡ is_bare front.word) }
    ensures err { OnErr result (line.new ≡ line.old) }
{
    match place_of(line.as_slice(), b' ') {
        None => {
            let word = mem::replace(line, Bytes::new());
            let bare = is_bare(word.as_slice());
            Ok(Front {
                word,
                goes_on: false,
                bare,
            })
        }
        Some(at) => cut_at(line, at),
    }
}

/// Takes what stands before the first space off a line, and the space too, where this is the space's place.
fn cut_at(line: &mut Bytes, at: usize) -> Result<Front, NoMemory>
    requires place { position (λ b. b == 32) line.old ≡ Some at }
    requires bound { at < length line.old }
    ensures parts { IfOk result (λ front. MatchBool front.goes_on
        (slice_split (λ b. b == 32) line.old ≡ front.word ∷ slice_split (λ b. b == 32) line.new)
        (slice_split (λ b. b == 32) line.old ≡ front.word ∷ [])) }
    ensures bare { IfOk result (λ front. front.bare ≡ is_bare front.word) }
    ensures err { OnErr result (line.new ≡ line.old) }
{
    let word = take_front(line, at)?;
    line.advance(1);
    let bare = is_bare(word.as_slice());
    Ok(Front {
        word,
        goes_on: true,
        bare,
    })
}

/// Takes so many bytes off a line. A common word needs no share of the line's bytes.
fn take_front(line: &mut Bytes, at: usize) -> Result<Bytes, NoMemory>
    requires { at ≤ length line.old }
    ensures front { IfOk result (λ word. word ≡ take at line.old) }
    ensures rest { OnOk result (line.new ≡ drop at line.old) }
    ensures err { OnErr result (line.new ≡ line.old) }
{
    match common_word(&line.as_slice()[..at]) {
        None => Ok(line.split_to(at)?),
        Some(word) => {
            line.advance(at);
            Ok(word)
        }
    }
}

fn take_quoted(
    alloc: Global,
    tokens: &mut Vec<Token>,
    line: &mut Bytes,
) -> Result<Option<bool>, NoMemory>
    requires { starts_quoted line.old ≡ true }
    ensures { IfOk result (λ found. MatchOption found (StartsWithNone line.old)
        (λ goes_on. TakesToken line.old line.new tokens.old.items tokens.new.items goes_on)) }
{
    let whole = mem::replace(line, Bytes::new());
    let Some((token, more)) = quoted_token(alloc, whole)? else {
        return Ok(None);
    };
    tokens.push(token)?;
    Ok(Some(leave(line, more)))
}

/// Leaves what follows a token, where something does. Whether something does.
fn leave(line: &mut Bytes, more: Option<Bytes>) -> bool
    ensures { more ≡ left_after result line.new }
{
    match more {
        None => false,
        Some(rest) => {
            *line = rest;
            true
        }
    }
}

fn quoted_token(alloc: Global, line: Bytes) -> Result<Option<(Token, Option<Bytes>)>, NoMemory>
    requires { starts_quoted line ≡ true }
    ensures { IfOk result (λ found. MatchOption found (StartsWithNone line) (λ first. StartsWith line first.0 first.1)) }
{
    let Some((inner, rest)) = between_quotes(line)? else {
        return Ok(None);
    };
    let Some(more) = after_token(rest) else {
        return Ok(None);
    };
    match denoted(alloc, inner)? {
        None => Ok(None),
        Some(word) => Ok(Some((Token { bare: false, word }, more))),
    }
}

/// What stands between the first quote and the one that closes it, and what follows that one.
fn between_quotes(line: Bytes) -> Result<Option<(Bytes, Bytes)>, NoMemory>
    requires { starts_quoted line ≡ true }
    ensures { IfOk result (λ found. MatchOption found (quote_from false 0 (drop 1 line) ≡ None)
        (λ parts. (quote_from false 0 (drop 1 line) ≡ Some (length parts.0)) × (line ≡ 34 ∷ (parts.0 ++ 34 ∷ parts.1)))) }
{
    let mut rest = line;
    rest.advance(1);
    let Some(at) = quote_place(rest.as_slice()) else {
        return Ok(None);
    };
    let inner = rest.split_to(at)?;
    rest.advance(1);
    Ok(Some((inner, rest)))
}

/// What is left after the space that follows a token, where nothing or a space follows it.
fn after_token(rest: Bytes) -> Option<Option<Bytes>>
    ensures { MatchOption result ((more : Option (List ℕ)) → rest ≡ after_token more → ⊥) (λ more. rest ≡ after_token more) }
{
    let mut more = rest;
    if more.is_empty() {
        return Some(None);
    }
    if !starts_with_space(more.as_slice()) {
        return None;
    }
    more.advance(1);
    Some(Some(more))
}

fn starts_with_space(text: &[u8]) -> bool
    ensures { MatchBool result (text.now ≡ 32 ∷ drop 1 text.now) ((more : List ℕ) → text.now ≡ 32 ∷ more → ⊥) }
{
    match text {
        [first, ..] => *first == b' ',
        [] => false,
    }
}

/// Whether the text can stand as a bare word.
pub fn is_bare(text: &[u8]) -> bool
    ensures { result ≡ is_bare text.now }
{
    1 <= text.len() && has_bare_bytes(text)
}

fn has_bare_bytes(text: &[u8]) -> bool
    ensures { result ≡ list_all is_bare_byte text.now }
{
    // no byte ends the loop, so that many are looked at in one step
    let mut bare = true;
    for b in text {
        bare &= is_bare_byte(*b);
    }
    bare
}

fn is_bare_byte(b: u8) -> bool
    ensures { result ≡ is_bare_byte b }
{
    (33 <= b) & (b <= 126) & (b != b'"')
}

/// Takes what stands before the first such byte off a text, and that byte too. Whether there is one; where there is
/// none, all of the text is taken. Nothing is copied. After want of memory the text is as it was.
pub fn cut(text: &mut Bytes, mark: u8) -> Result<(Bytes, bool), NoMemory>
    ensures parts { IfOk result (λ cut. MatchBool cut.1
        (slice_split (λ b. b == mark) text.old ≡ cut.0 ∷ slice_split (λ b. b == mark) text.new)
        (slice_split (λ b. b == mark) text.old ≡ cut.0 ∷ [])) }
    ensures whole { IfOk result (λ cut. MatchBool cut.1 (length cut.0 + 1 + length text.new ≡ length text.old)
        ((cut.0 ≡ text.old) × (text.new ≡ []))) }
    ensures err { OnErr result (text.new ≡ text.old) }
{
    match place_of(text.as_slice(), mark) {
        None => Ok((mem::replace(text, Bytes::new()), false)),
        Some(at) => {
            let front = text.split_to(at)?;
            text.advance(1);
            Ok((front, true))
        }
    }
}

/// The words that scripts repeat most.
const COMMON_WORDS: [&[u8]; 6] = [b"create", b"file", b"folder", b"write", b"delete", b"mark"];

/// The word, where it is one of those that scripts repeat most.
fn common_word(word: &[u8]) -> Option<Bytes>
    ensures { IfSome result (λ common. common ≡ word.now) }
{
    for common in COMMON_WORDS {
        if word == common {
            return Some(Bytes::from_static(common));
        }
    }
    None
}

/// Where the first such byte stands.
#[tactic(auto, using(crate::proofs::Places::first_place))]
pub fn place_of(text: &[u8], mark: u8) -> Option<usize>
    ensures place { result ≡ position (λ b. b == mark) text.now }
    ensures bound { IfSome result (λ at. at < length text.now) }
{
    memchr(mark, text)
}
