//! The lines of a text, one after another.
ghost use Rattle.std.specs.Prelude.{◌≡◌, ◌+◌, ◌<◌, ◌^◌, ℕ, [], ◌∷◌, length, false, Err, IfOk, OnOk, OnErr, IsTrue, ◌↔◌};
ghost use Rattle.script_words.specs.Lines.{lines_of, unskipped};
ghost use Rattle.script_words.specs.Inside.Passing.{starts_skipped, TakesLine, HasNoLine, next_number, PassesLine, Skips};

use crate::words::{Token, cut, place_of, words_of};
use crate::{NoMemory, ScriptError};
use bytes::Bytes;
use std::alloc::Global;

/// The lines of a text that are still to be read.
#[derive(Drop)]
pub struct Reader {
    /// What is left of the text.
    pub rest: Bytes,
    /// How many lines were read, skipped ones too.
    pub number: u64,
    ghost fits: { number + length rest < 2 ^ 63 },
}

impl Reader {
    ghost use Rattle.script_words.specs.Inside.Counts.{Advances};

    /// The lines of this text. It takes no memory.
    pub fn new(text: Bytes) -> Reader
        ensures rest { result.rest ≡ text }
        ensures number { result.number ≡ 0 }
    {
        let _ = text.len();
        Reader {
            rest: text,
            number: 0,
        }
    }

    /// Whether no line is left but skipped ones. Passes those that come first. It takes no memory.
    pub fn is_at_end(&mut self) -> bool
        ensures end { IsTrue result ↔ (unskipped (lines_of self.old.rest) ≡ []) }
        ensures rest { Skips self.old.rest self.new.rest }
        ensures count { Advances self.old self.new }
        ensures next { next_number self.new.number (lines_of self.new.rest) ≡ next_number self.old.number (lines_of self.old.rest) }
    {
        self.skip();
        self.rest.is_empty()
    }

    /// Reads the tokens of the next line that isn't skipped, in place of those that were there. Refused with the number
    /// of that line where it spells none, and with one past the last where only skipped lines are left. Costs one pass
    /// over the lines that are read. After want of memory nothing is said of the reader and the tokens.
    pub fn line(&mut self, alloc: Global, tokens: &mut Vec<Token>) -> Result<(), ScriptError>
        ensures line { OnOk result (TakesLine (lines_of self.old.rest) tokens.new.items (lines_of self.new.rest)) }
        ensures count { OnOk result (Advances self.old self.new) }
        ensures number { OnOk result (self.new.number ≡ next_number self.old.number (lines_of self.old.rest)) }
        ensures bad { (number : ℕ) → result ≡ Err (ScriptError.BadLine number) → HasNoLine (lines_of self.old.rest) }
        ensures named { (number : ℕ) → result ≡ Err (ScriptError.BadLine number) → number ≡ next_number self.old.number (lines_of self.old.rest) }
    {
        self.skip();
        if self.rest.is_empty() {
            return Err(ScriptError::BadLine(self.number + 1));
        }
        let line = take_line(&mut self.rest)?;
        self.number += 1;
        if !words_of(alloc, line, tokens)? {
            return Err(ScriptError::BadLine(self.number));
        }
        Ok(())
    }

    /// Passes the skipped lines that come first.
    fn skip(&mut self)
        ensures rest { Skips self.old.rest self.new.rest }
        ensures count { Advances self.old self.new }
        ensures next { next_number self.new.number (lines_of self.new.rest) ≡ next_number self.old.number (lines_of self.old.rest) }
        ensures first { starts_skipped self.new.rest ≡ false }
    {
        while starts_skipped(self.rest.as_slice()) {
            pass_line(&mut self.rest);
            self.number += 1;
        }
    }
}

/// Whether the first line of a text is skipped: it is empty, or begins with `#`.
fn starts_skipped(text: &[u8]) -> bool
    ensures { result ≡ starts_skipped text.now }
{
    match text {
        [first, ..] => *first == b'\n' || *first == b'#',
        [] => false,
    }
}

/// Passes the first line of a text.
fn pass_line(text: &mut Bytes)
    requires { 0 < length text.old }
    ensures line { PassesLine text.old text.new }
    ensures shorter { length text.new < length text.old }
{
    match place_of(text.as_slice(), b'\n') {
        None => text.clear(),
        Some(at) => text.advance(at + 1),
    }
}

/// Takes the first line off a text. After want of memory the text is as it was.
fn take_line(text: &mut Bytes) -> Result<Bytes, NoMemory>
    requires { 0 < length text.old }
    ensures line { IfOk result (λ line. lines_of text.old ≡ line ∷ lines_of text.new) }
    ensures shorter { OnOk result (length text.new < length text.old) }
    ensures err { OnErr result (text.new ≡ text.old) }
{
    let (line, _) = cut(text, b'\n')?;
    Ok(line)
}
