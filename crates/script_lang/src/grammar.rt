//! The script that a text spells.
ghost use Rattle.std.specs.Prelude.{◌≡◌, ℕ, Err, IfOk, OnOk, MatchResult, IsTrue, ◌↔◌};
ghost use Rattle.script_words.specs.declared.error.ScriptError.TheVariants.{BadLine, Memory};
ghost use Rattle.script_lang.specs.declared.script.Script.{Script};
ghost use Rattle.script_lang.specs.declared.progress.Progress.{Progress};
ghost use Rattle.script_words.specs.Lines.{lines_of};
ghost use Rattle.script_words.specs.Inside.Passing.{next_number, Skips};
ghost use Rattle.script_lang.specs.Scripts.{IsScript, IsFirstBad};
ghost use Rattle.script_words.specs.Inside.Counts.{Advances};
ghost use Rattle.script_lang.specs.Inside.Reading.{SaysNext, Steps, IsStuck, IsWhole};

use crate::ScriptError;
use crate::command::line_of;
use crate::line::Line;
use crate::progress::Progress;
use crate::script::Script;
use bytes::Bytes;
use script_words::{Reader, Token};
use std::alloc::Global;

/// The script that the text spells. Refused with the number of the first bad line where it spells none: the first
/// one at which no continuation could make the lines so far the beginning of a script; one past the last where the
/// text ends too early. A job whose name another of its phase has is bad at its own line. Lines are counted from 1, also
/// those that are skipped.
///
/// The words share the text's bytes but for those with escapes, for a few common ones before a space, which take no
/// memory, and for the texts of markers, which are copied. Costs one pass over the text, for each job two look-ups among
/// the ordered names of its phase, and for each atom of a rule one pass over the rule of the atoms before it.
pub fn parse_shared(alloc: Global, text: Bytes) -> Result<Script, ScriptError>
    ensures found { IfOk result (IsScript text) }
    ensures all { (script : Script) → IsScript text script → MatchResult result (λ found. found ≡ script) (λ e. e ≡ Memory) }
    ensures bad { (number : ℕ) → result ≡ Err (BadLine number) → IsFirstBad text number }
{
    let mut reader = Reader::new(text);
    let mut tokens = Vec::new(alloc);
    let mut progress = Progress::new(alloc);
    while !is_whole(&mut reader, &progress) {
        step(&mut reader, alloc, &mut tokens, &mut progress)?;
    }
    Ok(Script {
        phases: progress.phases,
    })
}

/// The script that the text spells, as `parse_shared` gives it, and refused as there. The text is copied once, and the
/// script shares the copy.
pub fn parse(alloc: Global, text: &[u8]) -> Result<Script, ScriptError>
    ensures found { IfOk result (IsScript text.now) }
    ensures all { (script : Script) → IsScript text.now script → MatchResult result (λ found. found ≡ script) (λ e. e ≡ Memory) }
    ensures bad { (number : ℕ) → result ≡ Err (BadLine number) → IsFirstBad text.now number }
{
    let shared = Bytes::copy_from_slice(alloc, text)?;
    parse_shared(alloc, shared)
}

/// Whether nothing is left to read but skipped lines, and no phase is open. Passes skipped lines.
fn is_whole(reader: &mut Reader, progress: &Progress) -> bool
    ensures whole { IsTrue result ↔ IsWhole (lines_of reader.new.rest) progress.now }
    ensures rest { Skips reader.old.rest reader.new.rest }
    ensures count { Advances reader.old reader.new }
{
    let at_end = reader.is_at_end();
    at_end && progress.is_outside()
}

/// Reads one more line that isn't skipped. Its tokens are put in place of those that were there.
fn step(
    reader: &mut Reader,
    alloc: Global,
    tokens: &mut Vec<Token>,
    progress: &mut Progress,
) -> Result<(), ScriptError>
    ensures read { OnOk result (Steps (lines_of reader.old.rest) (lines_of reader.new.rest) progress.old progress.new) }
    ensures count { OnOk result (Advances reader.old reader.new) }
    ensures bad { (number : ℕ) → result ≡ Err (BadLine number) → IsStuck reader.old.number (lines_of reader.old.rest) progress.old number }
{
    let line = next_line(reader, alloc, tokens)?;
    if progress.advance(alloc, line)? {
        Ok(())
    } else {
        Err(ScriptError::BadLine(reader.number))
    }
}

/// What the next line that isn't skipped says. Its tokens are put in place of those that were there.
fn next_line(
    reader: &mut Reader,
    alloc: Global,
    tokens: &mut Vec<Token>,
) -> Result<Line, ScriptError>
    ensures read { IfOk result (SaysNext (lines_of reader.old.rest) (lines_of reader.new.rest)) }
    ensures count { OnOk result (Advances reader.old reader.new) }
    ensures at { OnOk result (reader.new.number ≡ next_number reader.old.number (lines_of reader.old.rest)) }
    ensures bad { (number : ℕ) → result ≡ Err (BadLine number) → (progress : Progress) → IsStuck reader.old.number (lines_of reader.old.rest) progress number }
{
    reader.line(alloc, tokens)?;
    let Some(line) = line_of(alloc, tokens.as_mut_slice())? else {
        return Err(ScriptError::BadLine(reader.number));
    };
    Ok(line)
}
