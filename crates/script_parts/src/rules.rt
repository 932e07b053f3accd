//! The rule that the words of a line name.
ghost use Rattle.std.specs.Prelude.{◌<◌, [], ◌∷◌, length, codes, IfOk, MatchOption};
ghost use Rattle.script_parts.specs.Parts.{keyword, FitsPart, atom_parts};
ghost use Rattle.script_parts.specs.Inside.Found.{IsFound, IsRuleFound, FitsFront, FitsNoFront};

use crate::parts::{is_key, name_of, number_from, path_of};
use crate::{NoMemory, ScriptRule};
use sched_rules::{Rule, WsAtom};
use script_words::Token;
use std::alloc::Global;

/// The rule that the tokens name: `null`, or one atom or more, of which those that others contain are dropped. Each
/// atom is tested against the rule of those before it.
pub fn rule_of(alloc: Global, tokens: &[Token]) -> Result<Option<ScriptRule>, NoMemory>
    ensures { IfOk result (IsRuleFound tokens.now) }
{
    match tokens {
        [] => Ok(None),
        [word] => Ok(null_rule(alloc, word)),
        _ => rule_of_atoms(alloc, tokens),
    }
}

fn null_rule(alloc: Global, word: &Token) -> Option<ScriptRule>
    ensures { IsRuleFound (word.now ∷ []) result }
{
    if is_key(word, b"null") {
        Some(ScriptRule::null(alloc))
    } else {
        None
    }
}

fn rule_of_atoms(alloc: Global, tokens: &[Token]) -> Result<Option<ScriptRule>, NoMemory>
    requires { 1 < length tokens.now }
    ensures { IfOk result (IsRuleFound tokens.now) }
{
    let mut rule = Rule::null(alloc);
    let mut rest = tokens;
    while !rest.is_empty() {
        let Some((atom, more)) = first_atom(rest)? else {
            return Ok(None);
        };
        rule = Rule::combine(alloc, &rule, &Rule::of(alloc, atom)?)?;
        rest = more;
    }
    Ok(Some(ScriptRule::named(rule)))
}

/// The atom that the tokens begin with, and the tokens that are left.
fn first_atom(tokens: &[Token]) -> Result<Option<(WsAtom, &[Token])>, NoMemory>
    ensures { IfOk result (λ found. MatchOption found (FitsNoFront atom_parts tokens.now)
        (λ first. FitsFront tokens.now (atom_parts first.0) first.1.now)) }
{
    let [kind, place, rest @ ..] = tokens else {
        return Ok(None);
    };
    if is_key(kind, b"lines") {
        return lines_atom(kind, place, rest);
    }
    match short_atom(kind, place)? {
        None => Ok(None),
        Some(atom) => Ok(Some((atom, rest))),
    }
}

/// The atom of two words that these are.
fn short_atom(kind: &Token, place: &Token) -> Result<Option<WsAtom>, NoMemory>
    ensures { IfOk result (IsFound atom_parts (kind.now ∷ place.now ∷ [])) }
{
    if is_key(kind, b"path") {
        let Some(path) = path_of(place)? else {
            return Ok(None);
        };
        return Ok(Some(WsAtom::Path(path)));
    }
    if is_key(kind, b"mutex") {
        let Some(name) = name_of(place)? else {
            return Ok(None);
        };
        return Ok(Some(WsAtom::Mutex(name)));
    }
    Ok(None)
}

/// The range of lines that the tokens begin with, and the tokens that are left.
fn lines_atom<'a>(
    kind: &Token,
    place: &Token,
    tokens: &'a [Token],
) -> Result<Option<(WsAtom, &'a [Token])>, NoMemory>
    requires { FitsPart kind.now (keyword (codes "lines")) }
    ensures { IfOk result (λ found. MatchOption found (FitsNoFront atom_parts (kind.now ∷ place.now ∷ tokens.now))
        (λ first. FitsFront (kind.now ∷ place.now ∷ tokens.now) (atom_parts first.0) first.1.now)) }
{
    let [first, last, rest @ ..] = tokens else {
        return Ok(None);
    };
    let Some(from) = number_from(first, 0) else {
        return Ok(None);
    };
    let Some(to) = number_from(last, from) else {
        return Ok(None);
    };
    match path_of(place)? {
        None => Ok(None),
        Some(file) => Ok(Some((WsAtom::Lines { file, from, to }, rest))),
    }
}
