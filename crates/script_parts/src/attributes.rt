//! The attributes that the words of a line name.
ghost use Rattle.std.specs.Prelude.{[], ◌∷◌, IfOk, MatchOption};
ghost use Rattle.std.specs.List.{flat_map};
ghost use Rattle.script_parts.specs.Parts.{attribute_parts, value_parts, set_parts};
ghost use Rattle.script_parts.specs.Inside.Found.{IsFound, FitsFront, FitsNoFront};

use crate::NoMemory;
use crate::parts::{integer_of, is_key, text_of, truth_of};
use mark_set::{RawAttrs, RawText, RawValue};
use script_words::Token;
use std::alloc::Global;

/// The attributes that the tokens name, three each. Costs one pass over the tokens.
pub fn attributes_of(alloc: Global, tokens: &[Token]) -> Result<Option<RawAttrs>, NoMemory>
    ensures { IfOk result (IsFound (flat_map attribute_parts) tokens.now) }
{
    let mut attributes = RawAttrs::empty(alloc);
    let mut rest = tokens;
    while !rest.is_empty() {
        let Some((name, value, more)) = first_attribute(alloc, rest)? else {
            return Ok(None);
        };
        attributes.push(name, value)?;
        rest = more;
    }
    Ok(Some(attributes))
}

/// The attribute that the tokens begin with, and the tokens that are left.
fn first_attribute(
    alloc: Global,
    tokens: &[Token],
) -> Result<Option<(RawText, RawValue, &[Token])>, NoMemory>
    ensures { IfOk result (λ found. MatchOption found (FitsNoFront attribute_parts tokens.now)
        (λ first. FitsFront tokens.now (attribute_parts (first.0, first.1)) first.2.now)) }
{
    let [name, kind, word, rest @ ..] = tokens else {
        return Ok(None);
    };
    let Some(value) = value_of(alloc, kind, word)? else {
        return Ok(None);
    };
    match text_of(alloc, name)? {
        None => Ok(None),
        Some(name) => Ok(Some((name, value, rest))),
    }
}

/// What an attribute is set to, `None` where it is to go.
#[tactic(auto, using(crate::proofs::Fitting::set_some, crate::proofs::Fitting::set_few))]
pub fn set_value_of(alloc: Global, tokens: &[Token]) -> Result<Option<Option<RawValue>>, NoMemory>
    ensures { IfOk result (IsFound set_parts tokens.now) }
{
    match tokens {
        [word] => {
            if is_key(word, b"none") {
                Ok(Some(None))
            } else {
                Ok(None)
            }
        }
        [kind, word] => match value_of(alloc, kind, word)? {
            None => Ok(None),
            Some(value) => Ok(Some(Some(value))),
        },
        _ => Ok(None),
    }
}

/// The value that two tokens name.
fn value_of(alloc: Global, kind: &Token, word: &Token) -> Result<Option<RawValue>, NoMemory>
    ensures { IfOk result (IsFound value_parts (kind.now ∷ word.now ∷ [])) }
{
    if is_key(kind, b"int") {
        let Some(integer) = integer_of(word) else {
            return Ok(None);
        };
        return Ok(Some(RawValue::Int(integer)));
    }
    if is_key(kind, b"bool") {
        let Some(truth) = truth_of(word) else {
            return Ok(None);
        };
        return Ok(Some(RawValue::Bool(truth)));
    }
    if is_key(kind, b"text") {
        let Some(text) = text_of(alloc, word)? else {
            return Ok(None);
        };
        return Ok(Some(RawValue::Text(text)));
    }
    Ok(None)
}
