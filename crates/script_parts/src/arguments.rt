//! What the words behind a verb stand for, all of them.
#![tactic(auto, using(crate::proofs::Fitting::fit_size))]

ghost use Rattle.std.specs.Prelude.{[], ◌∷◌, IfOk};
ghost use Rattle.std.specs.List.{flat_map};
ghost use Rattle.script_parts.specs.Parts.{keyword, a_name, a_number, a_path, a_text, a_word, attribute_parts, depth_word, scope_parts, set_parts, switch_word};
ghost use Rattle.script_parts.specs.Inside.Found.{IsFound, IsPairFound, IsTripleFound};

use crate::NoMemory;
use crate::attributes::{attributes_of, set_value_of};
use crate::parts::{
    depth_of, number_of, path_of, switch_of, take_name, take_path, take_project, take_word, text_of,
};
use bytes::Bytes;
use mark_set::{RawAttrs, RawText, RawValue};
use res_path::{Name, Path};
use script_words::Token;
use std::alloc::Global;
use ws_elem::Depth;

/// A path, and nothing else.
pub fn path_alone(tokens: &mut [Token]) -> Option<Path>
    ensures { IsFound (λ path. a_path path ∷ []) tokens.old result }
{
    match tokens {
        [place] => take_path(place),
        _ => None,
    }
}

/// A name, and nothing else.
pub fn name_alone(tokens: &mut [Token]) -> Option<Name>
    ensures { IsFound (λ name. a_name name ∷ []) tokens.old result }
{
    match tokens {
        [name] => take_name(name),
        _ => None,
    }
}

/// The path of a project, of which the name is given, or nothing.
pub fn scope_alone(tokens: &mut [Token]) -> Option<Option<Name>>
    ensures { IsFound scope_parts tokens.old result }
{
    match tokens {
        [] => Some(None),
        [place] => match take_project(place) {
            None => None,
            Some(name) => Some(Some(name)),
        },
        _ => None,
    }
}

/// A path and any word.
pub fn path_and_bytes(tokens: &mut [Token]) -> Option<(Path, Bytes)>
    ensures { IsPairFound (λ path bytes. a_path path ∷ a_word bytes ∷ []) tokens.old result }
{
    let [place, bytes] = tokens else {
        return None;
    };
    match take_path(place) {
        None => None,
        Some(path) => Some((path, take_word(bytes))),
    }
}

/// Two paths.
pub fn two_paths(tokens: &mut [Token]) -> Option<(Path, Path)>
    ensures { IsPairFound (λ path to. a_path path ∷ a_path to ∷ []) tokens.old result }
{
    match tokens {
        [place, other] => take_path(place).zip(take_path(other)),
        _ => None,
    }
}

/// A path, and `on` or `off`.
pub fn path_and_switch(tokens: &mut [Token]) -> Option<(Path, bool)>
    ensures { IsPairFound (λ path derived. a_path path ∷ keyword (switch_word derived) ∷ []) tokens.old result }
{
    let [place, switch] = tokens else {
        return None;
    };
    let Some(derived) = switch_of(switch) else {
        return None;
    };
    match take_path(place) {
        None => None,
        Some(path) => Some((path, derived)),
    }
}

/// A path and a marker's id.
pub fn path_and_id(tokens: &mut [Token]) -> Option<(Path, u64)>
    ensures { IsPairFound (λ path id. a_path path ∷ a_number 64 0 id ∷ []) tokens.old result }
{
    let [place, id] = tokens else {
        return None;
    };
    let Some(id) = number_of(id) else {
        return None;
    };
    match take_path(place) {
        None => None,
        Some(path) => Some((path, id)),
    }
}

/// A path and a name.
pub fn path_and_name(tokens: &mut [Token]) -> Option<(Path, Name)>
    ensures { IsPairFound (λ path name. a_path path ∷ a_name name ∷ []) tokens.old result }
{
    match tokens {
        [place, name] => take_path(place).zip(take_name(name)),
        _ => None,
    }
}

/// A path, a name and any word.
pub fn path_name_bytes(tokens: &mut [Token]) -> Option<(Path, Name, Bytes)>
    ensures { IsTripleFound (λ path name bytes. a_path path ∷ a_name name ∷ a_word bytes ∷ []) tokens.old result }
{
    let [place, name, bytes] = tokens else {
        return None;
    };
    match take_path(place).zip(take_name(name)) {
        None => None,
        Some((path, name)) => Some((path, name, take_word(bytes))),
    }
}

/// A path, a name and a depth.
pub fn path_name_depth(tokens: &mut [Token]) -> Option<(Path, Name, Depth)>
    ensures { IsTripleFound (λ path name depth. a_path path ∷ a_name name ∷ keyword (depth_word depth) ∷ []) tokens.old result }
{
    let [place, name, depth] = tokens else {
        return None;
    };
    let Some(depth) = depth_of(depth) else {
        return None;
    };
    match take_path(place).zip(take_name(name)) {
        None => None,
        Some((path, name)) => Some((path, name, depth)),
    }
}

/// A path, a marker's type and a depth.
pub fn path_kind_depth(
    alloc: Global,
    tokens: &[Token],
) -> Result<Option<(Path, RawText, Depth)>, NoMemory>
    ensures { IfOk result (IsTripleFound (λ path kind depth. a_path path ∷ a_text kind ∷ keyword (depth_word depth) ∷ []) tokens.now) }
{
    let [place, kind, depth] = tokens else {
        return Ok(None);
    };
    let Some(kind) = text_of(alloc, kind)? else {
        return Ok(None);
    };
    let Some(depth) = depth_of(depth) else {
        return Ok(None);
    };
    match path_of(place)? {
        None => Ok(None),
        Some(path) => Ok(Some((path, kind, depth))),
    }
}

/// A path, a marker's type and attributes.
pub fn path_kind_attributes(
    alloc: Global,
    tokens: &[Token],
) -> Result<Option<(Path, RawText, RawAttrs)>, NoMemory>
    ensures { IfOk result (IsTripleFound (λ path kind attributes. a_path path ∷ a_text kind ∷ flat_map attribute_parts attributes) tokens.now) }
{
    let [place, kind, attributes @ ..] = tokens else {
        return Ok(None);
    };
    let Some(path) = path_of(place)? else {
        return Ok(None);
    };
    let Some(kind) = text_of(alloc, kind)? else {
        return Ok(None);
    };
    match attributes_of(alloc, attributes)? {
        None => Ok(None),
        Some(attributes) => Ok(Some((path, kind, attributes))),
    }
}

/// A path, a marker's id, and what an attribute is set to.
pub fn path_id_change(
    alloc: Global,
    tokens: &[Token],
) -> Result<Option<(Path, u64, (RawText, Option<RawValue>))>, NoMemory>
    ensures { IfOk result (IsTripleFound (λ path id change. a_path path ∷ a_number 64 0 id ∷ a_text change.0 ∷ set_parts change.1) tokens.now) }
{
    let [place, id, change @ ..] = tokens else {
        return Ok(None);
    };
    let Some(id) = number_of(id) else {
        return Ok(None);
    };
    let Some(path) = path_of(place)? else {
        return Ok(None);
    };
    match name_and_value(alloc, change)? {
        None => Ok(None),
        Some(change) => Ok(Some((path, id, change))),
    }
}

/// An attribute's name, and what it is set to.
fn name_and_value(
    alloc: Global,
    tokens: &[Token],
) -> Result<Option<(RawText, Option<RawValue>)>, NoMemory>
    ensures { IfOk result (IsPairFound (λ name value. a_text name ∷ set_parts value) tokens.now) }
{
    let [name, value @ ..] = tokens else {
        return Ok(None);
    };
    let Some(name) = text_of(alloc, name)? else {
        return Ok(None);
    };
    match set_value_of(alloc, value)? {
        None => Ok(None),
        Some(value) => Ok(Some((name, value))),
    }
}
