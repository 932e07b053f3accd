//! Whether a value has the shape of a description.
ghost use Rattle.std.specs.Prelude.{◌≡◌, ◌++◌, map, option_map, not, IfOk, OnOk, string_bytes};
ghost use Rattle.std.specs.List.{filter, list_all};
ghost use Rattle.serde_json.specs.View.{view};
ghost use Rattle.proj_desc.specs.Values.{is_object, is_text, is_list, is_list_of_texts};
ghost use Rattle.proj_desc.specs.Inside.Lesser.{least_by_one};
ghost use Rattle.proj_desc.specs.Causes.{is_no_object, is_member, others, strangers, least, has, has_wrong, all_have, wrong_member, shape_cause};

use crate::member::Level;
use crate::value::{is_list_of_texts, is_text, items_at};
use crate::{DescCause, Member};
use bytes::ByteStr;
use res_path::NoMemory;
use serde_json::{Map, Value};
use std::alloc::Global;

/// Why the value hasn't the shape of a description.
pub fn cause(alloc: Global, value: &Value) -> Result<Option<DescCause>, NoMemory>
    ensures { IfOk result (λ cause. cause ≡ shape_cause (view value.now)) }
{
    if is_no_object(value) {
        return Ok(Some(DescCause::NotObject));
    }
    let strangers = strangers(alloc, value)?;
    if let Some(name) = least(strangers.as_slice()) {
        return Ok(Some(DescCause::Member(name.clone()?)));
    }
    Ok(wrong(value).map(DescCause::Wrong))
}

fn is_no_object(value: &Value) -> bool
    ensures { result ≡ is_no_object (view value.now) }
{
    if !is_object(value) {
        return true;
    }
    !are_objects(items_at(value, "commands"))
}

fn are_objects(values: &[Value]) -> bool
    ensures { result ≡ list_all (λ v. is_object (view v)) values.now }
{
    values.iter().all(|v| is_object(v))
}

fn is_object(value: &Value) -> bool
    ensures { result ≡ is_object (view value.now) }
{
    value.is_object()
}

/// The names of the members of another name, of the value and of its commands.
fn strangers(alloc: Global, value: &Value) -> Result<Vec<ByteStr>, NoMemory>
    ensures { IfOk result (λ names. names.items ≡ strangers (view value.now)) }
{
    let mut names = Vec::new(alloc);
    push_others(alloc, Level::Description, value, &mut names)?;
    for command in items_at(value, "commands") {
        push_others(alloc, Level::Command, command, &mut names)?;
    }
    Ok(names)
}

fn push_others(
    alloc: Global,
    level: Level,
    value: &Value,
    names: &mut Vec<ByteStr>,
) -> Result<(), NoMemory>
    ensures { OnOk result (names.new.items ≡ names.old.items ++ others level (view value.now)) }
{
    match value.as_object() {
        Some(members) => push_other_keys(alloc, level, members, names),
        None => Ok(()),
    }
}

fn push_other_keys(
    alloc: Global,
    level: Level,
    members: &Map<String, Value>,
    names: &mut Vec<ByteStr>,
) -> Result<(), NoMemory>
    ensures { OnOk result (names.new.items
        ≡ names.old.items ++ filter (λ k. not (is_member level k)) (map (λ m. string_bytes m.0) members.now.entries)) }
{
    'members: for (key, _) in members.iter() {
        if !level.has_member(key.as_str()) {
            names.push(ByteStr::copy_from_str(alloc, key.as_str())?)?;
        }
    }
    Ok(())
}

/// The least name.
fn least(names: &[ByteStr]) -> Option<&ByteStr>
    ensures { option_map (λ name. name.now) result ≡ least names.now }
{
    least_by_one(names)
}

fn least_by_one(names: &[ByteStr]) -> Option<&ByteStr>
    ensures { option_map (λ name. name.now) result ≡ least_by_one names.now }
{
    let (first, rest) = names.split_first()?;
    let mut best = first;
    for name in rest {
        if name.as_str() < best.as_str() {
            best = name;
        }
    }
    Some(best)
}

/// The first member, by its name, that has another type somewhere, or that a command lacks.
fn wrong(value: &Value) -> Option<Member>
    ensures { result ≡ wrong_member (view value.now) }
{
    if !all_have_text(value, "builder") {
        Some(Member::Builder)
    } else if has_other_than_list(value, "commands") {
        Some(Member::Commands)
    } else if !all_have_texts(value, "inputs") {
        Some(Member::Inputs)
    } else if !all_have_text(value, "output") {
        Some(Member::Output)
    } else if has_other_than_texts(value, "references") {
        Some(Member::References)
    } else {
        None
    }
}

fn all_have_text(value: &Value, name: &str) -> bool
    ensures { result ≡ all_have is_text name.now (view value.now) }
{
    each_has_text(items_at(value, "commands"), name)
}

fn each_has_text(commands: &[Value], name: &str) -> bool
    ensures { result ≡ list_all (λ c. has is_text name.now (view c)) commands.now }
{
    commands.iter().all(|c| has_text(c, name))
}

fn has_text(value: &Value, name: &str) -> bool
    ensures { result ≡ has is_text name.now (view value.now) }
{
    match value.get(name) {
        Some(member) => is_text(member),
        None => false,
    }
}

fn all_have_texts(value: &Value, name: &str) -> bool
    ensures { result ≡ all_have is_list_of_texts name.now (view value.now) }
{
    each_has_texts(items_at(value, "commands"), name)
}

fn each_has_texts(commands: &[Value], name: &str) -> bool
    ensures { result ≡ list_all (λ c. has is_list_of_texts name.now (view c)) commands.now }
{
    commands.iter().all(|c| has_texts(c, name))
}

fn has_texts(value: &Value, name: &str) -> bool
    ensures { result ≡ has is_list_of_texts name.now (view value.now) }
{
    match value.get(name) {
        Some(member) => is_list_of_texts(member),
        None => false,
    }
}

fn has_other_than_list(value: &Value, name: &str) -> bool
    ensures { result ≡ has_wrong is_list name.now (view value.now) }
{
    match value.get(name) {
        Some(member) => !member.is_array(),
        None => false,
    }
}

fn has_other_than_texts(value: &Value, name: &str) -> bool
    ensures { result ≡ has_wrong is_list_of_texts name.now (view value.now) }
{
    match value.get(name) {
        Some(member) => !is_list_of_texts(member),
        None => false,
    }
}
