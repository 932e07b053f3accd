//! How attributes are printed.
ghost use Rattle.std.specs.Prelude.{◌≡◌, ◌++◌, OnOk};
ghost use Rattle.std.specs.List.{flat_map};
ghost use Rattle.mark_set.specs.declared.value.RawValue.TheVariants.{Int};
ghost use Rattle.script_words.specs.Words.{Grows};
ghost use Rattle.script_parts.specs.Parts.{attribute_parts, set_parts, value_parts};
ghost use Rattle.script_parts.specs.Inside.Printed.{AreParts, spaced};

use crate::NoMemory;
use crate::part_text::{put_integer, put_next, text_word, truth_word};
use mark_set::{RawText, RawValue};

/// Appends attributes, with a space in front of each word. After want of memory a part of it may have been appended, and
/// what stood there before stays in front.
pub fn put_attributes(out: &mut Vec<u8>, attributes: &[(RawText, RawValue)]) -> Result<(), NoMemory>
    ensures text { OnOk result (out.new.items ≡ out.old.items ++ spaced (flat_map attribute_parts attributes.now)) }
    ensures kept { Grows out.old.items out.new.items }
    ensures parts { OnOk result (AreParts (flat_map attribute_parts attributes.now)) }
{
    for attribute in attributes {
        put_attribute(out, attribute)?;
    }
    Ok(())
}

fn put_attribute(out: &mut Vec<u8>, attribute: &(RawText, RawValue)) -> Result<(), NoMemory>
    ensures text { OnOk result (out.new.items ≡ out.old.items ++ spaced (attribute_parts attribute.now)) }
    ensures kept { Grows out.old.items out.new.items }
    ensures parts { OnOk result (AreParts (attribute_parts attribute.now)) }
{
    put_next(out, text_word(&attribute.0))?;
    put_value(out, &attribute.1)
}

/// Appends what an attribute is set to, with a space in front of each word. After want of memory a part of it may have
/// been appended, and what stood there before stays in front.
pub fn put_set(out: &mut Vec<u8>, value: &Option<RawValue>) -> Result<(), NoMemory>
    ensures text { OnOk result (out.new.items ≡ out.old.items ++ spaced (set_parts value.now)) }
    ensures kept { Grows out.old.items out.new.items }
    ensures parts { OnOk result (AreParts (set_parts value.now)) }
{
    match value {
        None => put_next(out, b"none"),
        Some(value) => put_value(out, value),
    }
}

fn put_value(out: &mut Vec<u8>, value: &RawValue) -> Result<(), NoMemory>
    ensures text { OnOk result (out.new.items ≡ out.old.items ++ spaced (value_parts value.now)) }
    ensures kept { Grows out.old.items out.new.items }
    ensures parts { OnOk result (AreParts (value_parts value.now)) }
{
    match value {
        RawValue::Int(integer) => put_int(out, *integer),
        RawValue::Bool(truth) => {
            put_next(out, b"bool")?;
            put_next(out, truth_word(*truth))
        }
        RawValue::Text(text) => {
            put_next(out, b"text")?;
            put_next(out, text_word(text))
        }
    }
}

fn put_int(out: &mut Vec<u8>, integer: i32) -> Result<(), NoMemory>
    ensures text { OnOk result (out.new.items ≡ out.old.items ++ spaced (value_parts (Int integer))) }
    ensures kept { Grows out.old.items out.new.items }
    ensures parts { AreParts (value_parts (Int integer)) }
{
    put_next(out, b"int")?;
    put_integer(out, integer)?;
    Ok(())
}
