//! Looking into a JSON value.
ghost use Rattle.std.specs.Prelude.{◌≡◌, map, IfOk, Some};
ghost use Rattle.serde_json.specs.View.{view};
ghost use Rattle.proj_desc.specs.Values.{value_of, text, items, text_at, items_at};

use crate::NoMemory;
use serde_json::Value;
use std::alloc::{AllocError, Global};

/// The value that the text is. The text is one, so that only memory can want.
pub fn value_of(alloc: Global, text: &[u8]) -> Result<Value, NoMemory>
    ensures { IfOk result (λ value. value_of text.now ≡ Some (view value)) }
{
    match Value::from_slice(alloc, text) {
        Ok(value) => Ok(value),
        Err(_) => Err(AllocError),
    }
}

/// The text that the value is, empty where it is none.
pub fn text(value: &Value) -> &str
    ensures { result.now ≡ text (view value.now) }
{
    match value.as_str() {
        Some(text) => text,
        None => "",
    }
}

fn items(value: &Value) -> &[Value]
    ensures { map view result.now ≡ items (view value.now) }
{
    match value.as_array() {
        Some(list) => list.as_slice(),
        None => &[],
    }
}

/// The text of the member of a name.
pub fn text_at<'a>(value: &'a Value, name: &str) -> &'a str
    ensures { result.now ≡ text_at name.now (view value.now) }
{
    match value.get(name) {
        Some(member) => text(member),
        None => "",
    }
}

/// The values in the list that is the member of a name.
pub fn items_at<'a>(value: &'a Value, name: &str) -> &'a [Value]
    ensures { map view result.now ≡ items_at name.now (view value.now) }
{
    match value.get(name) {
        Some(member) => items(member),
        None => &[],
    }
}
