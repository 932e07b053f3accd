//! Looking into a JSON value.
ghost use Rattle.std.specs.Prelude.{◌≡◌, ◌≢◌, ℕ, List, map, IfOk, IfErr, Some, None};
ghost use Rattle.std.specs.List.{list_all};
ghost use Rattle.serde_json.specs.View.{view};
ghost use Rattle.proj_desc.specs.Values.{value_of, text, items, text_at, items_at, is_list_of_texts, is_text, is_list};
ghost use Rattle.proj_desc.specs.Causes.{desc_cause, Tells};
ghost use Rattle.proj_desc.specs.declared.cause.DescError.TheVariants.{Memory};

use crate::{DescCause, DescError};
use serde_json::Value;
use std::alloc::Global;

/// The value that the text is.
pub fn read(alloc: Global, text: &[u8]) -> Result<Value, DescError>
    ensures ok { IfOk result (λ v. value_of text.now ≡ Some (view v)) }
    ensures bad { IfErr result (λ e. (project : List ℕ) → Tells (desc_cause project text.now) e) }
    ensures none { IfErr result (λ e. e ≢ Memory → value_of text.now ≡ None) }
{
    match Value::from_slice(alloc, text) {
        Ok(value) => Ok(value),
        Err(error) if error.is_memory() => Err(DescError::Memory),
        Err(_) => Err(DescError::Bad(DescCause::NotJson)),
    }
}

/// The text that the value is, empty where it is none.
pub fn text(value: &Value) -> &str
    ensures { result.now ≡ text (view value.now) }
{
    match value.as_str() {
        Some(text) => text,
        None => "",
    }
}

/// The values in the list that the value is, none where it isn't one.
pub fn items(value: &Value) -> &[Value]
    ensures { map view result.now ≡ items (view value.now) }
{
    match value.as_array() {
        Some(list) => list.as_slice(),
        None => &[],
    }
}

/// The text of the member of a name.
pub fn text_at<'a>(value: &'a Value, name: &str) -> &'a str
    ensures { result.now ≡ text_at name.now (view value.now) }
{
    match value.get(name) {
        Some(member) => text(member),
        None => "",
    }
}

/// The values in the list that is the member of a name.
pub fn items_at<'a>(value: &'a Value, name: &str) -> &'a [Value]
    ensures { map view result.now ≡ items_at name.now (view value.now) }
{
    match value.get(name) {
        Some(member) => items(member),
        None => &[],
    }
}

/// Whether the value is a list of texts.
pub fn is_list_of_texts(value: &Value) -> bool
    ensures { result ≡ is_list_of_texts (view value.now) }
{
    value.is_array() && are_texts(items(value))
}

fn are_texts(values: &[Value]) -> bool
    ensures { result ≡ list_all (λ v. is_text (view v)) values.now }
{
    values.iter().all(|v| is_text(v))
}

/// Whether the value is a text.
pub fn is_text(value: &Value) -> bool
    ensures { result ≡ is_text (view value.now) }
{
    value.is_string()
}
