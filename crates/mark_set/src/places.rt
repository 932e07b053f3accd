//! Lists of names with their values, in the order of the names' bytes.

ghost use Rattle.std.specs.Prelude.{◌≡◌, ◌<◌, ◌≤◌, not, length, IfOk, IfErr, OnOk, OnErr, option_copied, slice_set};
ghost use Rattle.std.specs.FinMap.{find, put as put_entry};
ghost use Rattle.std.specs.FinMap.Entries.{where_key};
ghost use Rattle.std.specs.List.{insert};
ghost use Rattle.std.specs.Ordering.{eq_by_cmp};
ghost use Rattle.mark_set.specs.Attributes.{text_cmp};
ghost use Rattle.mark_set.specs.declared.value.Value.{Value as MarkValue};

use crate::NoMemory;
use crate::text::MarkText;
use crate::value::Value;
use std::cmp::Ordering;

/// The value of the name with these bytes.
pub fn found<'a>(values: &'a [(MarkText, Value)], name: &[u8]) -> Option<&'a Value>
    ensures { option_copied result ≡ find text_cmp name.now values.now }
{
    let mut rest = values;
    while let Some((first, others)) = rest.split_first() {
        if is_at(name, first) {
            return Some(&first.1);
        }
        rest = others;
    }
    None
}

fn is_at(name: &[u8], attribute: &(MarkText, Value)) -> bool
    ensures { result ≡ eq_by_cmp text_cmp name.now attribute.now.0 }
{
    name.cmp(attribute.0.text().as_bytes()).is_eq()
}

/// Gives the name this value.
pub fn put(
    values: &mut Vec<(MarkText, Value)>,
    name: MarkText,
    value: Value,
) -> Result<(), NoMemory>
    ensures ok { OnOk result (values.new.items ≡ put_entry text_cmp name value values.old.items) }
    ensures err { OnErr result (values.new.items ≡ values.old.items) }
{
    match place_of(values.as_slice(), &name) {
        Ok(at) => {
            values[at] = (name, value);
            Ok(())
        }
        Err(at) => {
            values.insert(at, (name, value))?;
            Ok(())
        }
    }
}

/// Where the name is, or else where it would be put.
fn place_of(values: &[(MarkText, Value)], name: &MarkText) -> Result<usize, usize>
    ensures there { IfOk result (λ at. (at < length values.now)
        × ((value : MarkValue) → put_entry text_cmp name.now value values.now ≡ slice_set values.now at (name.now, value))) }
    ensures absent { IfErr result (λ at. (at ≤ length values.now)
        × ((value : MarkValue) → put_entry text_cmp name.now value values.now ≡ insert values.now at (name.now, value))) }
{
    let mut at = 0;
    let mut rest = values;
    while let Some((first, others)) = rest.split_first() {
        match name.cmp(&first.0) {
            Ordering::Less => return Err(at),
            Ordering::Equal => return Ok(at),
            Ordering::Greater => {
                at += 1;
                rest = others;
            }
        }
    }
    Err(at)
}

/// Takes the name away.
pub fn take(values: &mut Vec<(MarkText, Value)>, name: &MarkText)
    ensures { values.new.items ≡ where_key text_cmp (λ other. not (eq_by_cmp text_cmp name.now other)) values.old.items }
{
    let name = name.text().as_bytes();
    values.retain(|attribute| !is_at(name, attribute));
}
