//! What is refused in a type, a name or a value.

ghost use Rattle.std.specs.Prelude.{◌≡◌};
ghost use Rattle.mark_set.specs.Causes as causes;

use crate::error::ValueCause;
use crate::text::RawText;
use crate::value::RawValue;

/// Of a new marker: the type before the attributes.
pub fn marker_cause(mark_type: &str, attrs: &[(RawText, RawValue)]) -> Option<ValueCause>
    ensures { result ≡ causes.marker_cause mark_type.now attrs.now }
{
    match name_cause(mark_type) {
        Some(cause) => Some(cause),
        None => attributes_cause(attrs),
    }
}

/// Of one attribute's new value, or none.
pub fn change_cause(name: &str, value: &Option<RawValue>) -> Option<ValueCause>
    ensures { result ≡ causes.change_cause name.now value.now }
{
    match name_cause(name) {
        Some(cause) => Some(cause),
        None => match value {
            Some(value) => value.cause(),
            None => None,
        },
    }
}

fn attributes_cause(attrs: &[(RawText, RawValue)]) -> Option<ValueCause>
    ensures { result ≡ causes.attributes_cause attrs.now }
{
    let mut rest = attrs;
    while let Some((first, others)) = rest.split_first() {
        if let Some(cause) = attribute_cause(first) {
            return Some(cause);
        }
        rest = others;
    }
    None
}

fn attribute_cause(attribute: &(RawText, RawValue)) -> Option<ValueCause>
    ensures { result ≡ causes.or_else (causes.name_cause attribute.now.0) (causes.value_cause attribute.now.1) }
{
    match name_cause(attribute.0.text()) {
        Some(cause) => Some(cause),
        None => attribute.1.cause(),
    }
}

fn name_cause(name: &str) -> Option<ValueCause>
    ensures { result ≡ causes.name_cause name.now }
{
    if name.is_empty() {
        Some(ValueCause::EmptyName)
    } else if name.len() > 255 {
        Some(ValueCause::LongName)
    } else {
        None
    }
}
