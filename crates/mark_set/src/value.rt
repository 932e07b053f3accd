//! Values of attributes, checked and raw.

ghost use Rattle.std.specs.Prelude.{◌≡◌, IfOk, None};
ghost use Rattle.std.specs.Cmp.{partial_equiv_from_equiv};
ghost use Rattle.mark_set.specs.Attributes.{value_of, same_value, same_value-IsEquivalence};
ghost use Rattle.mark_set.specs.Forms.{IsValue};
ghost use Rattle.mark_set.specs.Causes.{value_cause, text_cause as value_text_cause};

use crate::NoMemory;
use crate::error::ValueCause;
use crate::text::{MarkText, RawText};
use std::alloc::Global;

/// The value of an attribute.
#[derive(Clone, Debug, Drop)]
pub enum Value {
    Int(i32),
    Bool(bool),
    Text(MarkText),
}

impl Value {
    /// An equal value.
    pub fn copy(&self) -> Result<Value, NoMemory>
        ensures { IfOk result (λ copy. copy ≡ self.now) }
    {
        self.clone()
    }
}

impl PartialEq for Value {
    ghost eq = { same_value };

    ghost laws = { partial_equiv_from_equiv same_value-IsEquivalence };

    fn eq(&self, other: &Value) -> bool {
        match (self, other) {
            (Value::Int(m), Value::Int(n)) => m == n,
            (Value::Bool(b), Value::Bool(c)) => b == c,
            (Value::Text(s), Value::Text(t)) => s == t,
            _ => false,
        }
    }
}

impl Eq for Value {
    ghost laws = { same_value-IsEquivalence };
}

/// A value as it came from outside: its text may be of any length.
#[derive(Clone, Debug, PartialEq, Eq, Drop)]
pub enum RawValue {
    Int(i32),
    Bool(bool),
    Text(RawText),
}

impl RawValue {
    /// What keeps it from being a value.
    pub(crate) fn cause(&self) -> Option<ValueCause>
        ensures { result ≡ value_cause self.now }
    {
        match self {
            RawValue::Int(_) => None,
            RawValue::Bool(_) => None,
            RawValue::Text(text) => text_cause(text.text()),
        }
    }

    pub(crate) fn value(&self, alloc: Global) -> Result<Value, NoMemory>
        requires { value_cause self.now ≡ None }
        ensures value { IfOk result (λ value. value ≡ value_of self.now) }
        ensures form { IfOk result IsValue }
    {
        match self {
            RawValue::Int(n) => Ok(Value::Int(*n)),
            RawValue::Bool(b) => Ok(Value::Bool(*b)),
            RawValue::Text(text) => Ok(Value::Text(MarkText::copy_of(alloc, text.text())?)),
        }
    }

    pub(crate) fn into_value(self) -> Value
        requires { value_cause self ≡ None }
        ensures value { result ≡ value_of self }
        ensures form { IsValue result }
    {
        match self {
            RawValue::Int(n) => Value::Int(n),
            RawValue::Bool(b) => Value::Bool(b),
            RawValue::Text(text) => Value::Text(MarkText::of(text)),
        }
    }

    /// An equal value.
    pub fn copy(&self) -> Result<RawValue, NoMemory>
        ensures { IfOk result (λ copy. copy ≡ self.now) }
    {
        self.clone()
    }
}

fn text_cause(text: &str) -> Option<ValueCause>
    ensures { result ≡ value_text_cause text.now }
{
    if text.len() < 65_536 {
        None
    } else {
        Some(ValueCause::LongText)
    }
}
