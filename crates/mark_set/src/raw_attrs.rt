//! Attributes as they came from outside.

ghost use Rattle.std.specs.Prelude.{◌≡◌, [], ◌∷◌, ◌++◌, IfOk, OnOk, OnErr, length};

use crate::NoMemory;
use crate::text::RawText;
use crate::value::RawValue;
use std::alloc::Global;
use std::marker::Model;

/// Names with their values, as they came from outside and in that order; of two of one name the last counts. A contract
/// sees the list. It is made from a vector and gives it back without taking memory.
#[derive(Debug, Drop)]
pub struct RawAttrs {
    attrs: Vec<(RawText, RawValue)>,
}

impl Model for RawAttrs {
    ghost use Rattle.std.specs.Prelude.{List, ℕ};
    ghost use Rattle.std.specs.Coded.{coded_list, coded×, coded_ℕ};
    ghost use Rattle.mark_set.specs.declared.value.RawValue.{RawValue};
    ghost use Rattle.mark_set.specs.contracts.value.RawValue as value;

    ghost Value = { List (List ℕ × RawValue) };

    ghost coded = { coded_list (coded× (coded_list coded_ℕ) value.the_row.coded) };

    ghost view = { λ a. a.attrs.items };
}

impl RawAttrs {
    /// No attributes. Takes no memory.
    pub fn empty(alloc: Global) -> RawAttrs
        ensures { result ≡ [] }
    {
        RawAttrs {
            attrs: Vec::new(alloc),
        }
    }

    /// These names with their values, in their order.
    pub fn of(attrs: Vec<(RawText, RawValue)>) -> RawAttrs
        ensures { result ≡ attrs.items }
    {
        RawAttrs { attrs }
    }

    /// The vector given back.
    pub fn into_vec(self) -> Vec<(RawText, RawValue)>
        ensures { result.items ≡ self }
    {
        let RawAttrs { attrs } = self;
        attrs
    }

    /// The names with their values, in their order.
    pub fn as_slice(&self) -> &[(RawText, RawValue)]
        ensures { result.now ≡ self.now }
    {
        self.attrs.as_slice()
    }

    /// How many there are.
    pub fn len(&self) -> usize
        ensures { result ≡ length self.now }
    {
        self.attrs.len()
    }

    /// Adds a name with its value as the last.
    pub fn push(&mut self, name: RawText, value: RawValue) -> Result<(), NoMemory>
        ensures ok { OnOk result (self.new ≡ self.old ++ (name, value) ∷ []) }
        ensures err { OnErr result (self.new ≡ self.old) }
    {
        self.attrs.push((name, value))?;
        Ok(())
    }

    /// Equal attributes.
    pub fn copy(&self) -> Result<RawAttrs, NoMemory>
        ensures { IfOk result (λ copy. copy ≡ self.now) }
    {
        Ok(RawAttrs {
            attrs: self.attrs.clone()?,
        })
    }
}

impl Clone for RawAttrs {
    ghost is_clone = { λ attrs copy. copy ≡ attrs };

    fn clone(&self) -> Result<RawAttrs, NoMemory> {
        self.copy()
    }
}
