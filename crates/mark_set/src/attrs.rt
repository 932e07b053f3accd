//! The attributes of one marker.

ghost use Rattle.std.specs.Prelude.{◌≡◌, ◌↔◌, IfOk, IsTrue, OnOk, OnErr, None, option_copied};
ghost use Rattle.std.specs.Cmp.{partial_equiv_from_equiv};
ghost use Rattle.std.specs.FinMap as map;
ghost use Rattle.mark_set.specs.Attributes.{AreAttributes, InNameOrder, value_of, with_values, same_attributes, same_attributes-IsEquivalence};
ghost use Rattle.mark_set.specs.Causes.{attributes_cause, name_cause, or_else, value_cause};

use crate::attr_iter::AttrIter;
use crate::text::{MarkText, RawText};
use crate::value::{RawValue, Value};
use crate::{NoMemory, places};
use std::alloc::Global;
use std::marker::Model;

/// Values by name, in the order of the names' bytes. A contract sees the finite map. It is made from a vector and gives it
/// back without taking memory. There are few, so a name is looked for from the first one on.
#[derive(Debug, Drop)]
pub struct Attrs {
    values: Vec<(MarkText, Value)>,
}

impl Model for Attrs {
    ghost use Rattle.std.specs.FinMap as map;
    ghost use Rattle.std.specs.Coded.{coded_ℕ, coded_list};
    ghost use Rattle.mark_set.specs.Attributes.{Attributes, InNameOrder};
    ghost use Rattle.mark_set.specs.contracts.value.Value as value;

    ghost Value = { Attributes };

    ghost coded = { map.code (coded_list coded_ℕ) value.the_row.coded };

    ghost view = { λ attrs. map.from_sorted attrs.values.items };

    ghost invariant = { λ attrs. InNameOrder attrs.values.items };
}

impl Attrs {
    /// No attributes. Takes no memory.
    pub fn empty(alloc: Global) -> Attrs
        ensures { result ≡ map.empty }
    {
        Attrs {
            values: Vec::new(alloc),
        }
    }

    /// These values by their names, which are in the order of their bytes, none twice.
    pub fn of(values: Vec<(MarkText, Value)>) -> Attrs
        requires { InNameOrder values.items }
        ensures { map.entries result ≡ values.items }
    {
        Attrs { values }
    }

    /// The names with their values, in the order of the names' bytes.
    pub fn into_vec(self) -> Vec<(MarkText, Value)>
        ensures { result.items ≡ map.entries self }
    {
        let Attrs { values } = self;
        values
    }

    /// The value of a name.
    pub fn get(&self, name: &MarkText) -> Option<&Value>
        ensures { option_copied result ≡ map.get self.now name.now }
    {
        self.named(name.text())
    }

    /// The value of the name that is this text.
    pub(crate) fn named(&self, name: &str) -> Option<&Value>
        ensures { option_copied result ≡ map.get self.now name.now }
    {
        places::found(self.values.as_slice(), name.as_bytes())
    }

    /// How many there are.
    pub fn len(&self) -> usize
        ensures { result ≡ map.len self.now }
    {
        self.values.as_slice().len()
    }

    /// Whether there are none.
    pub fn is_empty(&self) -> bool
        ensures { IsTrue result ↔ (self.now ≡ map.empty) }
    {
        self.len() == 0
    }

    /// The names with their values, in the order of the names' bytes.
    pub fn iter(&self) -> AttrIter<'_>
        ensures { result ≡ map.entries self.now }
    {
        AttrIter {
            rest: self.values.as_slice(),
        }
    }

    pub(crate) fn put(&mut self, name: MarkText, value: Value) -> Result<(), NoMemory>
        ensures ok { OnOk result (self.new ≡ map.insert self.old name value) }
        ensures err { OnErr result (self.new ≡ self.old) }
    {
        places::put(&mut self.values, name, value)
    }

    pub(crate) fn take(&mut self, name: &MarkText)
        ensures { self.new ≡ map.remove self.old name.now }
    {
        places::take(&mut self.values, name);
    }

    fn is_same(&self, other: &Attrs) -> bool
        ensures { IsTrue result ↔ (self.now ≡ other.now) }
    {
        self.values == other.values
    }

    /// Equal attributes.
    pub fn copy(&self) -> Result<Attrs, NoMemory>
        ensures { IfOk result (λ copy. copy ≡ self.now) }
    {
        Ok(Attrs {
            values: self.values.clone()?,
        })
    }
}

impl Clone for Attrs {
    ghost is_clone = { λ attrs copy. copy ≡ attrs };

    fn clone(&self) -> Result<Attrs, NoMemory> {
        self.copy()
    }
}

/// Attributes are equal where the same names have equal values.
impl PartialEq for Attrs {
    ghost eq = { same_attributes };

    ghost laws = { partial_equiv_from_equiv same_attributes-IsEquivalence };

    fn eq(&self, other: &Attrs) -> bool
        ensures value { result ≡ same_attributes self.now other.now }
        ensures same { IsTrue result ↔ (self.now ≡ other.now) }
    {
        self.is_same(other)
    }
}

impl Eq for Attrs {
    ghost laws = { same_attributes-IsEquivalence };
}

/// Gives each of these its value in turn, so that of two of one name the last counts. After an error some have theirs.
pub fn put_values(
    alloc: Global,
    attrs: &mut Attrs,
    raw: &[(RawText, RawValue)],
) -> Result<(), NoMemory>
    requires { attributes_cause raw.now ≡ None }
    ensures ok { OnOk result (attrs.new ≡ with_values attrs.old raw.now) }
    ensures form { AreAttributes attrs.old → AreAttributes attrs.new }
{
    let mut rest = raw;
    while let Some((first, others)) = rest.split_first() {
        put_value(alloc, attrs, first)?;
        rest = others;
    }
    Ok(())
}

fn put_value(alloc: Global, attrs: &mut Attrs, first: &(RawText, RawValue)) -> Result<(), NoMemory>
    requires { or_else (name_cause first.now.0) (value_cause first.now.1) ≡ None }
    ensures ok { OnOk result (attrs.new ≡ map.insert attrs.old first.now.0 (value_of first.now.1)) }
    ensures err { OnErr result (attrs.new ≡ attrs.old) }
    ensures form { AreAttributes attrs.old → AreAttributes attrs.new }
{
    let name = MarkText::copy_of(alloc, first.0.text())?;
    let value = first.1.value(alloc)?;
    attrs.put(name, value)
}
