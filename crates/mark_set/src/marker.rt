//! One marker.

ghost use Rattle.std.specs.Prelude.{◌≡◌, ◌↔◌, IfOk, IsTrue, OnOk, OnErr, None};
ghost use Rattle.std.specs.FinMap as map;
ghost use Rattle.mark_set.specs.Attributes.{AreAttributes, with_value};
ghost use Rattle.mark_set.specs.Causes.{marker_cause, change_cause};
ghost use Rattle.mark_set.specs.Markers.{IsMarker, is_transient, new_marker, with_attribute};

use crate::NoMemory;
use crate::attrs::{Attrs, put_values};
use crate::text::{MarkText, RawText};
use crate::value::{RawValue, Value};
use std::alloc::Global;

/// A note of a tool on a resource. A marker in a `MarkSet` has a type of 1 to 255 bytes, as have the names of its
/// attributes.
#[derive(Clone, Debug, PartialEq, Eq, Drop)]
pub struct Marker {
    pub id: u64,
    pub mark_type: MarkText,
    pub attrs: Attrs,
}

impl Marker {
    /// An equal marker.
    pub fn copy(&self) -> Result<Marker, NoMemory>
        ensures { IfOk result (λ copy. copy ≡ self.now) }
    {
        Ok(Marker {
            id: self.id,
            mark_type: self.mark_type.copy()?,
            attrs: self.attrs.copy()?,
        })
    }

    pub(crate) fn is_same(&self, other: &Marker) -> bool
        ensures { IsTrue result ↔ (self.now ≡ other.now) }
    {
        self == other
    }

    pub(crate) fn make(
        alloc: Global,
        id: u64,
        mark_type: &str,
        raw: &[(RawText, RawValue)],
    ) -> Result<Marker, NoMemory>
        requires { marker_cause mark_type.now raw.now ≡ None }
        ensures value { IfOk result (λ marker. marker ≡ new_marker id mark_type.now raw.now) }
        ensures form { IfOk result (IsMarker id) }
    {
        let mark_type = MarkText::copy_of(alloc, mark_type)?;
        let mut attrs = Attrs::empty(alloc);
        put_values(alloc, &mut attrs, raw)?;
        Ok(Marker {
            id,
            mark_type,
            attrs,
        })
    }

    /// Whether the attribute `transient` is the value true. A transient marker isn't saved. Takes no memory.
    pub fn is_transient(&self) -> bool
        ensures { result ≡ is_transient self.now }
    {
        match self.attrs.named("transient") {
            Some(Value::Bool(on)) => *on,
            _ => false,
        }
    }
}

/// Gives one attribute this value, or takes it away.
pub fn put_attribute(
    alloc: Global,
    attrs: &mut Attrs,
    name: &str,
    value: Option<RawValue>,
) -> Result<(), NoMemory>
    requires { change_cause name.now value ≡ None }
    ensures ok { OnOk result (attrs.new ≡ with_value attrs.old name.now value) }
    ensures err { OnErr result (attrs.new ≡ attrs.old) }
    ensures form { AreAttributes attrs.old → AreAttributes attrs.new }
{
    let name = MarkText::copy_of(alloc, name)?;
    match value {
        Some(value) => attrs.put(name, value.into_value()),
        None => {
            attrs.take(&name);
            Ok(())
        }
    }
}
