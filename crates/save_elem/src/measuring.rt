//! The writer over sinks that keep no bytes, and whether an element can be written. None of it takes memory.

ghost use Rattle.std.specs.Prelude.{◌≡◌, ◌<◌, ◌-◌, ◌^◌, ◌↔◌, [], ◌∷◌, length, map, min, IsTrue};
ghost use Rattle.std.specs.List.{AllByRecursion};
ghost use Rattle.std.specs.FinMap as finite;
ghost use Rattle.save_elem.specs.Elems.{elem};
ghost use Rattle.save_elem.specs.Telling.{told, told_value, told_attr, told_mark, told_sync, saved, lasting, IsNarrow, IsNarrowValue, IsNarrowAttr, IsNarrowMark, IsNarrowSync};

use crate::writing::{count_lasting, put_elem};
use mark_set::{Attrs, MarkSet, MarkText, Marker, Value};
use save_sink::{Length, Same};
use sync_set::SyncSet;
use ws_elem::{Attachments, Element};

/// How many bytes the element takes without its transient markers, up to 2^64 - 1.
pub fn elem_len(element: &Element) -> u64
    requires { IsNarrow (told element.now) }
    ensures { result ≡ min (length (elem.spell (told element.now))) (2 ^ 64 - 1) }
{
    let mut sink = Length { len: 0 };
    match put_elem(&mut sink, element) {
        Ok(()) => sink.len,
        Err(never) => match never {},
    }
}

/// Whether these bytes are the element's, without its transient markers.
#[tactic(auto, using(save_sink::proofs::Fronts::whole))]
pub fn spells(element: &Element, bytes: &[u8]) -> bool
    requires { IsNarrow (told element.now) }
    ensures { IsTrue result ↔ (bytes.now ≡ elem.spell (told element.now)) }
{
    let mut sink = Same::of(bytes);
    match put_elem(&mut sink, element) {
        Ok(()) => sink.is_whole(),
        Err(never) => match never {},
    }
}

/// Whether every text of the element has fewer than 2^32 bytes and every list fewer than 2^32 items, transient markers
/// aside: so that it can be written.
pub fn is_narrow(element: &Element) -> bool
    ensures { IsTrue result ↔ IsNarrow (told element.now) }
{
    let nothing = Attachments::none();
    let attached = element.attached.or(&nothing);
    is_short(&attached.desc)
        && is_short(&element.bytes)
        && are_marks_narrow(&attached.marks)
        && are_syncs_narrow(&attached.syncs)
}

fn is_short(bytes: &[u8]) -> bool
    ensures { IsTrue result ↔ (length bytes.now < 2 ^ 32) }
{
    is_few(bytes.len())
}

fn is_few(count: usize) -> bool
    ensures { IsTrue result ↔ (count < 2 ^ 32) }
{
    count < 1 << 32
}

fn is_attr_narrow(name: &MarkText, value: &Value) -> bool
    ensures { IsTrue result ↔ IsNarrowAttr (told_attr (name.now, value.now)) }
{
    is_short(name.text().as_bytes()) && is_value_narrow(value)
}

fn is_value_narrow(value: &Value) -> bool
    ensures { IsTrue result ↔ IsNarrowValue (told_value value.now) }
{
    match value {
        Value::Int(_) => true,
        Value::Bool(_) => true,
        Value::Text(text) => is_short(text.text().as_bytes()),
    }
}

fn is_each_attr_narrow(attrs: &Attrs) -> bool
    ensures { IsTrue result ↔ AllByRecursion IsNarrowAttr (map told_attr (finite.entries attrs.now)) }
{
    for (name, value) in attrs.iter() {
        if !is_attr_narrow(name, value) {
            return false;
        }
    }
    true
}

#[tactic(auto, using(crate::proofs::Each::attributes_counted))]
fn is_attrs_few(attrs: &Attrs) -> bool
    ensures { IsTrue result ↔ (length (map told_attr (finite.entries attrs.now)) < 2 ^ 32) }
{
    is_few(attrs.len())
}

fn is_mark_narrow(of: &Marker) -> bool
    ensures { IsTrue result ↔ IsNarrowMark (told_mark of.now) }
{
    is_short(of.mark_type.text().as_bytes())
        && is_attrs_few(&of.attrs)
        && is_each_attr_narrow(&of.attrs)
}

fn is_saved_narrow(of: &Marker) -> bool
    ensures { IsTrue result ↔ AllByRecursion IsNarrowMark (map told_mark (saved (of.now ∷ []))) }
{
    of.is_transient() || is_mark_narrow(of)
}

fn is_each_mark_narrow(marks: &MarkSet) -> bool
    ensures { IsTrue result ↔ AllByRecursion IsNarrowMark (map told_mark (lasting marks.now)) }
{
    for of in marks.iter() {
        if !is_saved_narrow(of) {
            return false;
        }
    }
    true
}

#[tactic(auto, using(crate::proofs::Each::marks_counted))]
fn are_marks_narrow(marks: &MarkSet) -> bool
    ensures { IsTrue result ↔ (length (map told_mark (lasting marks.now)) < 2 ^ 32) × AllByRecursion IsNarrowMark (map told_mark (lasting marks.now)) }
{
    is_few(count_lasting(marks)) && is_each_mark_narrow(marks)
}

fn is_each_sync_narrow(syncs: &SyncSet) -> bool
    ensures { IsTrue result ↔ AllByRecursion IsNarrowSync (map told_sync (finite.entries syncs.now)) }
{
    for (_, bytes) in syncs.iter() {
        if !is_short(bytes) {
            return false;
        }
    }
    true
}

#[tactic(auto, using(crate::proofs::Each::syncs_counted))]
fn are_syncs_narrow(syncs: &SyncSet) -> bool
    ensures { IsTrue result ↔ (length (map told_sync (finite.entries syncs.now)) < 2 ^ 32) × AllByRecursion IsNarrowSync (map told_sync (finite.entries syncs.now)) }
{
    is_few(syncs.len()) && is_each_sync_narrow(syncs)
}
