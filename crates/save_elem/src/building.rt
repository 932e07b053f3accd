//! The element that is told in a text.

ghost use Rattle.std.specs.Prelude.{◌≡◌, ◌↔◌, map, IsTrue, IfOk, None, Some};
ghost use Rattle.std.specs.FinMap as finite;
ghost use Rattle.mark_set.specs.Attributes.{AreAttributes};
ghost use Rattle.mark_set.specs.Forms.{IsName, IsText, IsValue};
ghost use Rattle.ws_elem.specs.declared.element.Element.{Element as ElementRecord};
ghost use Rattle.save_form.specs.Laws.{FitEach};
ghost use Rattle.save_elem.specs.Fits.{FitsAttr, FitsMark, FitsSync, FitsElem};
ghost use Rattle.save_elem.specs.Sound.{FitsKind, HasNoContents, IsUndescribed, IsAttr, IsSaved, AreSaved, IsSound, Finds};
ghost use Rattle.save_elem.specs.Telling.{told_value, told_attr, told_mark, told_sync, lasting, told};

use crate::elem::{Attr, Elem, Mark, Sync, Told};
use bytes::Bytes;
use mark_set::{Attrs, MarkSet, MarkText, Marker, Value};
use std::alloc::Global;
use std::str::from_utf8;
use sync_set::SyncSet;
use ws_elem::{Attached, Attachments, Element, Kind, NoMemory};

fn has_no_contents(elem: &Elem<'_>) -> bool
    ensures { IsTrue result ↔ HasNoContents elem.now }
{
    elem.stamp == 0 && elem.bytes.bytes().is_empty()
}

fn is_undescribed(elem: &Elem<'_>) -> bool
    ensures { IsTrue result ↔ IsUndescribed elem.now }
{
    !elem.opened && elem.desc_stamp == 0 && elem.desc.bytes().is_empty()
}

fn fits_kind(elem: &Elem<'_>) -> bool
    ensures { IsTrue result ↔ FitsKind elem.now.kind elem.now }
{
    match elem.kind {
        Kind::File => is_undescribed(elem),
        Kind::Folder => has_no_contents(elem) && is_undescribed(elem),
        Kind::Project => has_no_contents(elem) && !elem.derived,
        Kind::Root => has_no_contents(elem) && is_undescribed(elem) && !elem.derived,
    }
}

// The text, where it is UTF-8 of fewer than 65,536 bytes.
fn text_of(alloc: Global, bytes: &[u8]) -> Result<Option<MarkText>, NoMemory>
    ensures { Finds (λ text. (text ≡ bytes.now) × IsText text) result }
{
    if bytes.len() >= 65_536 {
        return Ok(None);
    }
    match from_utf8(bytes) {
        Err(_) => Ok(None),
        Ok(text) => Ok(Some(MarkText::copy_of(alloc, text)?)),
    }
}

// The text, where it is UTF-8 of 1 to 255 bytes.
fn name_of(alloc: Global, bytes: &[u8]) -> Result<Option<MarkText>, NoMemory>
    ensures { Finds (λ text. (text ≡ bytes.now) × IsName text) result }
{
    if bytes.is_empty() || bytes.len() > 255 {
        return Ok(None);
    }
    match from_utf8(bytes) {
        Err(_) => Ok(None),
        Ok(text) => Ok(Some(MarkText::copy_of(alloc, text)?)),
    }
}

fn value_of(alloc: Global, told: &Told<'_>) -> Result<Option<Value>, NoMemory>
    ensures { Finds (λ value. (told_value value ≡ told.now) × IsValue value) result }
{
    match told {
        Told::Int(n) => Ok(Some(Value::Int(n.cast_signed()))),
        Told::Bool(b) => Ok(Some(Value::Bool(*b))),
        Told::Text(text) => match text_of(alloc, text.bytes())? {
            None => Ok(None),
            Some(text) => Ok(Some(Value::Text(text))),
        },
    }
}

fn attr_of(alloc: Global, told: &Attr<'_>) -> Result<Option<(MarkText, Value)>, NoMemory>
    ensures { Finds (λ attribute. (told_attr attribute ≡ told.now) × IsAttr attribute) result }
{
    match name_of(alloc, told.name.bytes())? {
        None => Ok(None),
        Some(name) => match value_of(alloc, &told.value)? {
            None => Ok(None),
            Some(value) => Ok(Some((name, value))),
        },
    }
}

fn attrs_of(alloc: Global, told: &[Attr<'_>]) -> Result<Option<Attrs>, NoMemory>
    requires { FitEach FitsAttr None told.now }
    ensures { Finds (λ attrs. (map told_attr (finite.entries attrs) ≡ told.now) × AreAttributes attrs) result }
{
    let mut values = Vec::new(alloc);
    for first in told {
        let Some(value) = attr_of(alloc, first)? else {
            return Ok(None);
        };
        values.push(value)?;
    }
    Ok(Some(Attrs::of(values)))
}

fn mark_of(alloc: Global, told: &Mark<'_>) -> Result<Option<Marker>, NoMemory>
    requires { FitEach FitsAttr None told.now.attrs }
    ensures { Finds (λ m. (told_mark m ≡ told.now) × IsSaved m.id m) result }
{
    let Some(mark_type) = name_of(alloc, told.mark_type.bytes())? else {
        return Ok(None);
    };
    let Some(attrs) = attrs_of(alloc, told.attrs.as_slice())? else {
        return Ok(None);
    };
    let marker = Marker {
        id: told.id,
        mark_type,
        attrs,
    };
    if marker.is_transient() {
        return Ok(None);
    }
    Ok(Some(marker))
}

fn marks_of(alloc: Global, told: &[Mark<'_>]) -> Result<Option<MarkSet>, NoMemory>
    requires { FitEach FitsMark None told.now }
    ensures { Finds (λ marks. (map told_mark (lasting marks) ≡ told.now) × AreSaved marks) result }
{
    let mut marks = MarkSet::empty();
    for first in told {
        let Some(marker) = mark_of(alloc, first)? else {
            return Ok(None);
        };
        marks.put(alloc, marker)?;
    }
    Ok(Some(marks))
}

fn syncs_of(alloc: Global, told: &[Sync<'_>]) -> Result<SyncSet, NoMemory>
    requires { FitEach FitsSync None told.now }
    ensures { IfOk result (λ syncs. map told_sync (finite.entries syncs) ≡ told.now) }
{
    let mut syncs = SyncSet::empty();
    for first in told {
        let bytes = Bytes::copy_from_slice(alloc, first.bytes.bytes())?;
        syncs.set(alloc, first.partner, Some(bytes))?;
    }
    Ok(syncs)
}

/// The element that this text tells, whose texts are its own. None exactly where what is told is no element's by itself:
/// fields that its kind doesn't use are empty, 0 and off, the types of markers and the names of attributes have 1 to 255
/// bytes, texts of attributes fewer than 65,536, all of UTF-8, and no marker is transient.
pub fn element_of(alloc: Global, elem: &Elem<'_>) -> Result<Option<Element>, NoMemory>
    requires { FitsElem elem.now }
    ensures found { Finds (λ e. (told e ≡ elem.now) × IsSound e) result }
    ensures only { (e : ElementRecord) → IsSound e → told e ≡ elem.now → IfOk result (λ found. found ≡ Some e) }
{
    build(alloc, elem)
}

fn build(alloc: Global, elem: &Elem<'_>) -> Result<Option<Element>, NoMemory>
    requires { FitsElem elem.now }
    ensures { Finds (λ e. (told e ≡ elem.now) × IsSound e) result }
{
    if !fits_kind(elem) {
        return Ok(None);
    }
    let Some(marks) = marks_of(alloc, elem.marks.as_slice())? else {
        return Ok(None);
    };
    let attachments = Attachments {
        desc_stamp: elem.desc_stamp,
        desc: Bytes::copy_from_slice(alloc, elem.desc.bytes())?,
        marks,
        syncs: syncs_of(alloc, elem.syncs.as_slice())?,
    };
    Ok(Some(Element {
        kind: elem.kind,
        opened: elem.opened,
        derived: elem.derived,
        node: elem.node,
        stamp: elem.stamp,
        bytes: Bytes::copy_from_slice(alloc, elem.bytes.bytes())?,
        attached: Attached::of(alloc, attachments)?,
    }))
}
