//! Elements without their transient markers.
ghost use Rattle.std.specs.Prelude.{◌≡◌, IfOk};
ghost use Rattle.ws_lasting.specs.Lasting.{lasting_attachments, lasting_element};
ghost use Rattle.ws_lasting.specs.Inside.{has_transient, some_transient};

use crate::NoMemory;
use mark_set::MarkSet;
use std::alloc::Global;
use ws_elem::{Attachments, Element};

/// The element without its transient markers, which shares the texts. Where it has none, this is a copy.
pub fn lasting_element(alloc: Global, element: &Element) -> Result<Element, NoMemory>
    ensures { IfOk result (λ e. e ≡ lasting_element element.now) }
{
    if has_transient(element) {
        let nothing = Attachments::none();
        let attachments = lasting_attachments(alloc, element.attached.or(&nothing))?;
        return element.with_attachments(alloc, attachments);
    }
    element.copy()
}

/// Whether some of its markers are transient. Takes no memory.
pub(crate) fn has_transient(element: &Element) -> bool
    ensures { result ≡ has_transient element.now }
{
    match element.attached.kept() {
        None => false,
        Some(kept) => some_transient(&kept.marks),
    }
}

fn some_transient(marks: &MarkSet) -> bool
    ensures { result ≡ some_transient marks.now }
{
    for marker in marks.iter() {
        if marker.is_transient() {
            return true;
        }
    }
    false
}

fn lasting_attachments(alloc: Global, of: &Attachments) -> Result<Attachments, NoMemory>
    ensures { IfOk result (λ a. a ≡ lasting_attachments of.now) }
{
    Ok(Attachments {
        desc_stamp: of.desc_stamp,
        desc: of.desc.clone()?,
        marks: of.marks.durable(alloc)?,
        syncs: of.syncs.copy()?,
    })
}
