//! What an element is by itself.
ghost use Rattle.std.specs.Prelude.{◌≡◌, ◌↔◌, IsTrue, false};
ghost use Rattle.std.specs.List.{AllByRecursion};
ghost use Rattle.std.specs.FinMap.{values};
ghost use Rattle.mark_set.specs.Markers.{is_transient};
ghost use Rattle.save_elem.specs.Sound.{HasNoContents, IsUndescribed, FitsKind, AreSaved, IsSound};
ghost use Rattle.save_elem.specs.Telling.{told};

use mark_set::MarkSet;
use ws_elem::{Attachments, Element, Kind};

fn has_no_contents(element: &Element) -> bool
    ensures { IsTrue result ↔ HasNoContents (told element.now) }
{
    element.stamp == 0 && element.bytes.is_empty()
}

fn is_undescribed(element: &Element) -> bool
    ensures { IsTrue result ↔ IsUndescribed (told element.now) }
{
    let nothing = Attachments::none();
    let attached = element.attached.or(&nothing);
    !element.opened && attached.desc_stamp == 0 && attached.desc.is_empty()
}

fn fits_kind(element: &Element) -> bool
    ensures { IsTrue result ↔ FitsKind element.now.kind (told element.now) }
{
    match element.kind {
        Kind::File => is_undescribed(element),
        Kind::Folder => has_no_contents(element) && is_undescribed(element),
        Kind::Project => has_no_contents(element) && !element.derived,
        Kind::Root => has_no_contents(element) && is_undescribed(element) && !element.derived,
    }
}

fn are_lasting(marks: &MarkSet) -> bool
    ensures { IsTrue result ↔ AllByRecursion (λ m. is_transient m ≡ false) (values marks.now) }
{
    for of in marks.iter() {
        if of.is_transient() {
            return false;
        }
    }
    true
}

fn are_saved(marks: &MarkSet) -> bool
    ensures { IsTrue result ↔ AreSaved marks.now }
{
    // Whichever is asked for, the set tells that each has its form.
    let _any = marks.get(0);
    are_lasting(marks)
}

/// Whether the element is sound by itself: fields that its kind doesn't use are empty, 0 and off, and no marker is
/// transient.
pub fn is_sound(element: &Element) -> bool
    ensures { IsTrue result ↔ IsSound element.now }
{
    let nothing = Attachments::none();
    fits_kind(element) && are_saved(&element.attached.or(&nothing).marks)
}
