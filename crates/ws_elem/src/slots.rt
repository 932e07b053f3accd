//! The slots of an ordered map of elements, one at a time.
ghost use Rattle.std.specs.Prelude.{◌≡◌, ◌+◌, ◌<◌, ◌&&◌, true, not, length, IfOk, OnOk, OnErr, Some, IsSome, is_none};
ghost use Rattle.std.specs.Option.{option_copied, option_flatten};
ghost use Rattle.ws_elem.specs.Inside.Slots.{slot_at, is_among, emptied, opened, filled_by, closed, is_empty_slot, SetsSlot, SetsRoom};

use crate::room::RoomSet;
use crate::{Element, NoMemory};
use res_path::Path;
use std::collections::BTreeMap;

/// The element in the slot, where there are both.
pub(crate) fn element_in(slot: Option<&Option<Element>>) -> Option<&Element>
    ensures { option_copied result ≡ option_flatten (option_copied slot.entry) }
{
    match slot {
        Some(slot) => slot.as_ref(),
        None => None,
    }
}

/// Takes the element at the path out. Its slot stays where that is asked.
pub(crate) fn take_from(
    slots: &mut BTreeMap<Path, Option<Element>>,
    path: &Path,
    stays: bool,
) -> Option<Element>
    requires { stays ≡ true → IsSome (slot_at slots.old.entries path.now) }
    ensures before { result ≡ option_flatten (slot_at slots.old.entries path.now) }
    ensures after { SetsSlot slots.old.entries slots.new.entries path.now (emptied stays) }
{
    if stays {
        empty_slot(slots, path)
    } else {
        slots.remove(path).flatten()
    }
}

/// Takes the element out of the slot at the path, and leaves the slot.
fn empty_slot(slots: &mut BTreeMap<Path, Option<Element>>, path: &Path) -> Option<Element>
    requires { IsSome (slot_at slots.old.entries path.now) }
    ensures before { result ≡ option_flatten (slot_at slots.old.entries path.now) }
    ensures after { SetsSlot slots.old.entries slots.new.entries path.now (emptied true) }
{
    match slots.get_mut(path) {
        Some(slot) => slot.take(),
        None => None,
    }
}

/// One more than there were, where there are more slots than that.
pub(crate) fn one_more(elements: usize, slots: &BTreeMap<Path, Option<Element>>) -> usize
    requires { elements < length slots.now.entries }
    ensures { result ≡ elements + 1 }
{
    let slots = slots.len();
    prove!(elements < slots);
    elements + 1
}

/// Makes an empty slot at the path, unless it has one.
pub(crate) fn open_slot(
    slots: &mut BTreeMap<Path, Option<Element>>,
    path: &Path,
) -> Result<(), NoMemory>
    ensures ok { OnOk result (SetsSlot slots.old.entries slots.new.entries path.now (opened (slot_at slots.old.entries path.now))) }
    ensures err { OnErr result (slots.new.entries ≡ slots.old.entries) }
{
    slots.entry(path.copy()?)?.or_insert(None);
    Ok(())
}

/// Puts the element into the slot at the path, which is made where there is none, unless an element is in it. Whether
/// it was put there.
pub(crate) fn fill_slot(
    slots: &mut BTreeMap<Path, Option<Element>>,
    path: &Path,
    element: Element,
) -> Result<bool, NoMemory>
    ensures answer { IfOk result (λ fills. fills ≡ is_none (option_flatten (slot_at slots.old.entries path.now))) }
    ensures ok { OnOk result (SetsSlot slots.old.entries slots.new.entries path.now (filled_by element (slot_at slots.old.entries path.now))) }
    ensures err { OnErr result (slots.new.entries ≡ slots.old.entries) }
{
    match slots.insert(path.copy()?, Some(element))?.flatten() {
        None => Ok(true),
        Some(before) => {
            put_back(slots, path, before);
            Ok(false)
        }
    }
}

/// Puts the element into the slot at the path.
fn put_back(slots: &mut BTreeMap<Path, Option<Element>>, path: &Path, element: Element)
    requires { IsSome (slot_at slots.old.entries path.now) }
    ensures { SetsSlot slots.old.entries slots.new.entries path.now (Some (Some element)) }
{
    if let Some(slot) = slots.get_mut(path) {
        *slot = Some(element);
    }
}

/// Removes the slot at the path if it is empty.
pub(crate) fn close_slot(slots: &mut BTreeMap<Path, Option<Element>>, path: &Path)
    ensures { SetsSlot slots.old.entries slots.new.entries path.now (closed (slot_at slots.old.entries path.now)) }
{
    if is_empty_slot(slots.get(path)) {
        slots.remove(path);
    }
}

/// Removes the slot at a path that is given away, if it is empty.
pub(crate) fn close_last(slots: &mut BTreeMap<Path, Option<Element>>, path: Path)
    ensures { SetsSlot slots.old.entries slots.new.entries path (closed (slot_at slots.old.entries path)) }
{
    close_slot(slots, &path);
}

fn is_empty_slot(slot: Option<&Option<Element>>) -> bool
    ensures { result ≡ is_empty_slot (option_copied slot.entry) }
{
    match slot {
        Some(slot) => slot.is_none(),
        None => false,
    }
}

/// Takes the path's room away again, where it was added.
pub(crate) fn undo_room(room: &mut RoomSet, path: &Path, added: bool)
    ensures { SetsRoom room.old room.new path.now (not added && is_among room.old path.now) }
{
    if added {
        room.remove(path);
    }
}
