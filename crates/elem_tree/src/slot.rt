//! What a layer keeps of one path.
ghost use Rattle.std.specs.Prelude.{◌≡◌, IfOk, is_some};
ghost use Rattle.std.specs.Option.{option_copied};
ghost use Rattle.elem_tree.specs.Inside.Slots.{note_of, touched};

use crate::NoMemory;
use std::mem;
use ws_elem::Element;

/// What a layer keeps of one path.
#[derive(Debug, Drop)]
pub(crate) enum Slot {
    /// Room for an entry, which isn't known.
    Spare,
    /// The path has room. Nothing was put or taken yet, and this is its entry.
    Ready(Option<Element>),
    /// The entry before the path's first put or take.
    Noted(Option<Element>),
}

impl Slot {
    /// Whether it keeps the entry before a put or a take.
    pub(crate) fn is_noted(&self) -> bool
        ensures { result ≡ is_some (note_of self.now) }
    {
        matches!(self, Slot::Noted(_))
    }

    /// Is this slot from now on.
    pub(crate) fn turn_into(&mut self, slot: Slot)
        ensures { self.new ≡ slot }
    {
        *self = slot;
    }

    /// Something is put or taken: the entry that is ready is the one before.
    pub(crate) fn touch(&mut self)
        ensures { self.new ≡ touched self.old }
    {
        *self = match mem::replace(self, Slot::Spare) {
            Slot::Ready(before) => Slot::Noted(before),
            slot => slot,
        };
    }
}

/// An equal entry, which shares the element's texts.
pub(crate) fn copied(element: Option<&Element>) -> Result<Option<Element>, NoMemory>
    ensures { IfOk result (λ copy. copy ≡ option_copied element.entry) }
{
    match element {
        Some(element) => Ok(Some(element.copy()?)),
        None => Ok(None),
    }
}
