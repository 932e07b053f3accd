//! The entries of an ordered map of elements, one after another.
ghost use Rattle.std.specs.Prelude.{◌≡◌};
ghost use Rattle.ws_elem.specs.Inside.Slots.{filled};

use crate::Element;
use res_path::Path;
use std::collections::btree_map::Range;
use std::marker::Model;

/// The entries that are left of a tree, in path order. A contract sees their list.
#[derive(Drop)]
pub struct Entries<'a> {
    slots: Range<'a, Path, Option<Element>>,
}

impl<'a> Model for Entries<'a> {
    ghost use Rattle.std.specs.Prelude.{List};
    ghost use Rattle.std.specs.Coded.{coded_list, coded×};
    ghost use Rattle.res_path.specs.Paths.{Names};
    ghost use Rattle.ws_elem.specs.declared.element.Element.{Element};
    ghost use Rattle.ws_elem.specs.RoomyTrees.{names_code};
    ghost use Rattle.ws_elem.specs.Inside.Slots.{filled};
    ghost use Rattle.ws_elem.specs.contracts.element.Element as element;

    ghost Value = { List (Names × Element) };

    ghost coded = { coded_list (coded× names_code element.the_row.coded) };

    ghost view = { λ e. filled e.slots };
}

impl<'a> Entries<'a> {
    /// The entries of the slots that aren't empty.
    pub(crate) fn of(slots: Range<'a, Path, Option<Element>>) -> Entries<'a>
        ensures { result ≡ filled slots.entry }
    {
        Entries { slots }
    }
}

impl<'a> Iterator for Entries<'a> {
    type Item = (&'a Path, &'a Element);

    ghost use Rattle.std.specs.Iterator.{item_count};
    ghost use Rattle.std.specs.Map.Iter.{TakesFirst, deref_pair};

    ghost next_gives = { TakesFirst deref_pair };

    ghost remaining = { item_count (λ s. s) };

    fn next(&mut self) -> Option<(&'a Path, &'a Element)> {
        while let Some((path, slot)) = self.slots.next() {
            if let Some(element) = slot {
                return Some((path, element));
            }
        }
        None
    }
}
