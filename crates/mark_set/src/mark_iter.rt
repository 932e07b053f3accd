//! The markers of a set, one after the other.

ghost use Rattle.std.specs.Iterator.{at_most};
ghost use Rattle.std.specs.Map.Iter.{TakesFirst, deref};
ghost use Rattle.std.specs.Prelude.{length};

use crate::marker::Marker;
use indexmap::IndexMap;
use std::collections::btree_map;
use std::marker::Model;

/// Markers in the order of their ids. A contract sees the list of those that are left.
#[derive(Drop)]
pub struct MarkIter<'a> {
    pub(crate) rest: Option<Walk<'a>>,
}

impl<'a> Model for MarkIter<'a> {
    ghost use Rattle.std.specs.Prelude.{List, []};
    ghost use Rattle.std.specs.Option.{option_map_or};
    ghost use Rattle.std.specs.Coded.{coded_list};
    ghost use Rattle.mark_set.specs.declared.marker.Marker.{Marker};
    ghost use Rattle.mark_set.specs.contracts.marker.Marker as marker;

    ghost Value = { List Marker };

    ghost coded = { coded_list marker.the_row.coded };

    ghost view = { λ iter. option_map_or (λ rest. rest) iter.rest [] };
}

impl<'a> Iterator for MarkIter<'a> {
    type Item = &'a Marker;

    ghost next_gives = { TakesFirst deref };

    ghost remaining = { λ rest. at_most (length rest) };

    fn next(&mut self) -> Option<&'a Marker> {
        match &mut self.rest {
            None => None,
            Some(rest) => rest.next(),
        }
    }
}

/// The same of a table: ids in order, and the markers that have them.
#[derive(Drop)]
pub struct Walk<'a> {
    pub(crate) ids: btree_map::Iter<'a, u64, ()>,
    pub(crate) markers: &'a IndexMap<u64, Marker>,
}

impl<'a> Model for Walk<'a> {
    ghost use Rattle.std.specs.Prelude.{List};
    ghost use Rattle.std.specs.FinMap.{from_entries};
    ghost use Rattle.std.specs.Coded.{coded_list};
    ghost use Rattle.mark_set.specs.declared.marker.Marker.{Marker};
    ghost use Rattle.mark_set.specs.contracts.marker.Marker as marker;
    ghost use Rattle.mark_set.specs.Inside.Orders.{markers_at, AreThere};

    ghost Value = { List Marker };

    ghost coded = { coded_list marker.the_row.coded };

    ghost view = { λ walk. markers_at (from_entries walk.markers.now.entries) walk.ids };

    ghost invariant = { λ walk. AreThere (from_entries walk.markers.now.entries) walk.ids };
}

impl<'a> Walk<'a> {
    fn next(&mut self) -> Option<&'a Marker>
        ensures { TakesFirst deref self.old result self.new }
    {
        match self.ids.next() {
            None => None,
            Some((id, _)) => self.markers.get(id),
        }
    }
}
