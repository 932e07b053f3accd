//! The attributes of a marker, one after the other.

ghost use Rattle.std.specs.Map.Iter.{TakesFirst, deref_pair};
ghost use Rattle.std.specs.Prelude.{length};
ghost use Rattle.std.specs.Iterator.{at_most};

use crate::text::MarkText;
use crate::value::Value;
use std::marker::Model;

/// Names with their values, in the order of the names' bytes. A contract sees the list of those that are left.
#[derive(Drop)]
pub struct AttrIter<'a> {
    pub(crate) rest: &'a [(MarkText, Value)],
}

impl<'a> Model for AttrIter<'a> {
    ghost use Rattle.std.specs.Prelude.{List, ℕ};
    ghost use Rattle.std.specs.Coded.{coded_ℕ, coded_list, coded×};
    ghost use Rattle.mark_set.specs.declared.value.Value.{Value as MarkValue};
    ghost use Rattle.mark_set.specs.contracts.value.Value as value;

    ghost Value = { List (List ℕ × MarkValue) };

    ghost coded = { coded_list (coded× (coded_list coded_ℕ) value.the_row.coded) };

    ghost view = { λ iter. iter.rest.now };
}

impl<'a> Iterator for AttrIter<'a> {
    type Item = (&'a MarkText, &'a Value);

    ghost next_gives = { TakesFirst deref_pair };

    ghost remaining = { λ rest. at_most (length rest) };

    fn next(&mut self) -> Option<(&'a MarkText, &'a Value)> {
        let Some((first, others)) = self.rest.split_first() else {
            return None;
        };
        self.rest = others;
        Some((&first.0, &first.1))
    }
}
