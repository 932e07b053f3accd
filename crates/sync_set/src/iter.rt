//! The entries of a set, one after the other.

ghost use Rattle.std.specs.Map.Iter.{TakesFirst, deref_pair};
ghost use Rattle.std.specs.Prelude.{length};
ghost use Rattle.std.specs.Iterator.{at_most};

use bytes::Bytes;
use std::collections::btree_map;
use std::marker::Model;

/// Partners' numbers with their bytes, in the order of the numbers.
#[derive(Drop)]
pub struct Iter<'a> {
    pub(crate) rest: Option<btree_map::Iter<'a, u32, Bytes>>,
}

impl<'a> Model for Iter<'a> {
    ghost use Rattle.std.specs.Prelude.{List, ℕ, []};
    ghost use Rattle.std.specs.Option.{option_map_or};

    ghost Value = { List (ℕ × List ℕ) };

    ghost view = { λ iter. option_map_or (λ rest. rest) iter.rest [] };
}

impl<'a> Iterator for Iter<'a> {
    type Item = (&'a u32, &'a Bytes);

    ghost next_gives = { TakesFirst deref_pair };

    ghost remaining = { λ rest. at_most (length rest) };

    fn next(&mut self) -> Option<(&'a u32, &'a Bytes)> {
        match &mut self.rest {
            None => None,
            Some(rest) => rest.next(),
        }
    }
}
