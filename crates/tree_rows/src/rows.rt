//! The rows by which one tree differs from another.
ghost use Rattle.std.specs.Prelude.{◌≡◌};

use crate::pairs::Pairs;
use res_path::Path;
use std::marker::Model;
use ws_elem::{ElemMap, Element};

/// A path, and what stands there in the second tree.
#[derive(Clone, Copy, Debug)]
pub struct Row<'a> {
    pub path: &'a Path,
    pub entry: Option<&'a Element>,
}

/// The rows by which one tree differs from another: in path order, exactly the paths whose entries differ, with what
/// stands there in the second tree. A contract sees the list of those that are left. Nothing is copied, and it takes no
/// memory. All of them cost one walk of both trees.
#[derive(Drop)]
pub struct Between<'a> {
    pairs: Pairs<'a>,
}

impl<'a> Model for Between<'a> {
    ghost use Rattle.std.specs.Prelude.{List};
    ghost use Rattle.std.specs.Coded.{coded_list, coded_option, coded×};
    ghost use Rattle.ws_elem.specs.RoomyTrees.{names_code};
    ghost use Rattle.ws_elem.specs.contracts.element.Element as element;
    ghost use Rattle.tree_rows.specs.Rows.{Rows};
    ghost use Rattle.tree_rows.specs.Inside.Pairs.{pairs_left, rows_in};

    ghost Value = { Rows };

    ghost coded = { coded_list (coded× names_code (coded_option element.the_row.coded)) };

    ghost view = { λ b. rows_in (pairs_left b.pairs) };
}

impl<'a> Between<'a> {
    ghost use Rattle.std.specs.Prelude.{◌≡◌};
    ghost use Rattle.std.specs.FinMap as map;
    ghost use Rattle.tree_rows.specs.Rows.{Leads};
    ghost use Rattle.tree_rows.specs.Inside.Pairs.{merged, rows_in};

    /// All rows of two trees.
    pub fn of(before: &'a ElemMap, after: &'a ElemMap) -> Between<'a>
        ensures rows { result ≡ rows_in (merged (map.entries before.now.map) (map.entries after.now.map)) }
        ensures leads { Leads before.now.map after.now.map result }
    {
        Between {
            pairs: Pairs::of(before, after),
        }
    }
}

impl<'a> Iterator for Between<'a> {
    type Item = Row<'a>;

    ghost use Rattle.std.specs.Iterator.{YieldsFirstBy, item_count};
    ghost use Rattle.tree_rows.specs.Shown.{shown};

    ghost next_gives = { YieldsFirstBy shown (λ rows. rows) };

    ghost remaining = { item_count (λ rows. rows) };

    fn next(&mut self) -> Option<Row<'a>> {
        while let Some(pair) = self.pairs.next() {
            if !pair.is_same() {
                return Some(Row {
                    path: pair.path,
                    entry: pair.after,
                });
            }
        }
        None
    }
}
