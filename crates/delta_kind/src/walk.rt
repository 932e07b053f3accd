//! The rows of two trees, walked side by side.
ghost use Rattle.std.specs.Prelude.{◌≡◌, [], None};
ghost use Rattle.std.specs.Option.{option_copied};
ghost use Rattle.delta_kind.specs.Rows.{shown};
ghost use Rattle.delta_kind.specs.Inside.Walks.{pending};

use crate::Row;
use res_path::Path;
use std::cmp::Ordering;
use ws_elem::{ElemMap, Element, Entries};

type Entry<'a> = (&'a Path, &'a Element);

/// A row for each path of either tree, in path order: one walk of both, in which each step compares two paths at most.
#[derive(Drop)]
pub struct Walk<'a> {
    first: Option<Entry<'a>>,
    before: Entries<'a>,
    second: Option<Entry<'a>>,
    after: Entries<'a>,
}

impl<'a> Walk<'a> {
    ghost use Rattle.std.specs.Prelude.{◌≡◌};
    ghost use Rattle.std.specs.FinMap as map;
    ghost use Rattle.delta_kind.specs.Inside.Walks.{rows_left, merged};

    /// The walk of two trees from their first entries on.
    pub fn of(before: &'a ElemMap, after: &'a ElemMap) -> Walk<'a>
        ensures { rows_left result ≡ merged (map.entries before.now.map) (map.entries after.now.map) }
    {
        Walk {
            first: None,
            before: before.iter(),
            second: None,
            after: after.iter(),
        }
    }
}

impl<'a> Iterator for Walk<'a> {
    type Item = Row<'a>;

    ghost use Rattle.std.specs.Iterator.{YieldsFirstBy, item_count};
    ghost use Rattle.delta_kind.specs.Rows.{shown};
    ghost use Rattle.delta_kind.specs.Inside.Walks.{rows_left};

    ghost next_gives = { YieldsFirstBy shown rows_left };

    ghost remaining = { item_count rows_left };

    fn next(&mut self) -> Option<Row<'a>> {
        look(&mut self.first, &mut self.before);
        look(&mut self.second, &mut self.after);
        match (self.first, self.second) {
            (None, None) => None,
            (Some((path, a)), None) => {
                self.first = None;
                Some(row(path, Some(a), None))
            }
            (None, Some((path, b))) => {
                self.second = None;
                Some(row(path, None, Some(b)))
            }
            (Some((path, a)), Some((other, b))) => match path.cmp(other) {
                Ordering::Less => {
                    self.first = None;
                    Some(row(path, Some(a), None))
                }
                Ordering::Equal => {
                    self.first = None;
                    self.second = None;
                    Some(row(path, Some(a), Some(b)))
                }
                Ordering::Greater => {
                    self.second = None;
                    Some(row(other, None, Some(b)))
                }
            },
        }
    }
}

fn row<'a>(path: &'a Path, before: Option<&'a Element>, after: Option<&'a Element>) -> Row<'a>
    ensures { shown result ≡ (path.now, (option_copied before.entry, option_copied after.entry)) }
{
    Row {
        path,
        before,
        after,
    }
}

/// Looks at the next entry, unless one was looked at.
fn look<'a>(seen: &mut Option<Entry<'a>>, rest: &mut Entries<'a>)
    ensures same { pending seen.new rest.new ≡ pending seen.old rest.old }
    ensures last { seen.new ≡ None → rest.new ≡ [] }
{
    if seen.is_none() {
        *seen = rest.next();
    }
}
