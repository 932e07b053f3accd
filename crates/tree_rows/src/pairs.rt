//! The entries of two trees, walked side by side.
ghost use Rattle.std.specs.Prelude.{◌≡◌, [], None};
ghost use Rattle.std.specs.Option.{option_copied};
ghost use Rattle.tree_rows.specs.Inside.Pairs.{pending, shown_pair};

use crate::same::are_same;
use res_path::Path;
use std::cmp::Ordering;
use ws_elem::{ElemMap, Element, Entries};

/// A path with its entries in two trees.
#[derive(Clone, Copy, Debug)]
pub struct Pair<'a> {
    pub path: &'a Path,
    pub before: Option<&'a Element>,
    pub after: Option<&'a Element>,
}

impl<'a> Pair<'a> {
    ghost use Rattle.std.specs.Prelude.{◌≡◌};
    ghost use Rattle.tree_rows.specs.Same.{same_entry};
    ghost use Rattle.tree_rows.specs.Inside.Pairs.{shown_pair};

    pub fn is_same(&self) -> bool
        ensures { result ≡ same_entry (shown_pair self.now).1.0 (shown_pair self.now).1.1 }
    {
        are_same(self.before, self.after)
    }
}

type Entry<'a> = (&'a Path, &'a Element);

/// A pair for each path of either tree, in path order: one walk of both, in which each step compares two paths at most.
#[derive(Drop)]
pub struct Pairs<'a> {
    first: Option<Entry<'a>>,
    before: Entries<'a>,
    second: Option<Entry<'a>>,
    after: Entries<'a>,
}

impl<'a> Pairs<'a> {
    ghost use Rattle.std.specs.Prelude.{◌≡◌};
    ghost use Rattle.std.specs.FinMap as map;
    ghost use Rattle.tree_rows.specs.Inside.Pairs.{pairs_left, merged};

    /// The walk of two trees from their first entries on.
    pub fn of(before: &'a ElemMap, after: &'a ElemMap) -> Pairs<'a>
        ensures { pairs_left result ≡ merged (map.entries before.now.map) (map.entries after.now.map) }
    {
        Pairs {
            first: None,
            before: before.iter(),
            second: None,
            after: after.iter(),
        }
    }
}

impl<'a> Iterator for Pairs<'a> {
    type Item = Pair<'a>;

    ghost use Rattle.std.specs.Iterator.{YieldsFirstBy, item_count};
    ghost use Rattle.tree_rows.specs.Inside.Pairs.{pairs_left, shown_pair};

    ghost next_gives = { YieldsFirstBy shown_pair pairs_left };

    ghost remaining = { item_count pairs_left };

    fn next(&mut self) -> Option<Pair<'a>> {
        look(&mut self.first, &mut self.before);
        look(&mut self.second, &mut self.after);
        match (self.first, self.second) {
            (None, None) => None,
            (Some((path, a)), None) => {
                self.first = None;
                Some(made_pair(path, Some(a), None))
            }
            (None, Some((path, b))) => {
                self.second = None;
                Some(made_pair(path, None, Some(b)))
            }
            (Some((path, a)), Some((other, b))) => match path.cmp(other) {
                Ordering::Less => {
                    self.first = None;
                    Some(made_pair(path, Some(a), None))
                }
                Ordering::Equal => {
                    self.first = None;
                    self.second = None;
                    Some(made_pair(path, Some(a), Some(b)))
                }
                Ordering::Greater => {
                    self.second = None;
                    Some(made_pair(other, None, Some(b)))
                }
            },
        }
    }
}

fn made_pair<'a>(
    path: &'a Path,
    before: Option<&'a Element>,
    after: Option<&'a Element>,
) -> Pair<'a>
    ensures { shown_pair result ≡ (path.now, (option_copied before.entry, option_copied after.entry)) }
{
    Pair {
        path,
        before,
        after,
    }
}

/// Looks at the next entry, unless one was looked at.
fn look<'a>(seen: &mut Option<Entry<'a>>, rest: &mut Entries<'a>)
    ensures same { pending seen.new rest.new ≡ pending seen.old rest.old }
    ensures last { seen.new ≡ None → rest.new ≡ [] }
{
    if seen.is_none() {
        *seen = rest.next();
    }
}
