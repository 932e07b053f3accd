//! Sources of rows, and the changes that they tell.

ghost use Rattle.std.specs.Prelude.{◌≡◌, ◌<◌, ◌-◌, ◌^◌, ◌↔◌, length, map, min, IsTrue, OnOk};
ghost use Rattle.std.specs.List.{flat_map, AllByRecursion};
ghost use Rattle.std.specs.Option.{option_copied};
ghost use Rattle.std.specs.FinMap as finite;
ghost use Rattle.save_form.specs.Lists.{list};
ghost use Rattle.save_state.specs.States.{change};
ghost use Rattle.tree_rows.specs.Rows.{Rows};
ghost use Rattle.tree_rows.specs.Inside.Pairs.{merged, rows_in};
ghost use Rattle.save_text.specs.Telling.{nothing, told_row, IsNarrowChange, AreNarrow};
ghost use Rattle.save_text.specs.Inside.Spellings.{spell_row};

use save_elem::is_narrow;
use save_sink::{Sink, put_u32};
use save_state::put_change;
use tree_rows::{Between, Row};
use ws_elem::ElemMap;

/// What tells rows: in path order, each a path and what stands there. It takes no memory.
pub trait Source {
    ghost rows: { Self → Rows };

    /// How many rows, up to 2^64 - 1.
    fn count(&self) -> u64
        ensures { result ≡ min (length (rows self.now)) (2 ^ 64 - 1) };

    /// Whether each row can be written.
    fn is_each_narrow(&self) -> bool
        ensures { IsTrue result ↔ AllByRecursion IsNarrowChange (map told_row (rows self.now)) };

    /// The rows, one behind the other.
    fn put_each<S: Sink>(&self, sink: &mut S) -> Result<(), S::Fault>
        requires { AllByRecursion IsNarrowChange (map told_row (rows self.now)) }
        ensures { OnOk result (sink.new ≡ S.after sink.old (flat_map spell_row (rows self.now))) };
}

/// The rows by which the second tree differs from the first.
#[derive(Clone, Copy, Debug)]
pub struct Trees<'a> {
    pub before: &'a ElemMap,
    pub after: &'a ElemMap,
}

impl<'a> Source for Trees<'a> {
    ghost use Rattle.std.specs.FinMap as finite;
    ghost use Rattle.save_text.specs.Inside.Between.{between};

    ghost rows = { λ trees. between trees.before.now.map trees.after.now.map };

    fn count(&self) -> u64 {
        count_between(self.before, self.after)
    }

    fn is_each_narrow(&self) -> bool {
        is_between_narrow(self.before, self.after)
    }

    fn put_each<S: Sink>(&self, sink: &mut S) -> Result<(), S::Fault> {
        put_between(sink, self.before, self.after)
    }
}

fn count_between(before: &ElemMap, after: &ElemMap) -> u64
    ensures { result ≡ min (length (rows_in (merged (finite.entries before.now.map) (finite.entries after.now.map)))) (2 ^ 64 - 1) }
{
    let mut count: u64 = 0;
    for _row in Between::of(before, after) {
        count = count.saturating_add(1);
    }
    count
}

fn is_row_narrow(row: &Row<'_>) -> bool
    ensures { IsTrue result ↔ IsNarrowChange (told_row (row.now.path.now, option_copied row.now.entry)) }
{
    match row.entry {
        None => true,
        Some(element) => is_narrow(element),
    }
}

fn is_between_narrow(before: &ElemMap, after: &ElemMap) -> bool
    ensures { IsTrue result ↔ AllByRecursion IsNarrowChange (map told_row (rows_in (merged (finite.entries before.now.map) (finite.entries after.now.map)))) }
{
    for row in Between::of(before, after) {
        if !is_row_narrow(&row) {
            return false;
        }
    }
    true
}

fn put_between<S: Sink>(sink: &mut S, before: &ElemMap, after: &ElemMap) -> Result<(), S::Fault>
    requires { AllByRecursion IsNarrowChange (map told_row (rows_in (merged (finite.entries before.now.map) (finite.entries after.now.map)))) }
    ensures { OnOk result (sink.new ≡ S.after sink.old (flat_map spell_row (rows_in (merged (finite.entries before.now.map) (finite.entries after.now.map))))) }
{
    for row in Between::of(before, after) {
        put_change(sink, row.path, row.entry)?;
    }
    Ok(())
}

/// The changes that a source tells. Asks that they can be written.
#[tactic(auto, using(crate::proofs::Spelled::changes))]
pub fn put_changes<S: Sink, T: Source>(sink: &mut S, source: &T) -> Result<(), S::Fault>
    requires { AreNarrow (map told_row (T.rows source.now)) }
    ensures { OnOk result (sink.new ≡ S.after sink.old ((list (change nothing)).spell (map told_row (T.rows source.now)))) }
{
    put_u32(sink, source.count() as u32)?;
    source.put_each(sink)
}

/// Whether the changes can be written: fewer than 2^32, each with texts of fewer than 2^32 bytes and lists of fewer than
/// 2^32 items.
#[tactic(auto, using(crate::proofs::Spelled::counted))]
pub fn are_changes_narrow<T: Source>(source: &T) -> bool
    ensures { IsTrue result ↔ AreNarrow (map told_row (T.rows source.now)) }
{
    source.count() < 1 << 32 && source.is_each_narrow()
}
