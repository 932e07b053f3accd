//! Whether a text can be written. None of it takes memory.

ghost use Rattle.std.specs.Prelude.{◌<◌, ◌^◌, ◌↔◌, length, map, IsTrue, IfSome};
ghost use Rattle.std.specs.List.{AllByRecursion};
ghost use Rattle.std.specs.Option.{option_copied, option_map};
ghost use Rattle.save_text.specs.Telling.{told_row, AreNarrow, IsNarrowBuilt, IsNarrowKept, IsNarrowState};
ghost use Rattle.save_text.specs.Inside.Between.{between};
ghost use Rattle.save_text.specs.Inside.Told.{told_built, told_kept, told_state};

use crate::source::{Trees, are_changes_narrow};
use ws_durable::{Built, Durable, Kept};
use ws_elem::ElemMap;

fn is_few(count: usize) -> bool
    ensures { IsTrue result ↔ (count < 2 ^ 32) }
{
    count < 1 << 32
}

fn are_rows_narrow(before: &ElemMap, after: &ElemMap) -> bool
    ensures { IsTrue result ↔ AreNarrow (map told_row (between before.now.map after.now.map)) }
{
    are_changes_narrow(&Trees { before, after })
}

fn is_built_narrow(tree: &ElemMap, of: &Built) -> bool
    ensures { IsTrue result ↔ IsNarrowBuilt (told_built tree.now.map of.now) }
{
    is_few(of.command.len())
        && is_few(of.references.as_slice().len())
        && are_rows_narrow(tree, &of.tree)
}

fn is_each_built_narrow(tree: &ElemMap, built: &[Built]) -> bool
    ensures { IsTrue result ↔ AllByRecursion IsNarrowBuilt (map (told_built tree.now.map) built.now) }
{
    for of in built {
        if !is_built_narrow(tree, of) {
            return false;
        }
    }
    true
}

fn is_kept_tree_narrow(tree: &ElemMap, kept: Option<&ElemMap>) -> bool
    ensures { IsTrue result ↔ IfSome (option_map (λ t. map told_row (between tree.now.map t.map)) (option_copied kept.entry)) AreNarrow }
{
    match kept {
        None => true,
        Some(kept) => are_rows_narrow(tree, kept),
    }
}

fn is_kept_narrow(tree: &ElemMap, of: &Kept) -> bool
    ensures { IsTrue result ↔ IsNarrowKept (told_kept tree.now.map of.now) }
{
    is_few(of.bytes.len()) && is_kept_tree_narrow(tree, of.tree.as_ref())
}

fn is_each_kept_narrow(tree: &ElemMap, kept: &[Kept]) -> bool
    ensures { IsTrue result ↔ AllByRecursion IsNarrowKept (map (told_kept tree.now.map) kept.now) }
{
    for of in kept {
        if !is_kept_narrow(tree, of) {
            return false;
        }
    }
    true
}

#[tactic(auto, using(crate::proofs::States::lengths))]
fn are_builds_narrow(durable: &Durable) -> bool
    ensures { IsTrue result ↔ (length (map (told_built durable.now.tree.map) durable.now.built) < 2 ^ 32)
        × AllByRecursion IsNarrowBuilt (map (told_built durable.now.tree.map) durable.now.built) }
{
    let built = durable.built.as_slice();
    is_few(built.len()) && is_each_built_narrow(&durable.tree, built)
}

#[tactic(auto, using(crate::proofs::States::lengths))]
fn are_keeps_narrow(durable: &Durable) -> bool
    ensures { IsTrue result ↔ (length (map (told_kept durable.now.tree.map) durable.now.kept) < 2 ^ 32)
        × AllByRecursion IsNarrowKept (map (told_kept durable.now.tree.map) durable.now.kept) }
{
    let kept = durable.kept.as_slice();
    is_few(kept.len()) && is_each_kept_narrow(&durable.tree, kept)
}

/// Whether the text of a durable state against a base tree and a base shelf can be written: every text in it has fewer
/// than 2^32 bytes, and every list fewer than 2^32 items.
pub fn is_narrow(base: &ElemMap, shelf: &ElemMap, durable: &Durable) -> bool
    ensures { IsTrue result ↔ IsNarrowState (told_state base.now.map shelf.now.map durable.now) }
{
    is_few(durable.partners.as_slice().len())
        && are_rows_narrow(base, &durable.tree)
        && are_rows_narrow(shelf, &durable.shelf)
        && are_builds_narrow(durable)
        && are_keeps_narrow(durable)
}
