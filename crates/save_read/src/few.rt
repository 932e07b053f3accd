//! Whether there are few elements.
ghost use Rattle.std.specs.Prelude.{◌↔◌, IsTrue, IfSome, map};
ghost use Rattle.std.specs.List.{AllByRecursion};
ghost use Rattle.std.specs.Option.{option_copied, option_map};
ghost use Rattle.ws_durable.specs.Saved.{saved, saved_built, saved_kept};
ghost use Rattle.save_read.specs.Sayable.{IsFew, AreFew};

use ws_durable::{Built, Durable, Kept};
use ws_elem::ElemMap;

fn is_few(tree: &ElemMap) -> bool
    ensures { IsTrue result ↔ IsFew tree.now.map }
{
    tree.len() <= 1_048_576
}

fn is_kept_few(tree: Option<&ElemMap>) -> bool
    ensures { IsTrue result ↔ IfSome (option_map (λ t. t.map) (option_copied tree.entry)) IsFew }
{
    match tree {
        None => true,
        Some(tree) => is_few(tree),
    }
}

fn are_built_few(built: &[Built]) -> bool
    ensures { IsTrue result ↔ AllByRecursion (λ b. IsFew b.tree) (map saved_built built.now) }
{
    for of in built {
        if !is_few(&of.tree) {
            return false;
        }
    }
    true
}

fn are_kept_few(kept: &[Kept]) -> bool
    ensures { IsTrue result ↔ AllByRecursion (λ k. IfSome k.tree IsFew) (map saved_kept kept.now) }
{
    for of in kept {
        if !is_kept_few(of.tree.as_ref()) {
            return false;
        }
    }
    true
}

/// Whether the tree, the shelf, and each built and kept tree have at most 1,048,576 elements.
pub fn are_few(durable: &Durable) -> bool
    ensures { IsTrue result ↔ AreFew (saved durable.now) }
{
    is_few(&durable.tree)
        && is_few(&durable.shelf)
        && are_built_few(durable.built.as_slice())
        && are_kept_few(durable.kept.as_slice())
}
