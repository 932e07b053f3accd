//! The trees of a state.
ghost use Rattle.std.specs.Prelude.{◌≡◌, ◌↔◌, ◌∷◌, ◌++◌, [], map, IsTrue, IfOk, OnOk};
ghost use Rattle.std.specs.List.{AllByRecursion};
ghost use Rattle.std.specs.Option.{option_copied, option_map};
ghost use Rattle.ws_durable.specs.Saved.{saved, saved_built, saved_kept, built_trees, kept_trees, trees, maps, with_tree};
ghost use Rattle.ws_elem.specs.Trees.{Whole};
ghost use Rattle.save_valid.specs.Rules.{Each, maps_at};

use save_valid::{Test, is_each, is_whole};
use std::alloc::Global;
use ws_durable::{Built, Durable, Kept};
use ws_elem::{ElemMap, NoMemory};

fn push_built<'a>(trees: &mut Vec<&'a ElemMap>, built: &'a [Built]) -> Result<(), NoMemory>
    ensures { OnOk result (maps_at trees.new.items ≡ maps_at trees.old.items ++ built_trees (map saved_built built.now)) }
{
    for of in built {
        trees.push(&of.tree)?;
    }
    Ok(())
}

fn push_kept_one<'a>(trees: &mut Vec<&'a ElemMap>, kept: &'a Kept) -> Result<(), NoMemory>
    ensures { OnOk result (maps_at trees.new.items ≡ maps_at trees.old.items ++ with_tree (saved_kept kept.now).tree []) }
{
    match &kept.tree {
        None => Ok(()),
        Some(tree) => Ok(trees.push(tree)?),
    }
}

fn push_kept<'a>(trees: &mut Vec<&'a ElemMap>, kept: &'a [Kept]) -> Result<(), NoMemory>
    ensures { OnOk result (maps_at trees.new.items ≡ maps_at trees.old.items ++ kept_trees (map saved_kept kept.now)) }
{
    for of in kept {
        push_kept_one(trees, of)?;
    }
    Ok(())
}

/// The shelf, the tree, and the trees of built records and kept states.
pub fn maps_of(alloc: Global, durable: &Durable) -> Result<Vec<&ElemMap>, NoMemory>
    ensures { IfOk result (λ all. maps_at all.items ≡ maps (saved durable.now)) }
{
    let mut all = Vec::new(alloc);
    all.push(&durable.shelf)?;
    all.push(&durable.tree)?;
    push_built(&mut all, durable.built.as_slice())?;
    push_kept(&mut all, durable.kept.as_slice())?;
    Ok(all)
}

/// Whether each of these trees is whole.
pub fn are_whole(alloc: Global, trees: &[&ElemMap]) -> Result<bool, NoMemory>
    ensures { IfOk result (λ is. IsTrue is ↔ AllByRecursion Whole (maps_at trees.now)) }
{
    for tree in trees {
        if !is_whole(alloc, tree)? {
            return Ok(false);
        }
    }
    Ok(true)
}

/// Whether it holds of each element of each of these trees.
pub fn are_each<T: Test>(trees: &[&ElemMap], test: &T) -> Result<bool, NoMemory>
    ensures { IfOk result (λ is. IsTrue is ↔ AllByRecursion (Each (T.holds test.now)) (maps_at trees.now)) }
{
    for tree in trees {
        if !is_each(tree, test)? {
            return Ok(false);
        }
    }
    Ok(true)
}
