//! Whole trees.
ghost use Rattle.std.specs.Prelude.{◌≡◌, ◌↔◌, [], IsTrue, IfOk, IsSomeAnd};
ghost use Rattle.std.specs.Option.{option_copied};
ghost use Rattle.std.specs.FinMap.{get};
ghost use Rattle.ws_elem.specs.declared.kind.Kind.TheVariants.{Root};
ghost use Rattle.ws_elem.specs.Trees.{Whole};
ghost use Rattle.save_valid.specs.Places.{IsPlaced};
ghost use Rattle.save_valid.specs.Rules.{Each, AllDiffer, nodes_of};

use crate::each::is_each;
use crate::numbers::do_own_nodes_differ;
use crate::places::Placed;
use res_path::Path;
use std::alloc::Global;
use ws_elem::{ElemMap, Element, Kind, NoMemory};

fn is_root(element: Option<&Element>) -> bool
    ensures { IsTrue result ↔ IsSomeAnd (option_copied element.entry) (λ e. e.kind ≡ Root) }
{
    match element {
        None => false,
        Some(element) => element.kind == Kind::Root,
    }
}

fn is_rooted(tree: &ElemMap) -> bool
    ensures { IsTrue result ↔ IsSomeAnd (get tree.now.map []) (λ e. e.kind ≡ Root) }
{
    is_root(tree.get(&Path::root()))
}

/// Whether the tree is whole.

pub fn is_whole(alloc: Global, tree: &ElemMap) -> Result<bool, NoMemory>
    ensures { IfOk result (λ is. IsTrue is ↔ Whole tree.now.map) }
{
    if !is_rooted(tree) {
        return Ok(false);
    }
    if !is_each(tree, &Placed { tree })? {
        return Ok(false);
    }
    do_own_nodes_differ(alloc, tree)
}
