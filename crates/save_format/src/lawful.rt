//! Whether a state may be kept.
ghost use Rattle.std.specs.Prelude.{◌≡◌, ◌+◌, ◌-◌, ◌^◌, ◌≤◌, ◌↔◌, List, ◌∷◌, ◌++◌, map, IsTrue, IfOk};
ghost use Rattle.std.specs.FinMap.{len};
ghost use Rattle.std.specs.List.{AllByRecursion};
ghost use Rattle.ws_elem.specs.Trees.{Tree, Whole};
ghost use Rattle.ws_durable.specs.Saved.{saved, saved_built, maps};
ghost use Rattle.save_valid.specs.Descriptions.{IsDescribed, IsBuiltIn};
ghost use Rattle.save_valid.specs.Places.{IsShelved};
ghost use Rattle.save_valid.specs.Rules.{Each, IsBelow, counters_of, AllDiffer, nodes_of, maps_at};
ghost use Rattle.save_format.specs.Valid.{IsLawful};

use crate::lists::{are_each, are_whole, maps_of};
use save_valid::{
    Below, Described, Shelved, are_built_in, do_contents_agree, do_names_differ, do_nodes_differ,
    is_each,
};
use std::alloc::Global;
use ws_durable::Durable;
use ws_elem::{ElemMap, NoMemory};

fn behind_first<'b, 'a>(maps: &'b [&'a ElemMap]) -> &'b [&'a ElemMap]
    ensures { (t : Tree) (ts : List Tree) → maps_at maps.now ≡ t ∷ ts → maps_at result.now ≡ ts }
{
    if maps.is_empty() {
        return maps;
    }
    &maps[1..]
}

fn are_few_together(durable: &Durable) -> bool
    ensures { IsTrue result ↔ (len durable.now.tree.map + len durable.now.shelf.map ≤ 1048576) }
{
    let tree = durable.tree.len();
    tree <= 1_048_576 && durable.shelf.len() <= 1_048_576 - tree
}

fn is_placed(alloc: Global, durable: &Durable, all: &[&ElemMap]) -> Result<bool, NoMemory>
    ensures { IfOk result (λ is. IsTrue is ↔ (AllByRecursion Whole (maps_at all.now)
        × Each (IsShelved durable.now.tree.map durable.now.shelf.map) durable.now.shelf.map
        × AllDiffer (nodes_of durable.now.tree.map ++ nodes_of durable.now.shelf.map)
        × (len durable.now.tree.map + len durable.now.shelf.map ≤ 1048576))) }
{
    let shelved = Shelved {
        tree: &durable.tree,
        shelf: &durable.shelf,
    };
    let whole = are_whole(alloc, all)?;
    let shelf = is_each(&durable.shelf, &shelved)?;
    let nodes = do_nodes_differ(alloc, &durable.tree, &durable.shelf)?;
    Ok(whole && shelf && nodes && are_few_together(durable))
}

fn are_counters_low(durable: &Durable) -> bool
    ensures { IsTrue result ↔ ((durable.now.next_node ≤ 2 ^ 63 - 1) × (durable.now.next_stamp ≤ 2 ^ 63 - 1) × (durable.now.next_marker ≤ 2 ^ 63 - 1)) }
{
    let most = (1 << 63) - 1;
    durable.next_node <= most && durable.next_stamp <= most && durable.next_marker <= most
}

fn are_numbers_right(alloc: Global, durable: &Durable, all: &[&ElemMap]) -> Result<bool, NoMemory>
    ensures { IfOk result (λ is. IsTrue is ↔ (AllByRecursion (Each (λ _. IsBelow (counters_of (saved durable.now)))) (maps_at all.now)
        × AllDiffer durable.now.partners)) }
{
    let partners = durable.partners.as_slice();
    let test = Below {
        node: durable.next_node,
        stamp: durable.next_stamp,
        marker: durable.next_marker,
        partners: partners.len() as u64,
    };
    let below = are_each(all, &test)?;
    let differ = do_names_differ(alloc, partners)?;
    Ok(below && differ)
}

fn are_projects_right(alloc: Global, durable: &Durable, all: &[&ElemMap]) -> Result<bool, NoMemory>
    ensures { IfOk result (λ is. IsTrue is ↔ (AllByRecursion (Each IsDescribed) (maps_at all.now)
        × AllByRecursion (IsBuiltIn durable.now.tree.map) (map saved_built durable.now.built))) }
{
    let described = are_each(all, &Described { alloc })?;
    let built = are_built_in(alloc, &durable.tree, durable.built.as_slice())?;
    Ok(described && built)
}

fn hold_all(placed: bool, low: bool, numbers: bool, contents: bool, projects: bool) -> bool
    ensures { IsTrue result ↔ (IsTrue placed × IsTrue low × IsTrue numbers × IsTrue contents × IsTrue projects) }
{
    placed && low && numbers && contents && projects
}

fn is_all_right(alloc: Global, durable: &Durable, all: &[&ElemMap]) -> Result<bool, NoMemory>
    requires { maps_at all.now ≡ maps (saved durable.now) }
    ensures { IfOk result (λ is. IsTrue is ↔ IsLawful (saved durable.now)) }
{
    let trees = behind_first(all);
    let placed = is_placed(alloc, durable, trees)?;
    let numbers = are_numbers_right(alloc, durable, all)?;
    let contents = do_contents_agree(alloc, all)?;
    let projects = are_projects_right(alloc, durable, trees)?;
    let low = are_counters_low(durable);
    Ok(hold_all(placed, low, numbers, contents, projects))
}

/// Whether the state may be kept, those of its parts aside that each tree and text tells by itself.
pub fn is_lawful(alloc: Global, durable: &Durable) -> Result<bool, NoMemory>
    ensures { IfOk result (λ is. IsTrue is ↔ IsLawful (saved durable.now)) }
{
    let all = maps_of(alloc, durable)?;
    is_all_right(alloc, durable, all.as_slice())
}
