//! A tree from another one and the changes.
ghost use Rattle.std.specs.Prelude.{◌≡◌, None, IfSome, OnOk};
ghost use Rattle.std.specs.Option.{option_copied, option_map};
ghost use Rattle.ws_elem.specs.Trees.{set_at};
ghost use Rattle.save_form.specs.Laws.{FitEach};
ghost use Rattle.save_elem.specs.Fits.{FitsElem};
ghost use Rattle.save_elem.specs.Sound.{IsSound, Finds};
ghost use Rattle.save_elem.specs.Telling.{told};
ghost use Rattle.save_state.specs.Fits.{FitsChange};
ghost use Rattle.save_build.specs.Told.{told_tree, Tells, AreFit};

use res_path::Path;
use save_elem::element_of;
use save_state::Change;
use std::alloc::Global;
use ws_elem::{ElemMap, Element, NoMemory};

// What stands at the path after the change, if the element that is told is one by itself.
#[tactic(auto, using(crate::proofs::Changes::entries))]
fn entry_of(alloc: Global, change: &Change<'_>) -> Result<Option<Option<Element>>, NoMemory>
    requires { IfSome change.now.entry FitsElem }
    ensures { Finds (λ entry. (option_map told entry ≡ change.now.entry) × IfSome entry IsSound) result }
{
    match change.entry.elem() {
        None => Ok(Some(None)),
        Some(elem) => match element_of(alloc, elem)? {
            None => Ok(None),
            Some(element) => Ok(Some(Some(element))),
        },
    }
}

fn set(tree: &mut ElemMap, path: &Path, entry: Option<Element>) -> Result<(), NoMemory>
    ensures { OnOk result (tree.new.map ≡ set_at tree.old.map path.now entry) }
{
    match entry {
        None => {
            tree.take(path);
        }
        Some(element) => {
            tree.put(path.copy()?, element)?;
        }
    }
    Ok(())
}

/// The tree to which the changes lead from the base. None exactly where there is none whose elements are sound by
/// themselves. Its elements share the texts of the base's.
pub fn tree_of(
    alloc: Global,
    base: &ElemMap,
    changes: &[Change<'_>],
) -> Result<Option<ElemMap>, NoMemory>
    requires fit { AreFit base.now.map }
    requires changes { FitEach (FitsChange (told_tree base.now.map)) None changes.now }
    ensures { Finds (λ t. Tells base.now.map changes.now t.map × AreFit t.map) result }
{
    let mut tree = base.copy()?;
    let mut at = changes.len();
    while at > 0 {
        at -= 1;
        let change = &changes[at];
        match entry_of(alloc, change)? {
            None => return Ok(None),
            Some(entry) => set(&mut tree, &change.path, entry)?,
        }
    }
    Ok(Some(tree))
}
