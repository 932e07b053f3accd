//! All that a state text tells.
ghost use Rattle.std.specs.Prelude.{◌≡◌};
ghost use Rattle.ws_durable.specs.Saved.{saved};
ghost use Rattle.save_elem.specs.Sound.{Finds};
ghost use Rattle.save_state.specs.Fits.{FitsState};
ghost use Rattle.save_build.specs.Told.{told_tree, AreFit, IsTold};

use crate::records::{builds_of, keeps_of, names_of};
use crate::trees::tree_of;
use save_state::State;
use std::alloc::Global;
use ws_durable::Durable;
use ws_elem::{ElemMap, NoMemory};

/// What the state tells against a base tree and a base shelf. None exactly where it tells nothing that can be kept: where
/// an element isn't one by itself, or what should be a name is none. Texts of what didn't change are shared with the
/// bases.
pub fn durable_of(
    alloc: Global,
    state: &State<'_>,
    base: &ElemMap,
    shelf: &ElemMap,
) -> Result<Option<Durable>, NoMemory>
    requires base { AreFit base.now.map }
    requires shelf { AreFit shelf.now.map }
    requires state { FitsState (told_tree base.now.map) (told_tree shelf.now.map) state.now }
    ensures { Finds (λ d. IsTold base.now.map shelf.now.map state.now (saved d)) result }
{
    let Some(partners) = names_of(alloc, state.partners.as_slice())? else {
        return Ok(None);
    };
    let Some(tree) = tree_of(alloc, base, state.tree.as_slice())? else {
        return Ok(None);
    };
    let Some(shelf) = tree_of(alloc, shelf, state.shelf.as_slice())? else {
        return Ok(None);
    };
    let Some(built) = builds_of(alloc, &tree, state.built.as_slice())? else {
        return Ok(None);
    };
    let Some(kept) = keeps_of(alloc, &tree, state.kept.as_slice())? else {
        return Ok(None);
    };
    Ok(Some(Durable {
        next_node: state.next_node,
        next_stamp: state.next_stamp,
        next_marker: state.next_marker,
        partners,
        tree,
        shelf,
        built,
        kept,
    }))
}
