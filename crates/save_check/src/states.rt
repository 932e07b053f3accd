//! Whether a state may be saved.
ghost use Rattle.std.specs.Prelude.{◌↔◌, IsTrue, IfOk};
ghost use Rattle.std.specs.FinMap.{empty};
ghost use Rattle.ws_durable.specs.Saved.{saved};
ghost use Rattle.save_text.specs.Telling.{IsNarrowState};
ghost use Rattle.save_text.specs.Inside.Told.{told_state};
ghost use Rattle.save_read.specs.Sayable.{IsSayable};
ghost use Rattle.save_format.specs.Valid.{Valid};
ghost use Rattle.save_check.specs.Inside.Tellable.{IsInRange};

use crate::records::{are_builds_sayable, are_keeps_sayable, are_names_sayable, is_short};
use crate::trees::is_tree_sayable;
use save_format::{is_lawful, narrow};
use std::alloc::Global;
use ws_durable::Durable;
use ws_elem::NoMemory;

fn hold_all(partners: bool, tree: bool, shelf: bool, built: bool, kept: bool) -> bool
    ensures { IsTrue result ↔ (IsTrue partners × IsTrue tree × IsTrue shelf × IsTrue built × IsTrue kept) }
{
    partners && tree && shelf && built && kept
}

/// Whether the state can be told in a text. It asks that its numbers have room in their fields.
fn is_sayable(durable: &Durable) -> Result<bool, NoMemory>
    requires { IsInRange (saved durable.now) }
    ensures { IfOk result (λ is. IsTrue is ↔ IsSayable (saved durable.now)) }
{
    let partners = are_names_sayable(durable.partners.as_slice());
    let tree = is_tree_sayable(&durable.tree)?;
    let shelf = is_tree_sayable(&durable.shelf)?;
    let built = are_builds_sayable(durable.built.as_slice())?;
    let kept = are_keeps_sayable(durable.kept.as_slice())?;
    Ok(hold_all(partners, tree, shelf, built, kept))
}

/// Whether the state is valid: it can be told, and keeps all rules of what may be kept. Takes time that grows with the size
/// of the state, and memory for the numbers, names and contents that it compares.
pub fn is_valid(alloc: Global, durable: &Durable) -> Result<bool, NoMemory>
    ensures { IfOk result (λ is. IsTrue is ↔ Valid (saved durable.now)) }
{
    if !is_short(durable.partners.as_slice().len()) {
        return Ok(false);
    }
    if !is_lawful(alloc, durable)? {
        return Ok(false);
    }
    is_sayable(durable)
}

/// Whether the state may be given to a store to be saved: where it is narrow, so that an image can tell it, it is valid.
pub fn may_be_saved(alloc: Global, durable: &Durable) -> Result<bool, NoMemory>
    ensures { IfOk result (λ may. IsTrue may ↔ (IsNarrowState (told_state empty empty durable.now) → Valid (saved durable.now))) }
{
    if !narrow(alloc, durable) {
        return Ok(true);
    }
    is_valid(alloc, durable)
}
