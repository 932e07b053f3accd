//! Whether names, built records and kept states can be told.
ghost use Rattle.std.specs.Prelude.{◌≡◌, ◌↔◌, ◌<◌, ◌^◌, true, length, map, None, IsTrue, IfOk, IfSome};
ghost use Rattle.std.specs.List.{AllByRecursion};
ghost use Rattle.std.specs.Option.{option_copied, option_map};
ghost use Rattle.ws_durable.specs.Saved.{saved_built, saved_kept, SavedKept};
ghost use Rattle.save_form.specs.Laws.{FitEach};
ghost use Rattle.save_form.specs.Lists.{is_above};
ghost use Rattle.save_elem.specs.Elems.{is_name_below};
ghost use Rattle.save_state.specs.States.{is_project_from, is_built_above};
ghost use Rattle.save_read.specs.Sayable.{AreSayableNames, key_of, IsSayableBuilt, IsSayableKept};
ghost use Rattle.save_check.specs.Inside.Tellable.{AreInRange};

use crate::trees::{is_kept_tree_sayable, is_tree_sayable};
use res_path::Name;
use std::cmp::Ordering;
use ws_durable::{Built, Kept};
use ws_elem::NoMemory;

/// Whether a list may have so many items, or a text so many bytes.
pub fn is_short(count: usize) -> bool
    ensures { IsTrue result ↔ (count < 2 ^ 32) }
{
    count < 1 << 32
}

/// Whether there are fewer than 2^32 names.
pub fn are_names_sayable(names: &[Name]) -> bool
    ensures { IsTrue result ↔ AreSayableNames names.now }
{
    for name in names {
        // Its text tells that it is a name.
        let _text = name.text();
    }
    is_short(names.len())
}

fn is_below(one: &Name, other: &Name) -> bool
    ensures { result ≡ is_name_below one.now other.now }
{
    one.cmp(other) == Ordering::Less
}

fn is_project_from(before: Option<&Built>, project: &Name) -> bool
    ensures { result ≡ is_project_from (option_map key_of (option_map saved_built (option_copied before.entry))) project.now }
{
    match before {
        None => true,
        Some(before) => !is_below(project, &before.project),
    }
}

fn is_built_above(before: Option<&Built>, of: &Built) -> bool
    ensures { result ≡ is_built_above (option_map key_of (option_map saved_built (option_copied before.entry))) (of.now.project, of.now.index) }
{
    match before {
        None => true,
        Some(before) => {
            is_below(&before.project, &of.project)
                || (before.project == of.project && before.index < of.index)
        }
    }
}

fn is_built_sayable(before: Option<&Built>, of: &Built) -> Result<bool, NoMemory>
    requires { AreInRange of.now.tree.map }
    ensures { IfOk result (λ is. IsTrue is ↔ IsSayableBuilt (option_map saved_built (option_copied before.entry)) (saved_built of.now)) }
{
    // Its text tells that the project is a name, and its type that the index has 16 bits.
    let _project = of.project.text();
    let _index = of.index;
    let tree = is_tree_sayable(&of.tree)?;
    let names = are_names_sayable(of.references.as_slice());
    let rises = is_project_from(before, &of.project) && is_built_above(before, of);
    Ok(rises && is_short(of.command.len()) && names && tree)
}

fn is_each_built_sayable(built: &[Built]) -> Result<bool, NoMemory>
    requires { AllByRecursion (λ b. AreInRange b.tree) (map saved_built built.now) }
    ensures { IfOk result (λ is. IsTrue is ↔ FitEach IsSayableBuilt None (map saved_built built.now)) }
{
    let mut before = None;
    let mut rest = built;
    while let Some((of, others)) = rest.split_first() {
        if !is_built_sayable(before, of)? {
            return Ok(false);
        }
        before = Some(of);
        rest = others;
    }
    Ok(true)
}

/// Whether the built records can be told: they rise by project and index, and each can be told by itself.
pub fn are_builds_sayable(built: &[Built]) -> Result<bool, NoMemory>
    requires { AllByRecursion (λ b. AreInRange b.tree) (map saved_built built.now) }
    ensures { IfOk result (λ is. IsTrue is ↔ ((length (map saved_built built.now) < 2 ^ 32) × FitEach IsSayableBuilt None (map saved_built built.now))) }
{
    let each = is_each_built_sayable(built)?;
    Ok(is_short(built.len()) && each)
}

fn is_kept_above(before: Option<&Kept>, of: &Kept) -> bool
    ensures { result ≡ is_above is_name_below (option_map (λ (x : SavedKept). x.participant) (option_map saved_kept (option_copied before.entry))) of.now.participant }
{
    match before {
        None => true,
        Some(before) => is_below(&before.participant, &of.participant),
    }
}

fn is_kept_sayable(before: Option<&Kept>, of: &Kept) -> Result<bool, NoMemory>
    requires { IfSome (saved_kept of.now).tree AreInRange }
    ensures { IfOk result (λ is. IsTrue is ↔ IsSayableKept (option_map saved_kept (option_copied before.entry)) (saved_kept of.now)) }
{
    // Its text tells that the participant is a name.
    let _participant = of.participant.text();
    let tree = is_kept_tree_sayable(of.tree.as_ref())?;
    Ok(is_kept_above(before, of) && is_short(of.bytes.len()) && tree)
}

fn is_each_kept_sayable(kept: &[Kept]) -> Result<bool, NoMemory>
    requires { AllByRecursion (λ k. IfSome k.tree AreInRange) (map saved_kept kept.now) }
    ensures { IfOk result (λ is. IsTrue is ↔ FitEach IsSayableKept None (map saved_kept kept.now)) }
{
    let mut before = None;
    let mut rest = kept;
    while let Some((of, others)) = rest.split_first() {
        if !is_kept_sayable(before, of)? {
            return Ok(false);
        }
        before = Some(of);
        rest = others;
    }
    Ok(true)
}

/// Whether the kept states can be told: they rise by participant, and each can be told by itself.
pub fn are_keeps_sayable(kept: &[Kept]) -> Result<bool, NoMemory>
    requires { AllByRecursion (λ k. IfSome k.tree AreInRange) (map saved_kept kept.now) }
    ensures { IfOk result (λ is. IsTrue is ↔ ((length (map saved_kept kept.now) < 2 ^ 32) × FitEach IsSayableKept None (map saved_kept kept.now))) }
{
    let each = is_each_kept_sayable(kept)?;
    Ok(is_short(kept.len()) && each)
}
