//! What became of each path since a mark.
ghost use Rattle.std.specs.Prelude.{◌≡◌, ◌+◌, ◌≤◌, [], IfOk, OnOk};
ghost use Rattle.std.specs.Option.{option_copied};
ghost use Rattle.std.specs.FinMap as map;
ghost use Rattle.layer_log.specs.Records.{Leads};
ghost use Rattle.elem_tree.specs.Layers.{tree_before, records};
ghost use Rattle.elem_tree.specs.Inside.Gathered.{Gathers, GathersAll, gathered_at};
ghost use Rattle.elem_tree.specs.Inside.Shown.{shown_all, with_current};
ghost use Rattle.elem_tree.specs.Inside.Slots.{befores_of, note_of};

use crate::NoMemory;
use crate::layer::Layer;
use crate::notes::Notes;
use crate::slot::Slot;
use layer_log::Changes;
use res_path::Path;
use std::alloc::Global;
use ws_elem::ElemMap;

/// What became of each path that the layers noted: its entry before the first of them, and its newest one.
pub(crate) fn changes_of(
    alloc: Global,
    layers: &[Layer],
    current: Option<&Layer>,
    newest: &ElemMap,
) -> Result<Changes, NoMemory>
    ensures leads { IfOk result (λ c. Leads (tree_before newest.now.map (shown_all (with_current layers.now (option_copied current.entry)))) c newest.now.map) }
    ensures most { IfOk result (λ c. map.len c ≤ records (shown_all (with_current layers.now (option_copied current.entry)))) }
{
    let mut changes = Changes::none(alloc);
    gather_layers(&mut changes, layers, newest)?;
    gather_current(&mut changes, current, newest)?;
    Ok(changes)
}

fn gather_current(
    changes: &mut Changes,
    current: Option<&Layer>,
    newest: &ElemMap,
) -> Result<(), NoMemory>
    ensures gathers { OnOk result (GathersAll changes.old changes.new (shown_all (with_current [] (option_copied current.entry))) newest.now.map) }
    ensures most { OnOk result (map.len changes.new ≤ map.len changes.old + records (shown_all (with_current [] (option_copied current.entry)))) }
{
    match current {
        Some(layer) => {
            gather_notes(changes, &layer.notes, newest)?;
            Ok(())
        }
        None => Ok(()),
    }
}

fn gather_layers(changes: &mut Changes, layers: &[Layer], newest: &ElemMap) -> Result<(), NoMemory>
    ensures gathers { OnOk result (GathersAll changes.old changes.new (shown_all layers.now) newest.now.map) }
    ensures most { OnOk result (map.len changes.new ≤ map.len changes.old + records (shown_all layers.now)) }
{
    let mut rest = layers;
    while let Some((first, others)) = rest.split_first() {
        gather_notes(changes, &first.notes, newest)?;
        rest = others;
    }
    Ok(())
}

/// Records each path that is noted and has no change yet.
fn gather_notes(changes: &mut Changes, notes: &Notes, newest: &ElemMap) -> Result<(), NoMemory>
    ensures gathers { OnOk result (Gathers changes.old changes.new (befores_of notes.now) newest.now.map) }
    ensures most { OnOk result (map.len changes.new ≤ map.len changes.old + map.len (befores_of notes.now)) }
{
    for (path, slot) in notes.iter() {
        gather_slot(changes, path, slot, newest)?;
    }
    Ok(())
}

fn gather_slot(
    changes: &mut Changes,
    path: &Path,
    slot: &Slot,
    newest: &ElemMap,
) -> Result<(), NoMemory>
    ensures { OnOk result (changes.new ≡ gathered_at changes.old path.now (note_of slot.now) (map.get newest.now.map path.now)) }
{
    let Slot::Noted(before) = slot else {
        return Ok(());
    };
    if changes.get(path).is_some() {
        return Ok(());
    }
    changes.record(path, before.as_ref(), newest.get(path))
}
