//! Marks, and what was recorded since each.
ghost use Rattle.std.specs.Prelude.{◌≡◌, ◌≤◌, nat_lt, length, take, drop, [], None, OnOk, OnErr, IfSome, IfNone};
ghost use Rattle.elem_tree.specs.Inside.Shown.{AllBelow, IsCut, NoneBelow, Rising, with_current, closed_layer};
ghost use Rattle.elem_tree.specs.Inside.Forgets.{MarkAt, NoMark};

use crate::NoMemory;
use crate::notes::Notes;
use res_path::Path;
use std::marker::Model;

/// A mark of a tree: the tree as it was remembered then. A contract sees its number, which no other mark of the same
/// tree has or had.
#[derive(Debug, Drop)]
pub struct Mark {
    pub(crate) number: u64,
}

impl Model for Mark {
    ghost use Rattle.std.specs.Prelude.{ℕ};
    ghost use Rattle.std.specs.Coded.{coded_ℕ};

    ghost Value = { ℕ };

    ghost coded = { coded_ℕ };

    ghost view = { λ m. m.number };
}

impl Mark {
    pub(crate) fn number(&self) -> u64
        ensures { result ≡ self.now }
    {
        self.number
    }
}

/// What was recorded since a mark, up to the next one.
#[derive(Debug, Drop)]
pub(crate) struct Layer {
    pub(crate) mark: u64,
    pub(crate) notes: Notes,
}

/// How many layers stand before the mark's own, if it has one.
pub(crate) fn count_before(layers: &[Layer], mark: u64) -> usize
    requires { Rising layers.now }
    ensures bound { result ≤ length layers.now }
    ensures before { AllBelow mark (take result layers.now) }
    ensures from { NoneBelow mark (drop result layers.now) }
{
    layers.partition_point(
        |layer: &Layer| -> bool
            ensures { result ≡ nat_lt layer.now.mark mark }
        { layer.mark < mark },
    )
}

/// The place of the mark's own layer, if it has one.
pub(crate) fn place_of(layers: &[Layer], mark: u64) -> Option<usize>
    requires { Rising layers.now }
    ensures at { IfSome result (λ n. MarkAt mark n layers.now) }
    ensures none { IfNone result (NoMark mark layers.now) }
{
    let place = count_before(layers, mark);
    match layers.get(place) {
        Some(layer) if layer.mark == mark => Some(place),
        _ => None,
    }
}

/// The layers from the mark's own on, if it has one.
pub(crate) fn layers_from(layers: &[Layer], mark: u64) -> &[Layer]
    requires { Rising layers.now }
    ensures { IsCut mark layers.now result.now }
{
    let count = count_before(layers, mark);
    layers.split_at(count).1
}

/// The current layer, if there is one, comes behind the others.
pub(crate) fn push_current(
    layers: &mut Vec<Layer>,
    current: &mut Option<Layer>,
) -> Result<(), NoMemory>
    ensures ok { OnOk result (layers.new.items ≡ with_current layers.old.items current.old) }
    ensures err { OnErr result (layers.new.items ≡ layers.old.items) }
    ensures same { OnErr result (current.new ≡ current.old) }
{
    layers.reserve(1)?;
    if let Some(layer) = current.take() {
        layers.push_reserved(layer);
    }
    Ok(())
}

/// The last layer, if there is one, is the current one.
pub(crate) fn pop_current(layers: &mut Vec<Layer>) -> Option<Layer>
    ensures items { layers.old.items ≡ with_current layers.new.items result }
    ensures none { IfNone result (layers.new.items ≡ []) }
{
    layers.pop()
}

/// Ends the current layer, if there is one: the entries that are ready go.
pub(crate) fn end_layer(
    layers: &mut Vec<Layer>,
    current: &mut Option<Layer>,
    roomy: &[Path],
) -> Result<(), NoMemory>
    ensures ok { OnOk result (layers.new.items ≡ with_current layers.old.items (closed_layer roomy.now current.old)) }
    ensures current { OnOk result (current.new ≡ None) }
    ensures err { OnErr result (layers.new.items ≡ layers.old.items) }
    ensures same { OnErr result (current.new ≡ current.old) }
{
    layers.reserve(1)?;
    if let Some(layer) = current.take() {
        let mut layer = layer;
        layer.notes.close_all(roomy);
        layers.push_reserved(layer);
    }
    Ok(())
}
