//! Layers whose mark is given up.
ghost use Rattle.std.specs.Prelude.{◌≡◌, ◌<◌, ◌+◌, length, [], None, OnOk, OnErr};
ghost use Rattle.std.specs.List.{remove};
ghost use Rattle.elem_tree.specs.Inside.Forgets.{AreSpared, Forgets, JoinsAt, notes_at, with_notes};
ghost use Rattle.elem_tree.specs.Inside.Shown.{EndedButLast, Rising, with_current};

use crate::NoMemory;
use crate::joining::join;
use crate::layer::{Layer, place_of, pop_current, push_current};
use crate::notes::Notes;
use std::alloc::{AllocError, Global};
use std::mem;

/// Gives the mark up, in the layers that ended and the current one. Where memory wants all keep what they kept.
pub(crate) fn forget_layer(
    alloc: Global,
    layers: &mut Vec<Layer>,
    current: &mut Option<Layer>,
    mark: u64,
) -> Result<(), NoMemory>
    requires first { current.old ≡ None → layers.old.items ≡ [] }
    requires rising { Rising (with_current layers.old.items current.old) }
    requires ended { EndedButLast (with_current layers.old.items current.old) }
    ensures first { current.new ≡ None → layers.new.items ≡ [] }
    ensures ok { OnOk result (Forgets mark (with_current layers.old.items current.old) (with_current layers.new.items current.new)) }
    ensures err { OnErr result (AreSpared (with_current layers.old.items current.old) (with_current layers.new.items current.new)) }
{
    push_current(layers, current)?;
    let forgotten = forget_mark(alloc, layers, mark);
    *current = pop_current(layers);
    forgotten
}

/// Gives the mark up: its layer is joined to the one before it, and the first is left out.
fn forget_mark(alloc: Global, layers: &mut Vec<Layer>, mark: u64) -> Result<(), NoMemory>
    requires rising { Rising layers.old.items }
    requires ended { EndedButLast layers.old.items }
    ensures ok { OnOk result (Forgets mark layers.old.items layers.new.items) }
    ensures err { OnErr result (AreSpared layers.old.items layers.new.items) }
{
    match place_of(layers.as_slice(), mark) {
        None => Ok(()),
        Some(0) => {
            remove(layers, 0);
            Ok(())
        }
        Some(place) => join_at(alloc, layers, place - 1),
    }
}

/// Joins the layer behind the place to the one at it. Where memory wants both keep what they kept.
pub(crate) fn join_at(alloc: Global, layers: &mut Vec<Layer>, place: usize) -> Result<(), NoMemory>
    requires place { place + 1 < length layers.old.items }
    requires ended { EndedButLast layers.old.items }
    ensures ok { OnOk result (JoinsAt place layers.old.items layers.new.items) }
    ensures err { OnErr result (AreSpared layers.old.items layers.new.items) }
{
    let later = replace(layers, place + 1, Notes::empty(alloc));
    let earlier = replace(layers, place, Notes::empty(alloc));
    match join(earlier, later) {
        Ok(both) => {
            drop(replace(layers, place, both));
            remove(layers, place + 1);
            Ok(())
        }
        Err((earlier, later)) => {
            drop(replace(layers, place, earlier));
            drop(replace(layers, place + 1, later));
            Err(AllocError)
        }
    }
}

/// Puts the notes in the place of those of the layer, which it gives.
fn replace(layers: &mut Vec<Layer>, place: usize, notes: Notes) -> Notes
    requires { place < length layers.old.items }
    ensures value { result ≡ notes_at layers.old.items place }
    ensures items { layers.new.items ≡ with_notes layers.old.items place notes }
{
    mem::replace(&mut layers[place].notes, notes)
}

fn remove(layers: &mut Vec<Layer>, place: usize)
    requires { place < length layers.old.items }
    ensures { layers.new.items ≡ remove layers.old.items place }
{
    drop(layers.remove(place));
}
