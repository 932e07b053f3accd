//! A state text, as it is read.

ghost use Rattle.std.specs.Prelude.{◌≡◌, ◌++◌, List, ℕ, Ok, Err, IfOk};
ghost use Rattle.save_form.specs.Forms.{read_all};
ghost use Rattle.save_form.specs.Gives.{Gives, GivesAll};
ghost use Rattle.save_form.specs.Laws.{IsFirst};
ghost use Rattle.save_form.specs.declared.stop.Stop.{Stop as StopValue};
ghost use Rattle.save_form.specs.declared.stop.Stuck.TheVariants.{At};
ghost use Rattle.save_state.specs.Fits.{FitsState};
ghost use Rattle.save_state.specs.States.{state};
ghost use Rattle.save_state.specs.declared.state.State.{State as StateRecord};

use crate::base::{Base, Changed};
use crate::change::read_changes;
use crate::records::{BuiltOf, KeptOf, Texts};
use crate::state::State;
use save_form::{Stuck, read_end, read_list, read_u64};
use std::alloc::Global;
use ws_wire::In;

#[tactic(auto, unfolding(crate::specs::States::state))]
fn read_fields<'a, B: Base, H: Base>(
    alloc: Global,
    input: &mut In<'a>,
    tree: &B,
    shelf: &H,
) -> Result<State<'a>, Stuck>
    ensures { Gives result input.new ((state (B.entries tree.now) (H.entries shelf.now)).read input.old) }
{
    let next_node = read_u64(input)?;
    let next_stamp = read_u64(input)?;
    let next_marker = read_u64(input)?;
    let partners = read_list(alloc, input, &Texts)?;
    let changes = read_changes(alloc, input, tree)?;
    let shelf = read_changes(alloc, input, shelf)?;
    let now = Changed::of(tree, changes.as_slice());
    let built = read_list(alloc, input, &BuiltOf { tree: &now })?;
    let kept = read_list(alloc, input, &KeptOf { tree: &now })?;
    Ok(State {
        next_node,
        next_stamp,
        next_marker,
        partners,
        tree: changes,
        shelf,
        built,
        kept,
    })
}

fn read_whole<'a, B: Base, H: Base>(
    alloc: Global,
    bytes: &'a [u8],
    tree: &B,
    shelf: &H,
) -> Result<State<'a>, Stuck>
    ensures { GivesAll result (read_all (state (B.entries tree.now) (H.entries shelf.now)) bytes.now) }
{
    let mut input = In::of(bytes);
    let read = read_fields(alloc, &mut input, tree, shelf)?;
    read_end(&input, read)
}

/// The state whose text these bytes are, against a base tree and a base shelf, or the first place at which they can't go
/// on. Texts are lent from the bytes; memory is taken for lists and paths that were read alone.
pub fn read_state<'a, B: Base, H: Base>(
    alloc: Global,
    bytes: &'a [u8],
    tree: &B,
    shelf: &H,
) -> Result<State<'a>, Stuck>
    ensures gives { GivesAll result (read_all (state (B.entries tree.now) (H.entries shelf.now)) bytes.now) }
    ensures found { IfOk result (λ s. FitsState (B.entries tree.now) (H.entries shelf.now) s
        × (bytes.now ≡ (state (B.entries tree.now) (H.entries shelf.now)).spell s)) }
    ensures only { (s : StateRecord) → FitsState (B.entries tree.now) (H.entries shelf.now) s
        → bytes.now ≡ (state (B.entries tree.now) (H.entries shelf.now)).spell s → GivesAll result (Ok s) }
    ensures longer { IfOk result (λ s. (t : StateRecord) (rest : List ℕ) → FitsState (B.entries tree.now) (H.entries shelf.now) t
        → (state (B.entries tree.now) (H.entries shelf.now)).spell t ≡ bytes.now ++ rest → t ≡ s) }
    ensures first { (stop : StopValue) → result ≡ Err (At stop) → IsFirst (state (B.entries tree.now) (H.entries shelf.now)) bytes.now stop }
{
    read_whole(alloc, bytes, tree, shelf)
}
