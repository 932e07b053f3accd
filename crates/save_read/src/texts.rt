//! The text, written and read against a base tree and a base shelf.
ghost use Rattle.std.specs.Prelude.{◌≡◌, ◌++◌, ℕ, List, [], Err, IfOk, IfErr, MatchOption, MatchResult};
ghost use Rattle.ws_durable.specs.Saved.{Saved, saved};
ghost use Rattle.save_elem.specs.Sound.{Finds};
ghost use Rattle.save_state.specs.Fits.{FitsState};
ghost use Rattle.save_state.specs.States.{state};
ghost use Rattle.save_state.specs.declared.state.State.{State as StateValue};
ghost use Rattle.save_build.specs.Told.{told_tree, AreFit, IsTold};
ghost use Rattle.save_read.specs.Sayable.{IsSayable, IsSayableTree, AreFew};
ghost use Rattle.save_read.specs.Texts.{stop_in, IsText, IsSpelled, StopsAt};
ghost use Rattle.save_read.specs.Inside.Stops.{Becomes, Stops};
ghost use Rattle.save_read.specs.declared.error.ReadError.TheVariants as error;
ghost use Rattle.save_read.specs.declared.error.TextCause.TheVariants.{BadText, BadState};

use crate::error::{ReadError, TextCause};
use crate::few::are_few;
use save_build::{BaseTree, durable_of};
use save_form::{Stop, Stuck};
use save_state::{State, read_state};
use save_text::put_state;
use std::alloc::Global;
use ws_durable::Durable;
use ws_elem::{ElemMap, NoMemory};
use ws_wire::Out;

/// The text of what is kept, against a base tree and a base shelf. Asks that all of it can be told. It is the only one, and
/// no other text begins with it.
pub fn text_of(
    alloc: Global,
    base: &ElemMap,
    shelf: &ElemMap,
    durable: &Durable,
) -> Result<Vec<u8>, NoMemory>
    requires base { IsSayableTree base.now.map }
    requires shelf { IsSayableTree shelf.now.map }
    requires durable { IsSayable (saved durable.now) }
    ensures text { IfOk result (λ bytes. IsText base.now.map shelf.now.map (saved durable.now) bytes.items) }
    ensures one { IfOk result (λ bytes. (other : List ℕ) → IsText base.now.map shelf.now.map (saved durable.now) other → other ≡ bytes.items) }
    ensures prefix { IfOk result (λ bytes. (other : Saved) (rest : List ℕ) → IsText base.now.map shelf.now.map other (bytes.items ++ rest)
        → (rest ≡ []) × (other ≡ saved durable.now)) }
{
    let mut out = Out::empty(alloc);
    put_state(&mut out, base, shelf, durable)?;
    Ok(out.into_vec())
}

/// The place at which a text can't go on: its end where its bytes are too few.
fn place_in(body: &[u8], stop: Stop) -> usize
    ensures { result ≡ stop_in body.now stop }
{
    match stop {
        Stop::Short(_) => body.len(),
        Stop::Bad(at) => at,
    }
}

fn error_of(body: &[u8], stuck: Stuck) -> ReadError
    ensures { Becomes body.now stuck result }
{
    match stuck {
        Stuck::At(stop) => ReadError::Bad {
            at: place_in(body, stop),
            cause: TextCause::BadText,
        },
        Stuck::Memory => ReadError::Memory,
    }
}

fn read_told<'a>(
    alloc: Global,
    base: &ElemMap,
    shelf: &ElemMap,
    body: &'a [u8],
) -> Result<State<'a>, ReadError>
    requires base { AreFit base.now.map }
    requires shelf { AreFit shelf.now.map }
    ensures found { IfOk result (λ s. FitsState (told_tree base.now.map) (told_tree shelf.now.map) s
        × (body.now ≡ (state (told_tree base.now.map) (told_tree shelf.now.map)).spell s)) }
    ensures only { (s : StateValue) → FitsState (told_tree base.now.map) (told_tree shelf.now.map) s
        → body.now ≡ (state (told_tree base.now.map) (told_tree shelf.now.map)).spell s → MatchResult result (λ t. t ≡ s) (λ e. e ≡ error.Memory) }
    ensures stops { IfErr result (λ e. Stops base.now.map shelf.now.map body.now e) }
{
    let base = BaseTree::of(base);
    let shelf = BaseTree::of(shelf);
    match read_state(alloc, body, &base, &shelf) {
        Ok(told) => Ok(told),
        Err(stuck) => Err(error_of(body, stuck)),
    }
}

fn build(
    alloc: Global,
    told: &State<'_>,
    base: &ElemMap,
    shelf: &ElemMap,
) -> Result<Option<Durable>, NoMemory>
    requires base { AreFit base.now.map }
    requires shelf { AreFit shelf.now.map }
    requires told { FitsState (told_tree base.now.map) (told_tree shelf.now.map) told.now }
    ensures { Finds (λ d. IsTold base.now.map shelf.now.map told.now (saved d) × AreFew (saved d)) result }
{
    match durable_of(alloc, told, base, shelf)? {
        None => Ok(None),
        Some(durable) => Ok(unless_many(durable)),
    }
}

fn unless_many(durable: Durable) -> Option<Durable>
    ensures { MatchOption result (AreFew (saved durable) → ⊥) (λ d. (d ≡ durable) × AreFew (saved d)) }
{
    if are_few(&durable) {
        Some(durable)
    } else {
        None
    }
}

/// What is kept whose text these bytes are, against a base tree and a base shelf. Refused with `BadText` at the first
/// place at which they can't go on, which is their end where they are too few; and with `BadState` at 0 where they tell
/// what can't be kept.
pub fn read_text(
    alloc: Global,
    base: &ElemMap,
    shelf: &ElemMap,
    body: &[u8],
) -> Result<Durable, ReadError>
    requires base { AreFit base.now.map }
    requires shelf { AreFit shelf.now.map }
    ensures ok { IfOk result (λ d. IsText base.now.map shelf.now.map (saved d) body.now) }
    ensures all { (d : Saved) → IsText base.now.map shelf.now.map d body.now → MatchResult result (λ e. saved e ≡ d) (λ e. e ≡ error.Memory) }
    ensures text { (at : ℕ) → result ≡ Err (error.Bad at BadText) → StopsAt base.now.map shelf.now.map body.now at }
    ensures state { (at : ℕ) → result ≡ Err (error.Bad at BadState) → at ≡ 0 }
    ensures spelled { (at : ℕ) → result ≡ Err (error.Bad at BadState) → IsSpelled base.now.map shelf.now.map body.now }
{
    let told = read_told(alloc, base, shelf, body)?;
    match build(alloc, &told, base, shelf)? {
        Some(durable) => Ok(durable),
        None => Err(ReadError::Bad {
            at: 0,
            cause: TextCause::BadState,
        }),
    }
}
