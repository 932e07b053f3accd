//! Images and records, both ways.
ghost use Rattle.std.specs.Prelude.{◌≡◌, ◌↔◌, ◌++◌, ℕ, List, [], Err, IsTrue, IfOk, MatchResult};
ghost use Rattle.std.specs.FinMap.{empty};
ghost use Rattle.ws_durable.specs.Saved.{Saved, saved};
ghost use Rattle.save_text.specs.Telling.{IsNarrowState};
ghost use Rattle.save_text.specs.Inside.Told.{told_state};
ghost use Rattle.save_read.specs.Texts.{IsSpelled, StopsAt, IsText};
ghost use Rattle.save_read.specs.Sayable.{IsSayable, IsSayableTree};
ghost use Rattle.save_read.specs.declared.error.ReadError.TheVariants as error;
ghost use Rattle.save_read.specs.declared.error.TextCause.TheVariants.{BadText, BadState};
ghost use Rattle.save_build.specs.Told.{AreFit};
ghost use Rattle.save_format.specs.Valid.{IsLawful, Valid, IsImage, IsRecord};

use crate::lawful::is_lawful;
use save_read::{ReadError, TextCause, read_text, text_of};
use save_text::is_narrow;
use std::alloc::Global;
use ws_durable::Durable;
use ws_elem::{ElemMap, NoMemory};

fn read_lawful(
    alloc: Global,
    base: &ElemMap,
    shelf: &ElemMap,
    body: &[u8],
) -> Result<Durable, ReadError>
    requires base { AreFit base.now.map }
    requires shelf { AreFit shelf.now.map }
    ensures ok { IfOk result (λ d. IsLawful (saved d) × IsText base.now.map shelf.now.map (saved d) body.now) }
    ensures all { (d : Saved) → IsLawful d → IsText base.now.map shelf.now.map d body.now → MatchResult result (λ e. saved e ≡ d) (λ e. e ≡ error.Memory) }
    ensures text { (at : ℕ) → result ≡ Err (error.Bad at BadText) → StopsAt base.now.map shelf.now.map body.now at }
    ensures state { (at : ℕ) → result ≡ Err (error.Bad at BadState) → at ≡ 0 }
    ensures spelled { (at : ℕ) → result ≡ Err (error.Bad at BadState) → IsSpelled base.now.map shelf.now.map body.now }
{
    let durable = read_text(alloc, base, shelf, body)?;
    if !is_lawful(alloc, &durable)? {
        return Err(ReadError::Bad {
            at: 0,
            cause: TextCause::BadState,
        });
    }
    Ok(durable)
}

/// The image of a state that is valid: its text against nothing. It is the only one, and no other image begins with it.
pub fn image(alloc: Global, durable: &Durable) -> Result<Vec<u8>, NoMemory>
    requires { Valid (saved durable.now) }
    ensures text { IfOk result (λ bytes. IsImage (saved durable.now) bytes.items) }
    ensures one { IfOk result (λ bytes. (other : List ℕ) → IsImage (saved durable.now) other → other ≡ bytes.items) }
    ensures prefix { IfOk result (λ bytes. (other : Saved) (rest : List ℕ) → IsImage other (bytes.items ++ rest) → (rest ≡ []) × (other ≡ saved durable.now)) }
{
    let nothing = ElemMap::empty(alloc);
    text_of(alloc, &nothing, &nothing, durable)
}

/// The valid state whose image these bytes are. Refused with `BadText` at the first place at which they can't go on, which is
/// their end where they are too few; and with `BadState` at 0 where they tell no valid state.
pub fn read_image(alloc: Global, body: &[u8]) -> Result<Durable, ReadError>
    ensures ok { IfOk result (λ d. IsImage (saved d) body.now) }
    ensures all { (d : Saved) → IsImage d body.now → MatchResult result (λ e. saved e ≡ d) (λ e. e ≡ error.Memory) }
    ensures text { (at : ℕ) → result ≡ Err (error.Bad at BadText) → StopsAt empty empty body.now at }
    ensures state { (at : ℕ) → result ≡ Err (error.Bad at BadState) → at ≡ 0 }
    ensures spelled { (at : ℕ) → result ≡ Err (error.Bad at BadState) → IsSpelled empty empty body.now }
{
    let nothing = ElemMap::empty(alloc);
    read_lawful(alloc, &nothing, &nothing, body)
}

/// The record of a state that is valid: its text against the tree and the shelf of the state before it. It is the only one,
/// and no other record against that state begins with it.
pub fn record(alloc: Global, before: &Durable, now: &Durable) -> Result<Vec<u8>, NoMemory>
    requires before { Valid (saved before.now) }
    requires now { Valid (saved now.now) }
    ensures text { IfOk result (λ bytes. IsRecord (saved before.now) (saved now.now) bytes.items) }
    ensures one { IfOk result (λ bytes. (other : List ℕ) → IsRecord (saved before.now) (saved now.now) other → other ≡ bytes.items) }
    ensures prefix { IfOk result (λ bytes. (other : Saved) (rest : List ℕ) → IsRecord (saved before.now) other (bytes.items ++ rest) → (rest ≡ []) × (other ≡ saved now.now)) }
{
    text_of(alloc, &before.tree, &before.shelf, now)
}

/// The valid state whose record these bytes are, against the state before it. Refused as `read_image` refuses.
pub fn read_record(alloc: Global, before: &Durable, body: &[u8]) -> Result<Durable, ReadError>
    requires { Valid (saved before.now) }
    ensures ok { IfOk result (λ d. IsRecord (saved before.now) (saved d) body.now) }
    ensures all { (d : Saved) → IsRecord (saved before.now) d body.now → MatchResult result (λ e. saved e ≡ d) (λ e. e ≡ error.Memory) }
    ensures text { (at : ℕ) → result ≡ Err (error.Bad at BadText) → StopsAt before.now.tree.map before.now.shelf.map body.now at }
    ensures state { (at : ℕ) → result ≡ Err (error.Bad at BadState) → at ≡ 0 }
    ensures spelled { (at : ℕ) → result ≡ Err (error.Bad at BadState) → IsSpelled before.now.tree.map before.now.shelf.map body.now }
{
    read_lawful(alloc, &before.tree, &before.shelf, body)
}

/// Whether every text of the state's image has fewer than 2^32 bytes, and every list fewer than 2^32 items. It takes no
/// memory.
pub fn narrow(alloc: Global, durable: &Durable) -> bool
    ensures { IsTrue result ↔ IsNarrowState (told_state empty empty durable.now) }
{
    let nothing = ElemMap::empty(alloc);
    is_narrow(&nothing, &nothing, durable)
}
