//! The bytes of one element alone.

ghost use Rattle.std.specs.Prelude.{◌≡◌, ◌++◌, List, ℕ, Ok, Err, IfOk};
ghost use Rattle.save_form.specs.Forms.{read_all};
ghost use Rattle.save_form.specs.Gives.{GivesAll};
ghost use Rattle.save_form.specs.Laws.{IsFirst};
ghost use Rattle.save_form.specs.declared.stop.Stop.{Stop as StopValue};
ghost use Rattle.save_form.specs.declared.stop.Stuck.TheVariants.{At};
ghost use Rattle.save_elem.specs.Elems.{elem};
ghost use Rattle.save_elem.specs.Fits.{FitsElem, InRange};
ghost use Rattle.save_elem.specs.Sound.{IsSound};
ghost use Rattle.save_elem.specs.Telling.{told, IsNarrow};
ghost use Rattle.save_elem.specs.declared.elem.Elem.{Elem as ElemRecord};

use crate::elem::Elem;
use crate::reading::read_elem;
use crate::writing::put_elem;
use save_form::{Stuck, read_end};
use std::alloc::Global;
use ws_elem::{Element, NoMemory};
use ws_wire::{In, Out};

/// The element's bytes, without its transient markers. What is sound by itself is read back from them.
#[tactic(auto, using(crate::proofs::Fitting::told_read))]
pub fn elem_bytes(alloc: Global, element: &Element) -> Result<Vec<u8>, NoMemory>
    requires { IsNarrow (told element.now) }
    ensures bytes { IfOk result (λ bytes. bytes.items ≡ elem.spell (told element.now)) }
    ensures back { IsSound element.now → InRange (told element.now) → IfOk result (λ bytes. read_all elem bytes.items ≡ Ok (told element.now)) }
{
    let mut out = Out::empty(alloc);
    put_elem(&mut out, element)?;
    Ok(out.into_vec())
}

/// The element whose bytes are all of these, or the first place at which they can't go on. Only its own bytes are read
/// as an element, and those of no other begin with them.
pub fn elem_of_bytes(alloc: Global, bytes: &[u8]) -> Result<Elem<'_>, Stuck>
    ensures gives { GivesAll result (read_all elem bytes.now) }
    ensures found { IfOk result (λ e. FitsElem e × (bytes.now ≡ elem.spell e)) }
    ensures only { (e : ElemRecord) → FitsElem e → bytes.now ≡ elem.spell e → GivesAll result (Ok e) }
    ensures longer { IfOk result (λ e. (f : ElemRecord) (rest : List ℕ) → FitsElem f → elem.spell f ≡ bytes.now ++ rest → f ≡ e) }
    ensures first { (stop : StopValue) → result ≡ Err (At stop) → IsFirst elem bytes.now stop }
{
    read_whole(alloc, bytes)
}

fn read_whole(alloc: Global, bytes: &[u8]) -> Result<Elem<'_>, Stuck>
    ensures { GivesAll result (read_all elem bytes.now) }
{
    let mut input = In::of(bytes);
    let elem = read_elem(alloc, &mut input)?;
    read_end(&input, elem)
}
