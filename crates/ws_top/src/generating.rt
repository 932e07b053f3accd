//! The script that a number gives is told.
ghost use Rattle.std.specs.Prelude.{◌≡◌, [], None, IfOk};
ghost use Rattle.script_lang.specs.Scripts.{IsScript};
ghost use Rattle.script_gen.specs.Generated.{generated};
ghost use Rattle.ws_top.specs.Outcomes.{TellsScript};
ghost use Rattle.ws_top.specs.Texts.{generated_text};

use crate::NoMemory;
use crate::kit::{Areas, Kit};
use crate::response::{Outcome, tell, want};
use builder_api::Builder;
use save_parts::Listener;
use save_round::Participant;
use script_gen::generate;
use script_lang::print;
use std::alloc::Global;
use ws_outside::{Disk, Sink};

/// Tells the script that the number gives. Nothing is run.
pub fn tell_script<K: Sink, D: Disk, L: Listener, B: Builder, P: Participant>(
    alloc: Global,
    sink: &mut K,
    areas: Areas<D>,
    kit: Kit<L, B, P>,
    number: u32,
) -> Outcome<D, L, B, P>
    ensures tells { TellsScript number (K.written sink.old) (K.written sink.new) (K.faults sink.old) (K.faults sink.new) result.status }
    ensures nothing { result.history ≡ [] }
    ensures none { result.kept ≡ None }
    ensures areas { result.areas ≡ areas }
    ensures kit { result.kit ≡ kit }
{
    match text_of(alloc, number) {
        Ok(text) => tell(alloc, sink, areas, kit, text.as_slice()),
        Err(_) => want(alloc, sink, areas, kit),
    }
}

/// The text of the script that the number gives.
#[tactic(auto, unfolding(crate::specs::Texts::generated_text))]
fn text_of(alloc: Global, number: u32) -> Result<Vec<u8>, NoMemory>
    ensures text { IfOk result (λ text. text.items ≡ generated_text number) }
    ensures back { IfOk result (λ text. IsScript text.items (generated number)) }
{
    let script = generate(alloc, number)?;
    print(alloc, &script)
}
