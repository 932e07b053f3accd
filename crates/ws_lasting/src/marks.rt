//! Built records and kept states as they are saved.
ghost use Rattle.std.specs.Prelude.{◌≡◌, ℕ, List, Some, None, IfOk};
ghost use Rattle.std.specs.Option.{option_map};
ghost use Rattle.proj_desc.specs.Canonical.{IsCommandText, command_text, commanded};
ghost use Rattle.proj_desc.specs.Causes.{command_cause};
ghost use Rattle.ws_durable.specs.Saved.{saved_built, saved_kept};
ghost use Rattle.ws_lasting.specs.Lasting.{lasting};
ghost use Rattle.ws_lasting.specs.Saved.{lasting_record, lasting_state, record_with, state_with};

use crate::NoMemory;
use crate::trees::lasting;
use bytes::Bytes;
use proj_desc::Command;
use std::alloc::Global;
use ws_durable::{Built, Kept, Names};
use ws_elem::ElemMap;
use ws_marks::{Record, State};

/// What lasts of the record whose tree this is: its command as the canonical text, which tells it again, and the tree
/// without transient markers. Names are shared.
pub fn lasting_record<M>(alloc: Global, of: &Record<M>, tree: ElemMap) -> Result<Built, NoMemory>
    ensures saved { IfOk result (λ built. saved_built built ≡ lasting_record (record_with tree.map of.now)) }
    ensures valid { command_cause of.now.project of.now.command ≡ None
        → IfOk result (λ built. IsCommandText of.now.project built.command) }
    ensures back { command_cause of.now.project of.now.command ≡ None
        → IfOk result (λ built. commanded built.command ≡ Some of.now.command) }
{
    Ok(Built {
        project: of.project.copy()?,
        index: of.index,
        command: text_of(alloc, &of.command)?,
        references: Names::of(of.references.copy()?.into_vec()),
        tree: lasting(alloc, tree)?,
    })
}

/// The command's canonical text.
fn text_of(alloc: Global, command: &Command) -> Result<Bytes, NoMemory>
    ensures text { IfOk result (λ text. text ≡ command_text command.now) }
    ensures valid { IfOk result (λ text. (project : List ℕ) → command_cause project command.now ≡ None
        → IsCommandText project text) }
    ensures back { IfOk result (λ text. (project : List ℕ) → command_cause project command.now ≡ None
        → commanded text ≡ Some command.now) }
{
    let text = command.text(alloc)?;
    Ok(Bytes::from_vec(text)?)
}

/// What lasts of the kept state whose tree this is, if it has one: the tree without transient markers. Texts are shared.
pub fn lasting_state<M>(
    alloc: Global,
    state: &State<M>,
    tree: Option<ElemMap>,
) -> Result<Kept, NoMemory>
    ensures { IfOk result (λ kept. saved_kept kept ≡ lasting_state (state_with (option_map (λ t. t.map) tree) state.now)) }
{
    Ok(Kept {
        participant: state.participant.copy()?,
        bytes: state.bytes.clone()?,
        tree: lasting_if(alloc, tree)?,
    })
}

fn lasting_if(alloc: Global, tree: Option<ElemMap>) -> Result<Option<ElemMap>, NoMemory>
    ensures { IfOk result (λ t. option_map (λ x. x.map) t ≡ option_map (λ x. lasting x.map) tree) }
{
    match tree {
        None => Ok(None),
        Some(tree) => Ok(Some(lasting(alloc, tree)?)),
    }
}
