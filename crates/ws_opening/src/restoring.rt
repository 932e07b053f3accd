//! Participants get back what they kept, and what they got is told.
ghost use Rattle.std.specs.Prelude.{◌≡◌, ◌⊎◌, ◌++◌, map, IfOk, OnOk, OnErr};
ghost use Rattle.std.specs.Option.{option_copied};
ghost use Rattle.save_round.specs.Restoring.{HasStoppedRestoring, WereRestored};
ghost use Rattle.ws_opening.specs.Restored.{restored_one, restored_of};

use crate::NoMemory;
use delta_kind::Delta;
use res_path::Name;
use save_round::{KeptState, Participant, Participants, kept_for, restore_all};
use std::alloc::Global;

/// What a participant got back.
#[derive(Drop)]
pub struct Restored {
    pub name: Name,
    /// What changed since it was kept, where the participant asked for that.
    pub delta: Option<Delta>,
}

/// Each participant that is the first of its name, and under whose name something is kept, gets that, once, in the
/// participants' order, and what they got is told. Refused where memory wanted for what is told, and then none was called; or
/// where one of them wanted memory, and then those before it got theirs, and no later one was called.
pub fn give_back<P: Participant>(
    alloc: Global,
    parts: &mut Participants<P>,
    kept: &[KeptState],
) -> Result<Vec<Restored>, NoMemory>
    ensures told { IfOk result (λ told. told.items ≡ restored_of kept.now (map (λ p. P.tells p) parts.old)) }
    ensures restored { OnOk result (WereRestored kept.now (map (λ p. P.tells p) parts.old) (map (λ p. P.tells p) parts.new)) }
    ensures stopped { OnErr result ((parts.new ≡ parts.old) ⊎ HasStoppedRestoring kept.now (map (λ p. P.tells p) parts.old) (map (λ p. P.tells p) parts.new)) }
{
    // It is told first, so that nothing can want once a participant was called but what that one wants.
    let told = restored_of(alloc, &*parts, kept)?;
    restore_all(parts, kept)?;
    Ok(told)
}

/// What these participants get back, in their order: of each that is the first of its name and under whose name something is
/// kept.
pub fn restored_of<P: Participant>(
    alloc: Global,
    parts: &Participants<P>,
    kept: &[KeptState],
) -> Result<Vec<Restored>, NoMemory>
    ensures { IfOk result (λ told. told.items ≡ restored_of kept.now (map (λ p. P.tells p) parts.now)) }
{
    let mut told = Vec::new(alloc);
    for at in 0..parts.as_slice().len() {
        put(&mut told, kept_for(parts, kept, at))?;
    }
    Ok(told)
}

/// One more is told, if something is kept for it.
fn put(told: &mut Vec<Restored>, kept: Option<&KeptState>) -> Result<(), NoMemory>
    ensures { OnOk result (told.new.items ≡ told.old.items ++ restored_one (option_copied kept.entry)) }
{
    match kept {
        Some(state) => {
            told.push(copied(state)?)?;
            Ok(())
        }
        None => Ok(()),
    }
}

/// What is told of a state that is given back.
fn copied(state: &KeptState) -> Result<Restored, NoMemory>
    ensures { IfOk result (λ told. told ≡ record { name = state.now.name; delta = state.now.delta }) }
{
    let name = state.name.copy()?;
    let delta = copied_delta(state.delta.as_ref())?;
    Ok(Restored { name, delta })
}

/// What changed, if that is told.
fn copied_delta(delta: Option<&Delta>) -> Result<Option<Delta>, NoMemory>
    ensures { IfOk result (λ copy. copy ≡ option_copied delta.entry) }
{
    match delta {
        Some(delta) => Ok(Some(delta.copy()?)),
        None => Ok(None),
    }
}
