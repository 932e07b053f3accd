//! One call of each participant, one after another.
ghost use Rattle.std.specs.Prelude.{◌≡◌, ◌∷◌, [], ◌++◌, ◌<◌, ◌≤◌, ◌⊎◌, true, length, map, Ok, Err, Some, None, IfOk, IfErr, IsErr, IsSome, slice_get};
ghost use Rattle.std.specs.List.{list_any};
ghost use Rattle.std.specs.Str.{bytes_eq};
ghost use Rattle.save_round.specs.Told.{Prepared, Saving, WasCalled, HasRisen, HasRisenAt};
ghost use Rattle.save_round.specs.Firsts.{firsts, FirstsHad, by_place};
ghost use Rattle.save_round.specs.Rounds.{HaveAnswered, named_state};
ghost use Rattle.save_round.specs.Passes.{ending_call, WerePrepared, WereAsked};

use crate::{PartFault, Participant};
use res_path::{Name, NoMemory, PathError};
use save_kind::{PartState, SaveKind};
use std::alloc::{AllocError, Global};

/// How a participant's round ends.
#[derive(Clone, Copy)]
pub(crate) enum Ending {
    Done,
    RolledBack,
}

/// Where a pass stopped, and why.
#[derive(Clone, Copy)]
pub(crate) struct Stop {
    pub place: usize,
    pub fault: PartFault,
}

/// Each that is the first of its name is prepared, up to one that answers a fault.
pub(crate) fn prepare_each<P: Participant>(all: &mut Vec<P>, kind: SaveKind) -> Result<(), Stop>
    ensures prepared { IfOk result (λ done. FirstsHad (λ place. Prepared kind (Ok done) ∷ []) (map (λ p. P.tells p) all.old.items) (map (λ p. P.tells p) all.new.items)) }
    ensures stopped { IfErr result (λ stop. WerePrepared kind stop (map (λ p. P.tells p) all.old.items) (map (λ p. P.tells p) all.new.items)) }
{
    for at in 0..all.len() {
        match prepare_at(all, at, kind) {
            Ok(()) => {}
            Err(fault) => return Err(Stop { place: at, fault }),
        }
    }
    Ok(())
}

/// Each that is the first of its name is asked for its state, up to one that answers a fault, or whose state can't be
/// kept for want of memory.
pub(crate) fn ask_each<P: Participant>(
    alloc: Global,
    all: &mut Vec<P>,
    kind: SaveKind,
) -> Result<Vec<(Name, PartState)>, Stop>
    ensures answered { IfOk result (λ states. HaveAnswered kind states.items (map (λ p. P.tells p) all.old.items) (map (λ p. P.tells p) all.new.items)) }
    ensures stopped { IfErr result (λ stop. WereAsked kind stop (map (λ p. P.tells p) all.old.items) (map (λ p. P.tells p) all.new.items)) }
{
    let mut states = Vec::new(alloc);
    for at in 0..all.len() {
        match ask_at(all, at, kind) {
            Ok(answered) => {
                if keep(alloc, &all[at], answered, &mut states).is_err() {
                    return Err(Stop {
                        place: at,
                        fault: PartFault::Memory,
                    });
                }
            }
            Err(fault) => return Err(Stop { place: at, fault }),
        }
    }
    Ok(states)
}

/// The round ends for each that is the first of its name and stands before the place.
pub(crate) fn end_before<P: Participant>(all: &mut Vec<P>, to: usize, ending: Ending)
    requires { to ≤ length all.old.items }
    ensures { FirstsHad (by_place to (ending_call ending ∷ []) [] []) (map (λ p. P.tells p) all.old.items) (map (λ p. P.tells p) all.new.items) }
{
    for at in 0..to {
        end_at(all, at, ending);
    }
}

/// The participant at the place is prepared, where it is the first of its name.
fn prepare_at<P: Participant>(all: &mut Vec<P>, at: usize, kind: SaveKind) -> Result<(), PartFault>
    requires { at < length all.old.items }
    ensures called { FirstsHad (by_place at [] (Prepared kind result ∷ []) []) (map (λ p. P.tells p) all.old.items) (map (λ p. P.tells p) all.new.items) }
    ensures first { IsErr result → slice_get (firsts (map (λ p. P.tells p) all.old.items)) at ≡ Some true }
    ensures failed { result ≡ Err PartFault.Failed → HasRisenAt at (map (λ p. P.tells p) all.old.items) (map (λ p. P.tells p) all.new.items) }
{
    if is_first(all.as_slice(), at) {
        prepare_one(&mut all[at], kind)
    } else {
        Ok(())
    }
}

/// What the participant at the place answers when it is asked for its state; None where it isn't the first of its name.
fn ask_at<P: Participant>(
    all: &mut Vec<P>,
    at: usize,
    kind: SaveKind,
) -> Result<Option<PartState>, PartFault>
    requires { at < length all.old.items }
    ensures called { FirstsHad (by_place at [] (Saving kind result ∷ []) []) (map (λ p. P.tells p) all.old.items) (map (λ p. P.tells p) all.new.items) }
    ensures first { (result ≡ Ok None) ⊎ (slice_get (firsts (map (λ p. P.tells p) all.old.items)) at ≡ Some true) }
    ensures failed { result ≡ Err PartFault.Failed → HasRisenAt at (map (λ p. P.tells p) all.old.items) (map (λ p. P.tells p) all.new.items) }
{
    if is_first(all.as_slice(), at) {
        ask_one(&mut all[at], kind)
    } else {
        Ok(None)
    }
}

/// The round of the participant at the place ends, where it is the first of its name.
fn end_at<P: Participant>(all: &mut Vec<P>, at: usize, ending: Ending)
    requires { at < length all.old.items }
    ensures { FirstsHad (by_place at [] (ending_call ending ∷ []) []) (map (λ p. P.tells p) all.old.items) (map (λ p. P.tells p) all.new.items) }
{
    if is_first(all.as_slice(), at) {
        end_one(&mut all[at], ending)
    }
}

/// A state that the participant answered is kept, with its name.
fn keep<P: Participant>(
    alloc: Global,
    one: &P,
    answered: Option<PartState>,
    states: &mut Vec<(Name, PartState)>,
) -> Result<(), NoMemory>
    ensures kept { IfOk result (λ done. states.new.items ≡ states.old.items ++ named_state (P.tells one.now).named answered) }
    ensures none { IsErr result → IsSome answered }
{
    match answered {
        Some(state) => {
            let name = name_of(alloc, one)?;
            states.push((name, state))?;
            Ok(())
        }
        None => Ok(()),
    }
}

/// The participant's name.
pub(crate) fn name_of<P: Participant>(alloc: Global, one: &P) -> Result<Name, NoMemory>
    ensures { IfOk result (λ name. name ≡ (P.tells one.now).named) }
{
    match Name::parse(alloc, one.name()) {
        Ok(name) => Ok(name),
        Err(_) => Err(AllocError),
    }
}

/// Whether the participant at the place is the first of its name.
pub(crate) fn is_first<P: Participant>(all: &[P], at: usize) -> bool
    requires { at < length all.now }
    ensures { slice_get (firsts (map (λ p. P.tells p) all.now)) at ≡ Some result }
{
    !has_name(&all[..at], all[at].name())
}

/// Whether one of the participants has the name.
fn has_name<P: Participant>(all: &[P], name: &str) -> bool
    ensures { result ≡ list_any (λ p. bytes_eq (P.tells p).named name.now) all.now }
{
    let mut rest = all;
    while let Some((first, others)) = rest.split_first() {
        if is_named(first, name) {
            return true;
        }
        rest = others;
    }
    false
}

/// Whether the participant has the name.
pub(crate) fn is_named<P: Participant>(one: &P, name: &str) -> bool
    ensures { result ≡ bytes_eq (P.tells one.now).named name.now }
{
    one.name() == name
}

/// One is prepared.
fn prepare_one<P: Participant>(one: &mut P, kind: SaveKind) -> Result<(), PartFault>
    ensures called { WasCalled (Prepared kind result) (P.tells one.old) (P.tells one.new) }
    ensures failed { result ≡ Err PartFault.Failed → HasRisen (P.tells one.old).faults (P.tells one.new).faults }
{
    one.prepare(kind)
}

/// One is asked for its state.
fn ask_one<P: Participant>(one: &mut P, kind: SaveKind) -> Result<Option<PartState>, PartFault>
    ensures called { WasCalled (Saving kind result) (P.tells one.old) (P.tells one.new) }
    ensures failed { result ≡ Err PartFault.Failed → HasRisen (P.tells one.old).faults (P.tells one.new).faults }
{
    one.saving(kind)
}

/// The round of one ends.
fn end_one<P: Participant>(one: &mut P, ending: Ending)
    ensures { WasCalled (ending_call ending) (P.tells one.old) (P.tells one.new) }
{
    match ending {
        Ending::Done => one.done(),
        Ending::RolledBack => one.rollback(),
    }
}
