//! The calls of all participants in a save.
ghost use Rattle.std.specs.Prelude.{◌≡◌, ◌∷◌, [], ◌<◌, length, map, Ok, IfOk, IfErr};
ghost use Rattle.save_round.specs.Told.{Prepared, Done, RolledBack};
ghost use Rattle.save_round.specs.Firsts.{FirstsHad};
ghost use Rattle.save_round.specs.Passes.{ending_call};
ghost use Rattle.save_round.specs.Rounds.{HaveAnswered, HasStoppedPreparing, HasStoppedSaving, IfFailed, IsNamedAt};

use crate::pass::{Ending, Stop, ask_each, end_before, name_of, prepare_each};
use crate::{PartFault, Participant, Participants};
use res_path::Name;
use save_kind::{PartState, SaveKind};
use std::alloc::Global;

/// Why a round stopped.
#[derive(Debug, Drop)]
pub enum RoundFault {
    /// The participant of this name failed.
    Failed(Name),
    /// Memory wanted.
    Memory,
}

/// The calls of all participants in a save, one after another, in the list's order. Only the first of each name is
/// called.
///
/// A save calls `prepare_all`, then `saving_all`, and at its end `done_all` where it succeeded, and else `rollback_all`
/// (the platform's `ISaveParticipant`). After a fault of one of the first two it calls no more.
pub struct SaveRound;

impl SaveRound {
    /// Each is prepared. Refused with Failed and the name of the participant that failed, whose count of faults rose, and
    /// with Memory where memory wanted. After a refusal those that were prepared before were rolled back, and no later one
    /// was called.
    pub fn prepare_all<P: Participant>(
        alloc: Global,
        parts: &mut Participants<P>,
        kind: SaveKind,
    ) -> Result<(), RoundFault>
        ensures prepared { IfOk result (λ done. FirstsHad (λ place. Prepared kind (Ok done) ∷ []) (map (λ p. P.tells p) parts.old) (map (λ p. P.tells p) parts.new)) }
        ensures stopped { IfErr result (λ fault. HasStoppedPreparing kind fault (map (λ p. P.tells p) parts.old) (map (λ p. P.tells p) parts.new)) }
    {
        prepare(alloc, &mut parts.all, kind)
    }

    /// The states that the participants answer, in the list's order, each with its participant's name; where one answers
    /// none, it has none here. Refused with Failed and the name of the participant that failed, whose count of faults rose,
    /// and with Memory where memory wanted. After a refusal all were rolled back.
    pub fn saving_all<P: Participant>(
        alloc: Global,
        parts: &mut Participants<P>,
        kind: SaveKind,
    ) -> Result<Vec<(Name, PartState)>, RoundFault>
        ensures answered { IfOk result (λ states. HaveAnswered kind states.items (map (λ p. P.tells p) parts.old) (map (λ p. P.tells p) parts.new)) }
        ensures stopped { IfErr result (λ fault. HasStoppedSaving kind fault (map (λ p. P.tells p) parts.old) (map (λ p. P.tells p) parts.new)) }
    {
        ask(alloc, &mut parts.all, kind)
    }

    /// The save is done: each is told so.
    pub fn done_all<P: Participant>(parts: &mut Participants<P>)
        ensures { FirstsHad (λ place. Done ∷ []) (map (λ p. P.tells p) parts.old) (map (λ p. P.tells p) parts.new) }
    {
        end(&mut parts.all, Ending::Done)
    }

    /// The save is given up: each is rolled back.
    pub fn rollback_all<P: Participant>(parts: &mut Participants<P>)
        ensures { FirstsHad (λ place. RolledBack ∷ []) (map (λ p. P.tells p) parts.old) (map (λ p. P.tells p) parts.new) }
    {
        end(&mut parts.all, Ending::RolledBack)
    }
}

/// Each is prepared; where one answers a fault, those before it are rolled back.
fn prepare<P: Participant>(
    alloc: Global,
    all: &mut Vec<P>,
    kind: SaveKind,
) -> Result<(), RoundFault>
    ensures prepared { IfOk result (λ done. FirstsHad (λ place. Prepared kind (Ok done) ∷ []) (map (λ p. P.tells p) all.old.items) (map (λ p. P.tells p) all.new.items)) }
    ensures stopped { IfErr result (λ fault. HasStoppedPreparing kind fault (map (λ p. P.tells p) all.old.items) (map (λ p. P.tells p) all.new.items)) }
{
    match prepare_each(all, kind) {
        Ok(()) => Ok(()),
        Err(stop) => {
            end_before(all, stop.place, Ending::RolledBack);
            Err(fault_of(alloc, all.as_slice(), stop))
        }
    }
}

/// Each is asked for its state; where that stops, all are rolled back.
fn ask<P: Participant>(
    alloc: Global,
    all: &mut Vec<P>,
    kind: SaveKind,
) -> Result<Vec<(Name, PartState)>, RoundFault>
    ensures answered { IfOk result (λ states. HaveAnswered kind states.items (map (λ p. P.tells p) all.old.items) (map (λ p. P.tells p) all.new.items)) }
    ensures stopped { IfErr result (λ fault. HasStoppedSaving kind fault (map (λ p. P.tells p) all.old.items) (map (λ p. P.tells p) all.new.items)) }
{
    match ask_each(alloc, all, kind) {
        Ok(states) => Ok(states),
        Err(stop) => {
            end(all, Ending::RolledBack);
            Err(fault_of(alloc, all.as_slice(), stop))
        }
    }
}

/// The round of each ends.
fn end<P: Participant>(all: &mut Vec<P>, ending: Ending)
    ensures { FirstsHad (λ place. ending_call ending ∷ []) (map (λ p. P.tells p) all.old.items) (map (λ p. P.tells p) all.new.items) }
{
    let to = all.len();
    end_before(all, to, ending);
}

/// The fault of a round that stopped here. Memory where its participant's name can't be copied.
fn fault_of<P: Participant>(alloc: Global, all: &[P], stop: Stop) -> RoundFault
    requires { stop.place < length all.now }
    ensures { IfFailed result (λ name. (stop.fault ≡ PartFault.Failed) × IsNamedAt stop.place name (map (λ p. P.tells p) all.now)) }
{
    match stop.fault {
        PartFault::Failed => match name_of(alloc, &all[stop.place]) {
            Ok(name) => RoundFault::Failed(name),
            Err(_) => RoundFault::Memory,
        },
        PartFault::Memory => RoundFault::Memory,
    }
}
