//! Saves.
ghost use Rattle.std.specs.Prelude.{◌≡◌, ◌∷◌, [], map, Some, Err, IfOk, IfErr, OnErr};
ghost use Rattle.save_run.specs.Books.{HasBegun, outcome_of};
ghost use Rattle.save_run.specs.Saves.{HasStopped, HasEnded, IsAnswered};
ghost use Rattle.save_run.specs.Inside.Courses.{Gathered, HasStored, IsKeptOr, IsStored, Went, stop_of};

use crate::{Host, WriteFault};
use res_path::{Name, NoMemory};
use save_kind::{PartState, PartStates, SaveAnswer, SaveKind};
use save_round::{Participant, Participants, RoundFault, SaveRound};
use std::alloc::Global;

/// What a save answers: how it ended, or the number with which its beginning was refused.
#[derive(Debug, Drop, PartialEq, Eq)]
pub enum Saved {
    Ended(SaveAnswer),
    Stopped(u8),
}

/// Saves. Each participant that is the first of its name is prepared and then asked for its state, the states are kept in
/// the participants' order, what is kept is written, and at the end each of them is told that the save is done, where it
/// was written, and else rolled back. Where a participant fails or wants memory, those that were prepared are rolled back
/// and nothing is kept or written.
///
/// Stopped where the beginning was refused with that number; then nothing else is done. The save ends as Saved;
/// ParticipantFailed with the name of the participant that failed, whose count of faults rose; SaveFailed, SaveTooLarge
/// or SaveNumbers where the write fails so; and NoMemory where memory wants in between. Answers `NoMemory` where memory
/// wants before anything is done; a save that began always ends.
pub fn save<H: Host, P: Participant>(
    alloc: Global,
    host: &mut H,
    parts: &mut Participants<P>,
    kind: SaveKind,
) -> Result<Saved, NoMemory>
    requires ready { H.ready host.old }
    requires fresh { H.book host.old ≡ [] }
    ensures stays { H.stays host.old host.new }
    ensures answered { IfOk result (λ saved. IsAnswered kind saved (H.book host.new) (map (λ p. P.tells p) parts.old) (map (λ p. P.tells p) parts.new)) }
    ensures unanswered { OnErr result ((H.book host.new ≡ []) × (map (λ p. P.tells p) parts.new ≡ map (λ p. P.tells p) parts.old)) }
{
    match host.start(kind)? {
        Some(number) => Ok(Saved::Stopped(number)),
        None => Ok(Saved::Ended(save_begun(alloc, host, parts, kind))),
    }
}

/// Goes on with a save of the kind that began on the host, as `save` does behind the beginning. Answers how it ended.
pub fn save_begun<H: Host, P: Participant>(
    alloc: Global,
    host: &mut H,
    parts: &mut Participants<P>,
    kind: SaveKind,
) -> SaveAnswer
    requires ready { H.ready host.old }
    requires begun { HasBegun (H.book host.old) kind }
    ensures stays { H.stays host.old host.new }
    ensures ended { HasEnded kind result (H.book host.new) (map (λ p. P.tells p) parts.old) (map (λ p. P.tells p) parts.new) }
{
    let (outcome, answer) = twice(went(alloc, host, parts, kind));
    host.finish(outcome);
    answer
}

/// How a save that began came through.
fn went<H: Host, P: Participant>(
    alloc: Global,
    host: &mut H,
    parts: &mut Participants<P>,
    kind: SaveKind,
) -> SaveAnswer
    requires ready { H.ready host.old }
    requires begun { HasBegun (H.book host.old) kind }
    ensures stays { H.stays host.old host.new }
    ensures went { Went kind result (H.book host.new) (map (λ p. P.tells p) parts.old) (map (λ p. P.tells p) parts.new) }
{
    match gathered(alloc, parts, kind) {
        Ok(states) => stored(host, parts, PartStates::of(states), kind),
        Err(fault) => stopped(fault),
    }
}

/// Each is prepared, and these are the states that they answer.
fn gathered<P: Participant>(
    alloc: Global,
    parts: &mut Participants<P>,
    kind: SaveKind,
) -> Result<Vec<(Name, PartState)>, RoundFault>
    ensures gathered { IfOk result (λ states. Gathered kind states.items (map (λ p. P.tells p) parts.old) (map (λ p. P.tells p) parts.new)) }
    ensures stopped { IfErr result (λ fault. HasStopped kind fault (map (λ p. P.tells p) parts.old) (map (λ p. P.tells p) parts.new)) }
{
    match SaveRound::prepare_all(alloc, parts, kind) {
        Ok(()) => SaveRound::saving_all(alloc, parts, kind),
        Err(fault) => Err(fault),
    }
}

/// The states are kept and written, and each participant is told how that went.
fn stored<H: Host, P: Participant>(
    host: &mut H,
    parts: &mut Participants<P>,
    states: PartStates,
    kind: SaveKind,
) -> SaveAnswer
    requires ready { H.ready host.old }
    requires begun { HasBegun (H.book host.old) kind }
    ensures stays { H.stays host.old host.new }
    ensures stored { HasStored kind states result (H.book host.new) (map (λ p. P.tells p) parts.old) (map (λ p. P.tells p) parts.new) }
{
    match written(host, states, kind) {
        Ok(()) => {
            SaveRound::done_all(parts);
            SaveAnswer::Saved
        }
        Err(fault) => {
            SaveRound::rollback_all(parts);
            failed(fault)
        }
    }
}

/// The states are kept, and what is kept is written.
fn written<H: Host>(host: &mut H, states: PartStates, kind: SaveKind) -> Result<(), WriteFault>
    requires ready { H.ready host.old }
    requires begun { HasBegun (H.book host.old) kind }
    ensures stays { H.stays host.old host.new }
    ensures stored { IsStored kind states result (H.book host.new) }
{
    match host.keep(states) {
        Ok(()) => host.write(kind),
        Err(_) => Err(WriteFault::Memory),
    }
}

/// How a save ends after a write that failed.
fn failed(fault: WriteFault) -> SaveAnswer
    ensures { result ≡ outcome_of (Err fault) }
{
    match fault {
        WriteFault::Disk => SaveAnswer::SaveFailed,
        WriteFault::TooLarge => SaveAnswer::SaveTooLarge,
        WriteFault::NumbersUsed => SaveAnswer::SaveNumbers,
        WriteFault::Memory => SaveAnswer::NoMemory,
    }
}

/// How a save ends that a participant stopped.
fn stopped(fault: RoundFault) -> SaveAnswer
    ensures { result ≡ stop_of fault }
{
    match fault {
        RoundFault::Failed(name) => SaveAnswer::ParticipantFailed(name),
        RoundFault::Memory => SaveAnswer::NoMemory,
    }
}

/// The answer twice, or want of memory twice, where the answer has a name.
fn twice(answer: SaveAnswer) -> (SaveAnswer, SaveAnswer)
    ensures same { result.1 ≡ result.0 }
    ensures answer { IsKeptOr answer result.0 }
{
    match answer.copy() {
        Ok(copy) => (answer, copy),
        Err(_) => (SaveAnswer::NoMemory, SaveAnswer::NoMemory),
    }
}
