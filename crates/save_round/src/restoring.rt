//! What participants kept, given back.
ghost use Rattle.std.specs.Prelude.{◌≡◌, ◌∷◌, [], ◌<◌, ℕ, true, length, map, Some, Ok, OnOk, OnErr, IfErr, IsErr, IsSome, IsSomeAnd, option_copied, slice_get};
ghost use Rattle.save_round.specs.Told.{HadCalls};
ghost use Rattle.save_round.specs.Firsts.{firsts, FirstsHad, by_place};
ghost use Rattle.save_round.specs.Restoring.{HasStoppedRestoring, WereRestored, kept_for_each, kept_under, names, restores, restoring};

use crate::pass::{is_first, is_named};
use crate::{Participant, Participants};
use bytes::Bytes;
use delta_kind::Delta;
use res_path::{Name, NoMemory};

/// What is kept of a participant, as a session that begins has it: the bytes, and where the participant asked for it, what
/// changed since they were kept.
#[derive(Drop)]
pub struct KeptState {
    pub name: Name,
    pub bytes: Bytes,
    pub delta: Option<Delta>,
}

/// Each participant that is the first of its name, and under whose name something is kept, gets that, once, in the
/// participants' order. Of several states of one name the first counts. Refused where one of them wanted memory; then
/// those before it got theirs, and no later one was called.
pub fn restore_all<P: Participant>(
    parts: &mut Participants<P>,
    kept: &[KeptState],
) -> Result<(), NoMemory>
    ensures restored { OnOk result (WereRestored kept.now (map (λ p. P.tells p) parts.old) (map (λ p. P.tells p) parts.new)) }
    ensures stopped { OnErr result (HasStoppedRestoring kept.now (map (λ p. P.tells p) parts.old) (map (λ p. P.tells p) parts.new)) }
{
    restore(&mut parts.all, kept)
}

/// Each gets what is kept under its name, up to one that wants memory.
fn restore<P: Participant>(all: &mut Vec<P>, kept: &[KeptState]) -> Result<(), NoMemory>
    ensures restored { OnOk result (WereRestored kept.now (map (λ p. P.tells p) all.old.items) (map (λ p. P.tells p) all.new.items)) }
    ensures stopped { OnErr result (HasStoppedRestoring kept.now (map (λ p. P.tells p) all.old.items) (map (λ p. P.tells p) all.new.items)) }
{
    for at in 0..all.len() {
        match restore_at(all, at, kept) {
            Ok(()) => {}
            Err(fault) => return Err(fault),
        }
    }
    Ok(())
}

/// The participant at the place gets what is kept under its name, where it is the first of its name.
fn restore_at<P: Participant>(
    all: &mut Vec<P>,
    at: usize,
    kept: &[KeptState],
) -> Result<(), NoMemory>
    requires { at < length all.old.items }
    ensures called { FirstsHad (by_place at [] (restoring kept.now result (slice_get (names (map (λ p. P.tells p) all.old.items)) at)) []) (map (λ p. P.tells p) all.old.items) (map (λ p. P.tells p) all.new.items) }
    ensures first { OnErr result (slice_get (firsts (map (λ p. P.tells p) all.old.items)) at ≡ Some true) }
    ensures has { OnErr result (IsSomeAnd (slice_get (names (map (λ p. P.tells p) all.old.items)) at) (λ name. IsSome (kept_under kept.now name))) }
{
    if is_first(all.as_slice(), at) {
        restore_one(&mut all[at], kept)
    } else {
        Ok(())
    }
}

/// One gets what is kept under its name.
fn restore_one<P: Participant>(one: &mut P, kept: &[KeptState]) -> Result<(), NoMemory>
    ensures called { HadCalls (restores (kept_under kept.now (P.tells one.old).named) result) (P.tells one.old) (P.tells one.new) }
    ensures has { OnErr result (IsSome (kept_under kept.now (P.tells one.old).named)) }
{
    match kept_of(kept, one) {
        Some(state) => one.restored(&state.bytes, state.delta.as_ref()),
        None => Ok(()),
    }
}

/// What is kept for the participant at the place: something only where it is the first of its name.
pub fn kept_for<'a, P: Participant>(
    parts: &Participants<P>,
    kept: &'a [KeptState],
    at: usize,
) -> Option<&'a KeptState>
    requires { at < length parts.now }
    ensures { slice_get (kept_for_each kept.now (map (λ p. P.tells p) parts.now)) at ≡ Some (option_copied result) }
{
    let all = parts.as_slice();
    if is_first(all, at) {
        kept_of(kept, &all[at])
    } else {
        None
    }
}

/// What is kept under the participant's name.
fn kept_of<'a, P: Participant>(kept: &'a [KeptState], one: &P) -> Option<&'a KeptState>
    ensures { option_copied result ≡ kept_under kept.now (P.tells one.now).named }
{
    let mut rest = kept;
    while let Some((first, others)) = rest.split_first() {
        if is_named(one, first.name.text()) {
            return Some(first);
        }
        rest = others;
    }
    None
}
