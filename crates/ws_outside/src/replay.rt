// What a call makes of an area, and what a crash leaves of a call.
ghost use Rattle.std.specs.Prelude.{◌≡◌, ◌⊎◌, true, false, length, take, get_or, IfOk, OnOk, OnErr, MatchOption, if◌then◌else◌, nat_le};
ghost use Rattle.std.specs.Option.{option_map_or};
ghost use Rattle.ws_outside.specs.declared.contents.Which.TheVariants.{Left, Right};
ghost use Rattle.ws_outside.specs.Disk.{held, holding, written};
ghost use Rattle.ws_outside.specs.Inside.Stepping.{NeedsMemory};
ghost use Rattle.ws_outside.specs.Replay.{done, reads_after};
ghost use Rattle.ws_outside.specs.Crashes.{kept as kept_of, left_after, left_in, left_of as left_of_both};
ghost use Rattle.ws_outside.specs.declared.remnant.Remnant.TheVariants.{Nothing};

use crate::{Call, Contents, NoMemory, Octets, Remnant, Request, Which};
use std::alloc::Global;

/// What an area reads as after a call on it that is done; None where that is what it reads as before.
pub(crate) fn changed(
    alloc: Global,
    request: &Request,
    bytes: &[u8],
) -> Result<Option<Octets>, NoMemory>
    ensures next { IfOk result (λ next. MatchOption next (done request.now bytes.now ≡ bytes.now) (λ octets. octets ≡ done request.now bytes.now)) }
    ensures want { OnErr result (NeedsMemory request.now) }
{
    match request {
        Request::Write { at, bytes: piece } => {
            let next = overwrite(alloc, *at as usize, piece.as_slice(), bytes)?;
            Ok(Some(Octets::from(next)))
        }
        Request::Cut { len } => {
            let next = front(alloc, *len as usize, bytes)?;
            Ok(Some(Octets::from(next)))
        }
        Request::Len | Request::Read { .. } | Request::Sync => Ok(None),
    }
}

/// So many bytes from the front, or all where there are fewer.
fn front(alloc: Global, len: usize, bytes: &[u8]) -> Result<Vec<u8>, NoMemory>
    ensures { IfOk result (λ next. next.items ≡ take len bytes.now) }
{
    bytes[..len.min(bytes.len())].to_vec(alloc)
}

/// The bytes with a piece over them from a place on; the same where the place lies past the end.
fn overwrite(alloc: Global, at: usize, piece: &[u8], bytes: &[u8]) -> Result<Vec<u8>, NoMemory>
    ensures { IfOk result (λ next. next.items ≡ (if nat_le at (length bytes.now) then written at piece.now bytes.now else bytes.now)) }
{
    if at > bytes.len() {
        return bytes.to_vec(alloc);
    }
    let mut next = bytes[..at].to_vec(alloc)?;
    next.extend_from_slice(piece)?;
    if piece.len() < bytes.len() - at {
        next.extend_from_slice(&bytes[at + piece.len()..])?;
    }
    Ok(next)
}

/// Changes an area by a call on it, unless the call is to fail, can't be done, or memory wants. Tells whether it did.
pub(crate) fn change(
    alloc: Global,
    area: Which,
    request: &Request,
    able: bool,
    fails: bool,
    both: &mut Contents,
) -> bool
    ensures both { both.new ≡ (if result then holding area (done request.now (held area both.old)) both.old else both.old) }
    ensures fails { fails ≡ true → result ≡ false }
    ensures unable { able ≡ false → result ≡ false }
    ensures only_so { result ≡ false → (fails ≡ true) ⊎ (able ≡ false) ⊎ NeedsMemory request.now }
{
    if fails {
        return false;
    }
    if !able {
        return false;
    }
    match changed(alloc, request, both.of(area)) {
        Ok(next) => {
            place(true, area, next, both);
            true
        }
        Err(_) => false,
    }
}

/// Puts bytes into an area, where there are some.
pub(crate) fn place(done: bool, area: Which, next: Option<Octets>, both: &mut Contents)
    ensures { both.new ≡ (if done then option_map_or (λ bytes. holding area bytes both.old) next both.old else both.old) }
{
    if let Some(bytes) = next {
        if done {
            match area {
                Which::Left => both.left = bytes,
                Which::Right => both.right = bytes,
            }
        }
    }
}

/// What a crash leaves of both areas after one call more, where it left these of the calls before.
pub(crate) fn leave(
    alloc: Global,
    call: &Call,
    remnant: Remnant<'_>,
    reads: &mut Contents,
    left: &mut Contents,
) -> Result<(), NoMemory>
    ensures reads { OnOk result (reads.new ≡ record { left = reads_after Left call.now reads.old.left; right = reads_after Right call.now reads.old.right }) }
    ensures left { OnOk result (left.new ≡ record { left = left_in Left call.now remnant.entry reads.old.left left.old.left; right = left_in Right call.now remnant.entry reads.old.right left.old.right }) }
{
    let area = call.area;
    let kept = left_of(alloc, call, &remnant, reads.of(area), left.of(area))?;
    let next = changed(alloc, &call.request, reads.of(area))?;
    place(true, area, kept, left);
    place(call.done, area, next, reads);
    Ok(())
}

/// What a crash leaves of an area after a call on it; None where that is what it left before.
fn left_of(
    alloc: Global,
    call: &Call,
    remnant: &Remnant<'_>,
    reads: &[u8],
    left: &[u8],
) -> Result<Option<Octets>, NoMemory>
    ensures { IfOk result (λ next. MatchOption next (left_after call.now.request call.now.done remnant.now reads.now left.now ≡ left.now)
        (λ octets. octets ≡ left_after call.now.request call.now.done remnant.now reads.now left.now)) }
{
    match &call.request {
        Request::Write { at, bytes } => {
            let next = torn(alloc, *at, bytes.as_slice(), remnant, left)?;
            Ok(Some(next))
        }
        Request::Cut { len } if remnant.happened() => {
            let next = front(alloc, *len as usize, left)?;
            Ok(Some(Octets::from(next)))
        }
        Request::Sync if call.done => Ok(Some(Octets::of(alloc, reads)?)),
        _ => Ok(None),
    }
}

/// What a crash leaves of an area to which a piece was written, where this is left of the piece.
fn torn(
    alloc: Global,
    at: u64,
    piece: &[u8],
    remnant: &Remnant<'_>,
    left: &[u8],
) -> Result<Octets, NoMemory>
    ensures { IfOk result (λ next. next ≡ (if nat_le at (length left.now) then written at (kept_of remnant.now piece.now) left.now else left.now)) }
{
    let kept = remnant.kept(alloc, piece)?;
    let next = overwrite(alloc, at as usize, &kept, left)?;
    Ok(Octets::from(next))
}

/// The remnant that stands at a number, or nothing.
fn remnant_at<'a>(remnants: &[Remnant<'a>], number: usize) -> Remnant<'a>
    ensures { result ≡ get_or remnants.now number Nothing }
{
    remnants.get(number).copied().unwrap_or(Remnant::Nothing)
}

/// What a crash after these calls leaves: of each write and cut that no sync has followed the remnant that stands at its
/// number, and nothing where none stands there.
pub(crate) fn crash_of(
    alloc: Global,
    first: &Contents,
    calls: &[Call],
    remnants: &[Remnant<'_>],
) -> Result<Contents, NoMemory>
    ensures { IfOk result (λ left. left ≡ left_of_both first.now calls.now remnants.now) }
{
    let mut reads = first.copy(alloc)?;
    let mut left = first.copy(alloc)?;
    for number in 0..calls.len() {
        let remnant = remnant_at(remnants, number);
        leave(alloc, &calls[number], remnant, &mut reads, &mut left)?;
    }
    Ok(left)
}
