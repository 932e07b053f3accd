// The state that texts of an area stand for, or their first damage.
ghost use Rattle.std.specs.Prelude.{◌≡◌, length, IfOk, IfErr};
ghost use Rattle.std.specs.FinMap.{empty};
ghost use Rattle.ws_durable.specs.Saved.{saved};
ghost use Rattle.save_format.specs.Valid.{Valid, IsImage, IsRecord};
ghost use Rattle.save_store.specs.States.{Lead, StandFor, Mean};
ghost use Rattle.save_store.specs.Damages.{further as further_on, moved as moved_on, IsBad, BadRecord, BadTexts, FailsFor};

use crate::fresh::fresh;
use area_pair::Texts;
use save_format::{read_image, read_record};
use save_read::ReadError;
use std::alloc::Global;
use ws_durable::Durable;
use ws_outside::Octets;

/// A place further on in an area.
fn further(at: usize, more: usize) -> usize
    ensures { result ≡ further_on at more }
{
    at.saturating_add(more)
}

/// A refusal of a text that starts at this place.
fn moved(start: usize, error: ReadError) -> ReadError
    ensures { result ≡ moved_on start error }
{
    match error {
        ReadError::Bad { at, cause } => ReadError::Bad {
            at: further(start, at),
            cause,
        },
        ReadError::Memory => ReadError::Memory,
    }
}

/// The state of an area's image.
fn read_first(alloc: Global, image: &[u8]) -> Result<Durable, ReadError>
    ensures ok { IfOk result (λ d. IsImage (saved d) image.now) }
    ensures bad { IfErr result (FailsFor (IsBad empty empty 57 image.now)) }
{
    match read_image(alloc, image) {
        Ok(first) => Ok(first),
        Err(error) => Err(moved(57, error)),
    }
}

/// The state of a record whose gate stands at this place.
fn read_next(
    alloc: Global,
    before: &Durable,
    gate: usize,
    body: &[u8],
) -> Result<Durable, ReadError>
    requires { Valid (saved before.now) }
    ensures ok { IfOk result (λ d. IsRecord (saved before.now) (saved d) body.now) }
    ensures bad { IfErr result (FailsFor (IsBad before.now.tree.map before.now.shelf.map (further_on gate 41) body.now)) }
{
    match read_record(alloc, before, body) {
        Ok(next) => Ok(next),
        Err(error) => Err(moved(further(gate, 41), error)),
    }
}

/// The state to which records lead, of which the first has its gate at this place.
fn read_records(
    alloc: Global,
    first: Durable,
    from: usize,
    records: &[Octets],
) -> Result<Durable, ReadError>
    requires { Valid (saved first) }
    ensures ok { IfOk result (λ d. Lead (saved first) records.now (saved d)) }
    ensures bad { IfErr result (FailsFor (BadRecord (saved first) from records.now)) }
{
    let mut durable = first;
    let mut gate = from;
    for body in records {
        let bytes = body.as_slice();
        durable = read_next(alloc, &durable, gate, bytes)?;
        gate = further(further(gate, 41), bytes.len());
    }
    Ok(durable)
}

/// The state that an image stands for, with the records behind it. Refused at the first place of their area at which a text
/// can't go on, or at the start of the first text that tells no state.
pub(crate) fn state_of(alloc: Global, texts: &Texts) -> Result<Durable, ReadError>
    ensures ok { IfOk result (λ d. StandFor texts.now (saved d)) }
    ensures bad { IfErr result (FailsFor (BadTexts texts.now)) }
{
    let image = texts.image.as_slice();
    let first = read_first(alloc, image)?;
    read_records(
        alloc,
        first,
        further(57, image.len()),
        texts.records.as_slice(),
    )
}
