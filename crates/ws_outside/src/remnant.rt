// What a crash may leave of a write or a cut.
ghost use Rattle.std.specs.Prelude.{◌≡◌, take, IfOk};
ghost use Rattle.ws_outside.specs.Crashes as crashes;

use crate::NoMemory;
use std::alloc::Global;

/// What a crash leaves of a write or a cut that no sync has followed. Of a cut it leaves nothing or all.
#[derive(Clone, Copy, Debug)]
pub enum Remnant<'a> {
    /// It didn't happen.
    Nothing,
    /// All of it happened.
    Whole,
    /// So many of a write's bytes, from the front.
    Front(usize),
    /// All bytes of the range are this one.
    Filled(u8),
    /// These bytes from the front of the range on, as many as fit in it.
    Bytes(&'a [u8]),
}

impl Remnant<'_> {
    /// Whether a cut of which this is left has happened.
    pub(crate) fn happened(&self) -> bool
        ensures { result ≡ crashes.happened self.now }
    {
        !matches!(self, Remnant::Nothing)
    }

    /// What is left of these bytes.
    pub(crate) fn kept(&self, alloc: Global, bytes: &[u8]) -> Result<Vec<u8>, NoMemory>
        ensures { IfOk result (λ kept. kept.items ≡ crashes.kept self.now bytes.now) }
    {
        match self {
            Remnant::Nothing => Ok(Vec::new(alloc)),
            Remnant::Whole => bytes.to_vec(alloc),
            Remnant::Front(len) => front(alloc, bytes, *len),
            Remnant::Filled(byte) => vec![in alloc; *byte; bytes.len()],
            Remnant::Bytes(others) => front(alloc, others, bytes.len()),
        }
    }
}

fn front(alloc: Global, bytes: &[u8], len: usize) -> Result<Vec<u8>, NoMemory>
    ensures { IfOk result (λ front. front.items ≡ take len bytes.now) }
{
    bytes[..len.min(bytes.len())].to_vec(alloc)
}
