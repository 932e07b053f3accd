//! How long a text is.

use crate::sink::Sink;
use std::convert::Infallible;

/// The length of a text, up to 2^64 - 1, at which it stays. It takes no memory.
#[derive(Debug, Drop)]
pub struct Length {
    pub len: u64,
}

impl Sink for Length {
    ghost use Rattle.save_sink.specs.Lengths.{longer, longer-joined, longer-kept};

    type Fault = Infallible;

    ghost after = { longer };

    fn put(&mut self, bytes: &[u8]) -> Result<(), Infallible> {
        self.len = self.len.saturating_add(bytes.len() as u64);
        Ok(())
    }

    ghost joined = { λ s a b. longer-joined s a b };

    ghost kept = { λ s. longer-kept s };
}
