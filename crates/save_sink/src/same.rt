//! Whether a text stands already.

ghost use Rattle.std.specs.Prelude.{◌≡◌, Some};
ghost use Rattle.std.specs.Option.{option_copied};
ghost use Rattle.save_sink.specs.Fronts.{without_front};

use crate::sink::Sink;
use std::convert::Infallible;
use std::marker::Model;

/// Bytes against which a text is held. A contract sees those that are still to come, while all that came stood at their
/// front; else none. It takes no memory.
#[derive(Debug, Drop)]
pub struct Same<'a> {
    left: Option<&'a [u8]>,
}

impl<'a> Model for Same<'a> {
    ghost use Rattle.std.specs.Prelude.{Option, List, ℕ};
    ghost use Rattle.std.specs.Option.{option_copied};

    ghost Value = { Option (List ℕ) };

    ghost view = { λ s. option_copied s.left };
}

impl<'a> Same<'a> {
    ghost use Rattle.std.specs.Prelude.{◌≡◌, Some, ◌↔◌, [], IsTrue};

    /// These bytes are to come.
    pub fn of(bytes: &'a [u8]) -> Same<'a>
        ensures { result ≡ Some bytes.now }
    {
        Same { left: Some(bytes) }
    }

    /// Whether just these bytes came.
    pub fn is_whole(&self) -> bool
        ensures { IsTrue result ↔ (self.now ≡ Some []) }
    {
        match self.left {
            None => false,
            Some(left) => left.is_empty(),
        }
    }
}

impl<'a> Sink for Same<'a> {
    ghost use Rattle.save_sink.specs.Fronts.{without_front, without_front-joined, without_front-kept};

    type Fault = Infallible;

    ghost after = { without_front };

    fn put(&mut self, bytes: &[u8]) -> Result<(), Infallible> {
        self.left = match self.left {
            None => None,
            Some(left) => behind(left, bytes),
        };
        Ok(())
    }

    ghost joined = { without_front-joined };

    ghost kept = { without_front-kept };
}

#[tactic(auto, using(crate::proofs::Fronts::fronts))]
fn behind<'a>(left: &'a [u8], bytes: &[u8]) -> Option<&'a [u8]>
    ensures { option_copied result ≡ without_front (Some left.now) bytes.now }
{
    let len = bytes.len();
    if left.len() < len {
        return None;
    }
    let (front, rest) = left.split_at(len);
    if front == bytes { Some(rest) } else { None }
}
