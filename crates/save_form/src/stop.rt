// Why reading gives no value.
ghost use Rattle.std.specs.Prelude.{◌≡◌};
ghost use Rattle.save_form.specs.Laws.{place};

use std::alloc::{AllocError, AllocFailed};
use ws_wire::Short;

/// Why a text can't go on. Its place is counted from the beginning of the text.
#[derive(Clone, Copy, Debug, PartialEq, Eq)]
pub enum Stop {
    /// Too few bytes remain for the field that begins at this place.
    Short(usize),
    /// What begins at this place can't stand there.
    Bad(usize),
}

impl Stop {
    /// The place at which the text can't go on.
    pub fn place(self) -> usize
        ensures { result ≡ place self }
    {
        match self {
            Stop::Short(at) => at,
            Stop::Bad(at) => at,
        }
    }
}

/// Why reading gives no value.
#[derive(Clone, Copy, Debug, PartialEq, Eq)]
pub enum Stuck {
    /// The text can't go on.
    At(Stop),
    /// The memory for a list wasn't to be had.
    Memory,
}

impl From<Short> for Stuck {
    ghost use Rattle.save_form.specs.declared.stop.Stop.TheVariants.{Short};
    ghost use Rattle.save_form.specs.declared.stop.Stuck.TheVariants.{At};

    ghost from_gives = { λ short stuck. stuck ≡ At (Short short.at) };

    fn from(short: Short) -> Stuck {
        Stuck::At(Stop::Short(short.at))
    }
}

impl From<AllocError> for Stuck {
    ghost use Rattle.save_form.specs.declared.stop.Stuck.TheVariants.{Memory};

    ghost from_gives = { λ _ stuck. stuck ≡ Memory };

    fn from(_: AllocError) -> Stuck {
        Stuck::Memory
    }
}

impl<T: Drop> From<AllocFailed<T>> for Stuck {
    ghost use Rattle.save_form.specs.declared.stop.Stuck.TheVariants.{Memory};

    ghost from_gives = { λ _ stuck. stuck ≡ Memory };

    fn from(_: AllocFailed<T>) -> Stuck {
        Stuck::Memory
    }
}
