//! What an operation is answered.
ghost use Rattle.std.specs.Prelude.{◌≡◌, IfOk};

use crate::{Entries, NoMemory, Partners};

/// What an operation is answered that isn't refused.
#[derive(Clone, Debug, Drop)]
pub enum OpAnswer {
    Done,
    /// The id of the marker that was made.
    Id(u64),
    /// How many markers went, or how many resources lost a partner's bytes.
    Count(u64),
    /// What was read: elements with their paths, and the names of the synchronisation partners by their numbers.
    Seen(Entries, Partners),
}

impl OpAnswer {
    /// An equal answer, which shares its texts.
    pub fn copy(&self) -> Result<OpAnswer, NoMemory>
        ensures { IfOk result (λ copy. copy ≡ self.now) }
    {
        self.clone()
    }
}
