//! What a save writes.
ghost use Rattle.std.specs.Prelude.{◌≡◌};
ghost use Rattle.save_kind.specs.Kinds.{save_number};

/// What a save writes: the whole workspace, or what changed since the last save.
#[derive(Clone, Copy, Debug, PartialEq, Eq)]
pub enum SaveKind {
    Full,
    Snapshot,
}

impl SaveKind {
    /// The platform's number: 1 for a full save, 2 for a snapshot (`ISaveContext.FULL_SAVE` and `SNAPSHOT`).
    pub fn number(self) -> u8
        ensures { result ≡ save_number self }
    {
        match self {
            SaveKind::Full => 1,
            SaveKind::Snapshot => 2,
        }
    }
}
