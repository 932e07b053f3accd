//! Who takes part in saves.
ghost use Rattle.std.specs.Prelude.{◌≡◌, ◌∷◌, [], Err};
ghost use Rattle.std.specs.Option.{option_copied};
ghost use Rattle.res_path.specs.Names.{IsName};
ghost use Rattle.save_round.specs.declared.participant.PartFault.TheVariants.{Memory};
ghost use Rattle.save_round.specs.Told.{Told, Prepared, Saving, Done, RolledBack, Restored, WasCalled, HasRisen};

use bytes::Bytes;
use delta_kind::Delta;
use res_path::NoMemory;
use save_kind::{PartState, SaveKind};
use std::alloc::{AllocError, AllocFailed};

/// Why a participant didn't prepare, or gave no state.
#[derive(Clone, Copy, Debug, PartialEq, Eq)]
pub enum PartFault {
    /// The participant failed. It counts that.
    Failed,
    /// Memory wanted.
    Memory,
}

impl From<AllocError> for PartFault {
    ghost from_gives = { λ _ e. e ≡ Memory };

    fn from(_e: AllocError) -> PartFault {
        PartFault::Memory
    }
}

impl<T: Drop> From<AllocFailed<T>> for PartFault {
    ghost from_gives = { λ _ e. e ≡ Memory };

    fn from(_e: AllocFailed<T>) -> PartFault {
        PartFault::Memory
    }
}

/// Who keeps something of its own with each save, as the platform's `ISaveParticipant`.
///
/// In a save it is prepared, then asked for its state, and at the end it is told whether the save is done or given up.
/// The three together are its round.
pub trait Participant: Drop {
    // its name, how it was called, where it tells that, and how often it failed
    ghost tells: { Self → Told };

    /// The name under which its state is kept.
    fn name(&self) -> &str
        ensures value { result.now ≡ (tells self.now).named }
        ensures form { IsName (tells self.now).named };

    /// A save begins (`prepareToSave`). Refused with Failed where the participant failed, which it counts, and with
    /// Memory where memory wanted; in both cases the round ends here.
    fn prepare(&mut self, kind: SaveKind) -> Result<(), PartFault>
        ensures called { WasCalled (Prepared kind result) (tells self.old) (tells self.new) }
        ensures failed { result ≡ Err PartFault.Failed → HasRisen (tells self.old).faults (tells self.new).faults };

    /// The state that it wants kept from now on (`saving`). None keeps the earlier one. Refused with Failed where the
    /// participant failed, which it counts, and with Memory where memory wanted.
    fn saving(&mut self, kind: SaveKind) -> Result<Option<PartState>, PartFault>
        ensures called { WasCalled (Saving kind result) (tells self.old) (tells self.new) }
        ensures failed { result ≡ Err PartFault.Failed → HasRisen (tells self.old).faults (tells self.new).faults };

    /// The save is done (`doneSaving`).
    fn done(&mut self)
        ensures called { WasCalled Done (tells self.old) (tells self.new) };

    /// The save is given up, and what was kept before it stays kept (`rollback`).
    fn rollback(&mut self)
        ensures called { WasCalled RolledBack (tells self.old) (tells self.new) };

    /// A session begins. It is given the bytes that it kept and, where it asked for it, what changed since that save (the
    /// platform's `ISavedState`). Refused where memory wanted.
    fn restored(&mut self, bytes: &Bytes, delta: Option<&Delta>) -> Result<(), NoMemory>
        ensures called { WasCalled (Restored bytes.now (option_copied delta.entry) result) (tells self.old) (tells self.new) };
}

impl Participant for Box<dyn Participant + Send> {
    ghost tells = { λ p. (Participant-box p).tells p.value };

    fn name(&self) -> &str {
        (**self).name()
    }

    fn prepare(&mut self, kind: SaveKind) -> Result<(), PartFault> {
        (**self).prepare(kind)
    }

    fn saving(&mut self, kind: SaveKind) -> Result<Option<PartState>, PartFault> {
        (**self).saving(kind)
    }

    fn done(&mut self) {
        (**self).done()
    }

    fn rollback(&mut self) {
        (**self).rollback()
    }

    fn restored(&mut self, bytes: &Bytes, delta: Option<&Delta>) -> Result<(), NoMemory> {
        (**self).restored(bytes, delta)
    }
}
