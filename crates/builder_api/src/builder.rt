//! Builders, and what is known of them.
ghost use Rattle.std.specs.Prelude.{◌≡◌, ℕ, List, Option, None, IfSome, IfOk};
ghost use Rattle.res_path.specs.Names.{IsName};
ghost use Rattle.builder_api.specs.declared.builder.BuildFault.TheVariants.{Memory};
ghost use Rattle.builder_api.specs.Meanings.{Meaning, IsMeaning};
ghost use Rattle.builder_api.specs.Lawful.{Does};
ghost use Rattle.builder_api.specs.Told.{Told, Built, Cleaned, WasCalled, HasRisen};

use crate::{Edits, Handed};
use proj_desc::Command;
use std::alloc::{AllocError, AllocFailed};

/// Why a builder gave no edits.
#[derive(Clone, Copy, Debug, PartialEq, Eq)]
pub enum BuildFault {
    /// The builder failed. It counts that.
    Failed,
    /// Memory wanted.
    Memory,
}

impl From<AllocError> for BuildFault {
    ghost from_gives = { λ _ e. e ≡ Memory };

    fn from(_e: AllocError) -> BuildFault {
        BuildFault::Memory
    }
}

impl<T: Drop> From<AllocFailed<T>> for BuildFault {
    ghost from_gives = { λ _ e. e ≡ Memory };

    fn from(_e: AllocFailed<T>) -> BuildFault {
        BuildFault::Memory
    }
}

/// What builders make of their inputs, by the builders' names.
pub trait Meanings {
    // the meaning of a builder of this name, where there is one
    ghost meaning: { List ℕ → Option Meaning };

    // each is a meaning
    ghost sound: { (name : List ℕ) → IfSome (meaning name) IsMeaning };
}

/// Nothing is known of any builder.
pub struct Silent;

impl Meanings for Silent {
    ghost meaning = { λ name. None };

    ghost sound = { λ name. tt };
}

/// A builder, as the platform's `IncrementalProjectBuilder`: it is called for one command at a time, sees files and
/// answers edits.
///
/// Where it tells what its commands make of their inputs, its edits make that of the command's output, whatever it
/// keeps between calls.
pub trait Builder: Drop {
    // its name, what its commands make of their inputs and how it was called, where it tells these, and how often it failed
    ghost tells: { Self → Told };

    /// The name by which commands call it.
    fn name(&self) -> &str
        ensures value { result.now ≡ (tells self.now).named }
        ensures form { IsName (tells self.now).named };

    /// The edits by which the files below the command's output become those that it makes of its inputs as they are,
    /// and all its problems. Refused with Failed where the builder failed, which it counts, and with Memory where memory
    /// wanted.
    fn build(&mut self, command: &Command, handed: &Handed) -> Result<Edits, BuildFault>
        ensures lawful { IfSome (tells self.old).means (λ m. IfOk result (λ edits. Does m command.now handed.now edits)) }
        ensures called { WasCalled (Built command.now handed.now) (tells self.old) (tells self.new) }
        ensures failed { result ≡ Err BuildFault.Failed → HasRisen (tells self.old).faults (tells self.new).faults };

    /// All that it keeps between calls goes.
    fn clean(&mut self)
        ensures called { WasCalled Cleaned (tells self.old) (tells self.new) };
}
