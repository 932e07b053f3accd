//! What concerns the services.
ghost use Rattle.std.specs.Prelude.{◌≡◌, IfOk};

use builder_api::{BuildKind, BuildOutcome, Edits};
use res_path::{Name, NoMemory};
use save_kind::{PartStates, SaveAnswer, SaveKind};

/// For what a pass takes the services.
#[derive(Drop)]
pub enum Purpose {
    /// A build of this kind: of the project of this name, or of the whole workspace (`IProject.build`, `IWorkspace.build`).
    Build(BuildKind, Option<Name>),
    /// A save of this kind (`IWorkspace.save`).
    Save(SaveKind),
}

impl Purpose {
    /// An equal purpose, which shares its texts.
    pub fn copy(&self) -> Result<Purpose, NoMemory>
        ensures { IfOk result (λ copy. copy ≡ self.now) }
    {
        match self {
            Purpose::Build(kind, project) => Ok(Purpose::Build(*kind, project.clone()?)),
            Purpose::Save(kind) => Ok(Purpose::Save(*kind)),
        }
    }
}

/// How what the services were taken for has ended.
#[derive(Drop)]
pub enum Outcomes {
    Build(BuildOutcome),
    Save(SaveAnswer),
}

impl Outcomes {
    /// An equal outcome, which shares its texts.
    pub fn copy(&self) -> Result<Outcomes, NoMemory>
        ensures { IfOk result (λ copy. copy ≡ self.now) }
    {
        match self {
            Outcomes::Build(outcome) => Ok(Outcomes::Build(outcome.copy()?)),
            Outcomes::Save(answer) => Ok(Outcomes::Save(answer.copy()?)),
        }
    }
}

/// What a pass may ask that concerns the services: the builders, who takes part in saves and where saves go, which one pass
/// at a time has.
#[derive(Drop)]
pub enum ServiceEvent {
    /// The pass takes the services, for a build in the order that it is answered, or for a save.
    Checkout(Purpose),
    /// The pass gives the services back, and tells how it went.
    CheckIn(Outcomes),
    /// What is due is handed for the command of this number, from 0, of the project, for a build of this kind: the command
    /// is under way from now on.
    Handed(Name, u16, BuildKind),
    /// The edits are made below the output of the command under way, and its problems are told.
    Commit(Edits),
    /// What the command of this number, from 0, of the project has made goes, and what is remembered of it
    /// (`IncrementalProjectBuilder.clean`).
    Clean(Name, u16),
    /// These states of participants are kept from now on, each in the place of what its participant kept before, and each
    /// with the tree as it is where it asks for what changes. What other participants keep stays.
    Saving(PartStates),
}

impl ServiceEvent {
    /// An equal event, which shares its texts and contents.
    pub fn copy(&self) -> Result<ServiceEvent, NoMemory>
        ensures { IfOk result (λ copy. copy ≡ self.now) }
    {
        match self {
            ServiceEvent::Checkout(purpose) => Ok(ServiceEvent::Checkout(purpose.copy()?)),
            ServiceEvent::CheckIn(outcome) => Ok(ServiceEvent::CheckIn(outcome.copy()?)),
            ServiceEvent::Handed(project, index, kind) => {
                Ok(ServiceEvent::Handed(project.copy()?, *index, *kind))
            }
            ServiceEvent::Commit(edits) => Ok(ServiceEvent::Commit(edits.copy()?)),
            ServiceEvent::Clean(project, index) => {
                Ok(ServiceEvent::Clean(project.copy()?, *index))
            }
            ServiceEvent::Saving(states) => Ok(ServiceEvent::Saving(states.copy()?)),
        }
    }
}
