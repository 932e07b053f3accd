//! The turns of a build and its rounds.
ghost use Rattle.std.specs.Prelude.{◌≡◌, ◌⊎◌, ◌∷◌, [], ℕ, List, IfOk, IfErr, OnOk, true};
ghost use Rattle.std.specs.List.{AllByRecursion};
ghost use Rattle.build_laws.specs.States.{IsItem, item};
ghost use Rattle.build_laws.specs.Turns.{Turn};
ghost use Rattle.build_laws.specs.Builds.{items_from, items_of, later, KnotBuilt};
ghost use Rattle.build_laws.specs.Planned.{IsDescribed};
ghost use Rattle.build_run.specs.Books.{Ran};
ghost use Rattle.build_run.specs.Ends.{Halts, RoundCame, RoundHalts, KnotHalts};

use crate::{Given, Host, Taken};
use builder_api::{BuildFault, BuildKind, BuildOutcome, Knot};
use proj_desc::{Command, Commands};
use res_path::Name;

/// How often a knot is built at most.
const ROUNDS: u32 = 10;

/// The outcome where a command's builder failed.
fn failed(project: &Name, index: u16) -> BuildOutcome
    ensures { (result ≡ BuildOutcome.BuilderFailed project.now index) ⊎ (result ≡ BuildOutcome.NoMemory) }
{
    match project.copy() {
        Ok(project) => BuildOutcome::BuilderFailed(project, index),
        Err(_) => BuildOutcome::NoMemory,
    }
}

/// One command in its turn, and whether it touched a file.
fn build_command<H: Host>(
    host: &mut H,
    project: &Name,
    index: u16,
    command: &Command,
    kind: BuildKind,
) -> Result<bool, BuildOutcome>
    requires ready { H.ready host.old }
    requires serving { (H.book host.old).serving ≡ true }
    requires described { IsItem (H.book host.old).now.descs (item project.now index command.now) }
    ensures stays { H.stays host.old host.new }
    ensures built { IfOk result (λ touched. RoundCame H.Told.meaning (H.book host.old) kind (item project.now index command.now ∷ []) touched (H.book host.new)) }
    ensures halted { IfErr result (λ outcome. Halts (H.book host.old) (item project.now index command.now) kind outcome (H.book host.new)) }
{
    let handed = match host.handed(project, index, command, kind) {
        Ok(Given::Due(handed)) => handed,
        Ok(Given::Refused(_)) => return Ok(false),
        Err(_) => return Err(BuildOutcome::NoMemory),
    };
    let edits = match host.run(project, index, command, &handed) {
        Ok(edits) => edits,
        Err(BuildFault::Failed) => return Err(failed(project, index)),
        Err(BuildFault::Memory) => return Err(BuildOutcome::NoMemory),
    };
    match host.commit(edits) {
        Ok(Taken::Committed { touched, .. }) => Ok(touched > 0),
        Ok(Taken::Refused(number)) => Err(BuildOutcome::Refused(number)),
        Err(_) => Err(BuildOutcome::NoMemory),
    }
}

/// The commands of a project in turn, and whether one of them touched a file.
fn build_commands<H: Host>(
    host: &mut H,
    project: &Name,
    commands: &[Command],
    kind: BuildKind,
) -> Result<bool, BuildOutcome>
    requires ready { H.ready host.old }
    requires serving { (H.book host.old).serving ≡ true }
    requires described { IsDescribed (H.book host.old).now.descs (project.now, commands.now) }
    ensures stays { H.stays host.old host.new }
    ensures came { IfOk result (λ touched. RoundCame H.Told.meaning (H.book host.old) kind (items_from project.now 0 commands.now) touched (H.book host.new)) }
    ensures halted { IfErr result (λ outcome. RoundHalts H.Told.meaning (H.book host.old) kind (items_from project.now 0 commands.now) outcome (H.book host.new)) }
{
    let mut touched = false;
    let mut index: u16 = 0;
    for command in commands {
        touched |= build_command(host, project, index, command, kind)?;
        index += 1;
    }
    Ok(touched)
}

/// The commands of projects in turn, and whether one of them touched a file.
pub(crate) fn build_round<H: Host>(
    host: &mut H,
    projects: &[(Name, Commands)],
    kind: BuildKind,
) -> Result<bool, BuildOutcome>
    requires ready { H.ready host.old }
    requires serving { (H.book host.old).serving ≡ true }
    requires described { AllByRecursion (IsDescribed (H.book host.old).now.descs) projects.now }
    ensures stays { H.stays host.old host.new }
    ensures came { IfOk result (λ touched. RoundCame H.Told.meaning (H.book host.old) kind (items_of projects.now) touched (H.book host.new)) }
    ensures halted { IfErr result (λ outcome. RoundHalts H.Told.meaning (H.book host.old) kind (items_of projects.now) outcome (H.book host.new)) }
{
    let mut touched = false;
    for project in projects {
        touched |= build_commands(host, &project.0, project.1.as_slice(), kind)?;
    }
    Ok(touched)
}

/// What later rounds of a knot ask for.
fn later(kind: BuildKind) -> BuildKind
    ensures { result ≡ later kind }
{
    match kind {
        BuildKind::Full => BuildKind::Incremental,
        BuildKind::Auto => BuildKind::Auto,
        BuildKind::Incremental => BuildKind::Incremental,
        BuildKind::Clean => BuildKind::Clean,
    }
}

/// The outcome where each of ten rounds of a knot touched a file.
fn unsettled(knot: &Knot) -> BuildOutcome
    ensures { (result ≡ BuildOutcome.Unsettled knot.now) ⊎ (result ≡ BuildOutcome.NoMemory) }
{
    match knot.copy() {
        Ok(knot) => BuildOutcome::Unsettled(knot),
        Err(_) => BuildOutcome::NoMemory,
    }
}

/// The projects of a knot in rounds until one touches no file, at most ten.
pub(crate) fn build_knot<H: Host>(
    host: &mut H,
    knot: &Knot,
    projects: &[(Name, Commands)],
    kind: BuildKind,
) -> Result<(), BuildOutcome>
    requires ready { H.ready host.old }
    requires serving { (H.book host.old).serving ≡ true }
    requires described { AllByRecursion (IsDescribed (H.book host.old).now.descs) projects.now }
    ensures stays { H.stays host.old host.new }
    ensures built { OnOk result ((xs : List Turn) × Ran H.Told.meaning (H.book host.old) (H.book host.new) xs × KnotBuilt kind (items_of projects.now) xs) }
    ensures halted { IfErr result (λ outcome. KnotHalts H.Told.meaning (H.book host.old) kind (items_of projects.now) knot.now outcome (H.book host.new)) }
{
    let mut asked = kind;
    for _round in 0..ROUNDS {
        if !build_round(host, projects, asked)? {
            return Ok(());
        }
        asked = later(asked);
    }
    Err(unsettled(knot))
}
