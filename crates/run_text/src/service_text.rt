//! The words of what concerns the services.
ghost use Rattle.std.specs.Prelude.{◌≡◌, ◌++◌, codes, decimal, length, OnOk};
ghost use Rattle.std.specs.List.{flat_map};
ghost use Rattle.std.specs.Option.{option_copied};
ghost use Rattle.builder_api.specs.Kinds.{build_number};
ghost use Rattle.save_kind.specs.Kinds.{save_number};
ghost use Rattle.run_text.specs.Services.{build_outcome_text, command_words, member_text, outcome_text, project_word, purpose_text, save_answer_text, scope_text, service_text, under_words};

use crate::NoMemory;
use crate::under_way::Current;
use builder_api::{BuildKind, BuildOutcome};
use core_event::{Outcomes, Purpose, ServiceEvent};
use report_text::{put_counted, put_named, put_text};
use res_path::Name;
use save_kind::{PartStates, SaveAnswer, SaveKind};

/// Appends a text and the path of the project of this name, as a word.
#[tactic(auto, using(crate::proofs::Projects::project_text))]
fn put_project(out: &mut Vec<u8>, before: &str, name: &Name) -> Result<(), NoMemory>
    ensures { OnOk result (out.new.items ≡ out.old.items ++ before.now ++ project_word name.now) }
{
    let mut path = Vec::new(*out.allocator());
    put_text(&mut path, "/")?;
    put_text(&mut path, name.text())?;
    put_named(out, before, path.as_slice())
}

/// Appends a text, the path of a project and the number of one of its commands.
fn put_command(out: &mut Vec<u8>, before: &str, project: &Name, index: u16) -> Result<(), NoMemory>
    ensures { OnOk result (out.new.items ≡ out.old.items ++ before.now ++ command_words project.now index) }
{
    put_project(out, before, project)?;
    put_counted(out, " ", u64::from(index))
}

/// Appends a text and the number of a kind.
fn put_kind(out: &mut Vec<u8>, before: &str, kind: BuildKind) -> Result<(), NoMemory>
    ensures { OnOk result (out.new.items ≡ out.old.items ++ before.now ++ decimal (build_number kind)) }
{
    put_counted(out, before, u64::from(kind.number()))
}

fn put_scope(out: &mut Vec<u8>, project: Option<&Name>) -> Result<(), NoMemory>
    ensures { OnOk result (out.new.items ≡ out.old.items ++ scope_text (option_copied project.entry)) }
{
    match project {
        None => Ok(()),
        Some(project) => put_project(out, " ", project),
    }
}

fn put_purpose(out: &mut Vec<u8>, purpose: &Purpose) -> Result<(), NoMemory>
    ensures { OnOk result (out.new.items ≡ out.old.items ++ purpose_text purpose.now) }
{
    match purpose {
        Purpose::Build(kind, project) => {
            put_kind(out, "build ", *kind)?;
            put_scope(out, project.as_ref())
        }
        Purpose::Save(kind) => put_save(out, *kind),
    }
}

/// Appends the word of a save, and the number of its kind as it was asked.
fn put_save(out: &mut Vec<u8>, kind: SaveKind) -> Result<(), NoMemory>
    ensures { OnOk result (out.new.items ≡ out.old.items ++ codes "save " ++ decimal (save_number kind)) }
{
    put_counted(out, "save ", u64::from(kind.number()))
}

fn put_members(out: &mut Vec<u8>, names: &[Name]) -> Result<(), NoMemory>
    ensures { OnOk result (out.new.items ≡ out.old.items ++ flat_map member_text names.now) }
{
    for name in names {
        put_project(out, " ", name)?;
    }
    Ok(())
}

fn put_unsettled(out: &mut Vec<u8>, names: &[Name]) -> Result<(), NoMemory>
    ensures { OnOk result (out.new.items ≡ out.old.items ++ codes "unsettled" ++ flat_map member_text names.now) }
{
    put_text(out, "unsettled")?;
    put_members(out, names)
}

fn put_build_outcome(out: &mut Vec<u8>, outcome: &BuildOutcome) -> Result<(), NoMemory>
    ensures { OnOk result (out.new.items ≡ out.old.items ++ build_outcome_text outcome.now) }
{
    match outcome {
        BuildOutcome::Settled => put_text(out, "settled"),
        BuildOutcome::Unsettled(knot) => put_unsettled(out, knot.as_slice()),
        BuildOutcome::BuilderFailed(project, index) => {
            put_command(out, "failed ", project, *index)
        }
        BuildOutcome::Refused(number) => put_counted(out, "refused ", u64::from(*number)),
        BuildOutcome::Cleaned => put_text(out, "cleaned"),
        BuildOutcome::NoMemory => put_text(out, "no-memory"),
    }
}

fn put_save_answer(out: &mut Vec<u8>, answer: &SaveAnswer) -> Result<(), NoMemory>
    ensures { OnOk result (out.new.items ≡ out.old.items ++ save_answer_text answer.now) }
{
    match answer {
        SaveAnswer::Saved => put_text(out, "saved"),
        SaveAnswer::SaveFailed => put_text(out, "save-failed"),
        SaveAnswer::ParticipantFailed(name) => {
            put_named(out, "participant ", name.text().as_bytes())
        }
        SaveAnswer::SaveTooLarge => put_text(out, "save-too-large"),
        SaveAnswer::SaveNumbers => put_text(out, "save-numbers"),
        SaveAnswer::NoMemory => put_text(out, "no-memory"),
    }
}

fn put_outcome(out: &mut Vec<u8>, outcome: &Outcomes) -> Result<(), NoMemory>
    ensures { OnOk result (out.new.items ≡ out.old.items ++ outcome_text outcome.now) }
{
    match outcome {
        Outcomes::Build(outcome) => put_build_outcome(out, outcome),
        Outcomes::Save(answer) => put_save_answer(out, answer),
    }
}

fn put_checkout(out: &mut Vec<u8>, purpose: &Purpose) -> Result<(), NoMemory>
    ensures { OnOk result (out.new.items ≡ out.old.items ++ codes "checkout " ++ purpose_text purpose.now) }
{
    put_text(out, "checkout ")?;
    put_purpose(out, purpose)
}

fn put_check_in(out: &mut Vec<u8>, outcome: &Outcomes) -> Result<(), NoMemory>
    ensures { OnOk result (out.new.items ≡ out.old.items ++ codes "checkin " ++ outcome_text outcome.now) }
{
    put_text(out, "checkin ")?;
    put_outcome(out, outcome)
}

fn put_handed(
    out: &mut Vec<u8>,
    project: &Name,
    index: u16,
    kind: BuildKind,
) -> Result<(), NoMemory>
    ensures { OnOk result (out.new.items ≡ out.old.items ++ codes "handed " ++ command_words project.now index ++ codes " " ++ decimal (build_number kind)) }
{
    put_command(out, "handed ", project, index)?;
    put_kind(out, " ", kind)
}

fn put_commit(out: &mut Vec<u8>, under: &Current<'_>) -> Result<(), NoMemory>
    ensures { OnOk result (out.new.items ≡ out.old.items ++ codes "commit " ++ under_words under.now) }
{
    match &under.command {
        None => put_text(out, "commit - -"),
        Some((project, index)) => put_command(out, "commit ", project, *index),
    }
}

fn put_saving(out: &mut Vec<u8>, states: &PartStates) -> Result<(), NoMemory>
    ensures { OnOk result (out.new.items ≡ out.old.items ++ codes "saving " ++ decimal (length states.now)) }
{
    put_counted(out, "saving ", states.as_slice().len() as u64)
}

/// Appends the words of what is asked of the services, where this command is under way.
pub(crate) fn put_service(
    out: &mut Vec<u8>,
    under: &Current<'_>,
    event: &ServiceEvent,
) -> Result<(), NoMemory>
    ensures { OnOk result (out.new.items ≡ out.old.items ++ service_text under.now event.now) }
{
    match event {
        ServiceEvent::Checkout(purpose) => put_checkout(out, purpose),
        ServiceEvent::CheckIn(outcome) => put_check_in(out, outcome),
        ServiceEvent::Handed(project, index, kind) => put_handed(out, project, *index, *kind),
        ServiceEvent::Commit(_) => put_commit(out, under),
        ServiceEvent::Clean(project, index) => put_command(out, "clean ", project, *index),
        ServiceEvent::Saving(states) => put_saving(out, states),
    }
}
