//! The script.
ghost use Rattle.std.specs.Prelude.{◌≡◌, ◌∷◌, [], IfOk, OnOk};
ghost use Rattle.script_lang.specs.Names.{HaveOwnNames};
ghost use Rattle.sched_rules.specs.declared.ws_atom.WsAtom.TheVariants as atoms;
ghost use Rattle.script_gen.specs.Draws.{behind};
ghost use Rattle.script_gen.specs.Generated.{edit_job, edit_jobs, finish_job, generated, setup_job};

use crate::NoMemory;
use crate::draws::Draws;
use crate::edits::put_edits;
use crate::naming::{name_of, numbered, project_path};
use crate::setup::put_projects;
use builder_api::BuildKind;
use bytes::ByteStr;
use res_path::Path;
use save_kind::SaveKind;
use sched_rules::{Rule, WsAtom};
use script_lang::{Command, Commands, Job, Jobs, Phase, Phases, Priority, Script, ScriptRule};
use std::alloc::Global;

/// The rule of one path.
fn rule_of(alloc: Global, path: Path) -> Result<ScriptRule, NoMemory>
    ensures { IfOk result (λ rule. rule ≡ atoms.Path path ∷ []) }
{
    match ScriptRule::of(Rule::of(alloc, WsAtom::Path(path))?) {
        Some(rule) => Ok(rule),
        None => unreachable!(),
    }
}

/// The job that makes the projects and builds them, in one batch.
fn setup_job(alloc: Global, draws: &mut Draws) -> Result<Job, NoMemory>
    ensures job { IfOk result (λ job. job ≡ setup_job draws.old) }
    ensures draws { OnOk result (draws.new ≡ behind draws.old 1600) }
{
    let mut commands = Commands::new(alloc);
    commands.push(Command::Batch)?;
    put_projects(&mut commands, alloc, draws)?;
    commands.push(Command::Build(BuildKind::Full, None))?;
    commands.push(Command::EndBatch)?;
    Ok(Job {
        name: name_of(ByteStr::from_static("setup"))?,
        priority: Priority::Long,
        asleep: false,
        rule: rule_of(alloc, Path::root())?,
        commands,
    })
}

/// The job in which files of the project of this number are written, in one batch.
fn edit_job(alloc: Global, draws: &mut Draws, project: u64) -> Result<Job, NoMemory>
    ensures job { IfOk result (λ job. job ≡ edit_job draws.old project) }
    ensures draws { OnOk result (draws.new ≡ behind draws.old 100) }
{
    let mut commands = Commands::new(alloc);
    commands.push(Command::Batch)?;
    put_edits(&mut commands, alloc, draws, project)?;
    commands.push(Command::EndBatch)?;
    Ok(Job {
        name: numbered(alloc, "e", project)?,
        priority: Priority::Long,
        asleep: false,
        rule: rule_of(alloc, project_path(alloc, project)?)?,
        commands,
    })
}

/// The jobs in which files are written, one for each project.
fn edit_jobs(alloc: Global, draws: &mut Draws) -> Result<Vec<Job>, NoMemory>
    ensures jobs { IfOk result (λ jobs. jobs.items ≡ edit_jobs draws.old) }
    ensures names { IfOk result (λ jobs. HaveOwnNames jobs.items) }
{
    let mut jobs = Vec::with_capacity(alloc, 16)?;
    for project in 0..16 {
        jobs.push(edit_job(alloc, draws, project)?)?;
    }
    Ok(jobs)
}

/// The job in which the workspace is built and saved.
fn finish_job(alloc: Global) -> Result<Job, NoMemory>
    ensures { IfOk result (λ job. job ≡ finish_job) }
{
    let mut commands = Commands::new(alloc);
    commands.push(Command::Build(BuildKind::Incremental, None))?;
    commands.push(Command::Save(SaveKind::Full))?;
    Ok(Job {
        name: name_of(ByteStr::from_static("finish"))?,
        priority: Priority::Build,
        asleep: false,
        rule: rule_of(alloc, Path::root())?,
        commands,
    })
}

/// The phase of one job.
fn phase_of(alloc: Global, job: Job) -> Result<Phase, NoMemory>
    ensures { IfOk result (λ phase. phase.jobs ≡ job ∷ []) }
{
    let mut jobs = Vec::with_capacity(alloc, 1)?;
    jobs.push(job)?;
    Ok(Phase {
        jobs: Jobs::of(jobs),
    })
}

/// The script that the number gives: sixteen projects are made, each with a hundred files, a description and a reference to
/// the one before it, and the workspace is built; then sixteen jobs write fifty files each, side by side; then it is built
/// and saved. Whatever is written and to which file is drawn, in the order of the script's text.
pub fn generate(alloc: Global, number: u32) -> Result<Script, NoMemory>
    ensures { IfOk result (λ script. script ≡ generated number) }
{
    let mut draws = Draws::from(number);
    let mut phases = Phases::new(alloc);
    phases.push(phase_of(alloc, setup_job(alloc, &mut draws)?)?)?;
    let edits = edit_jobs(alloc, &mut draws)?;
    phases.push(Phase {
        jobs: Jobs::of(edits),
    })?;
    phases.push(phase_of(alloc, finish_job(alloc)?)?)?;
    Ok(Script { phases })
}
