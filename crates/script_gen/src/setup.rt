//! The job that makes the projects.
ghost use Rattle.std.specs.Prelude.{◌≡◌, ◌++◌, OnOk};
ghost use Rattle.script_gen.specs.Draws.{behind};
ghost use Rattle.script_gen.specs.Generated.{files, project_commands, projects};

use crate::NoMemory;
use crate::commands::{put, put_description};
use crate::draws::Draws;
use crate::naming::{contents, file_path, project_path, source_path};
use op_kind::Op;
use script_lang::Commands;
use std::alloc::Global;

/// Appends that the files of the project of this number are made, a hundred with drawn contents.
fn put_files(
    commands: &mut Commands,
    alloc: Global,
    draws: &mut Draws,
    project: u64,
) -> Result<(), NoMemory>
    ensures commands { OnOk result (commands.new ≡ commands.old ++ files draws.old project) }
    ensures draws { OnOk result (draws.new ≡ behind draws.old 100) }
{
    let source = source_path(alloc, project)?;
    for file in 0..100 {
        let path = file_path(alloc, &source, file)?;
        let bytes = contents(alloc, draws.draw(32768))?;
        put(commands, Op::CreateFile(path, bytes))?;
    }
    Ok(())
}

/// Appends that the project of this number is made, with its files.
fn put_project(
    commands: &mut Commands,
    alloc: Global,
    draws: &mut Draws,
    project: u64,
) -> Result<(), NoMemory>
    ensures commands { OnOk result (commands.new ≡ commands.old ++ project_commands draws.old project) }
    ensures draws { OnOk result (draws.new ≡ behind draws.old 100) }
{
    put(commands, Op::CreateProject(project_path(alloc, project)?))?;
    put_description(commands, alloc, project)?;
    put(commands, Op::CreateFolder(source_path(alloc, project)?))?;
    put_files(commands, alloc, draws, project)
}

/// Appends that all projects are made.
pub fn put_projects(
    commands: &mut Commands,
    alloc: Global,
    draws: &mut Draws,
) -> Result<(), NoMemory>
    ensures commands { OnOk result (commands.new ≡ commands.old ++ projects draws.old) }
    ensures draws { OnOk result (draws.new ≡ behind draws.old 1600) }
{
    for project in 0..16 {
        put_project(commands, alloc, draws, project)?;
    }
    Ok(())
}
