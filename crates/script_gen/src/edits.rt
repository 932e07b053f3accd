//! The commands of a job that writes files of a project.
ghost use Rattle.std.specs.Prelude.{◌≡◌, ◌++◌, ◌∷◌, [], OnOk};
ghost use Rattle.script_gen.specs.Draws.{behind};
ghost use Rattle.script_gen.specs.Generated.{edits};

use crate::NoMemory;
use crate::commands::put;
use crate::draws::Draws;
use crate::naming::{contents, file_path, source_path};
use op_kind::Op;
use script_lang::Commands;
use std::alloc::Global;

/// Appends fifty writes of drawn contents to drawn files of the project of this number.
pub fn put_edits(
    commands: &mut Commands,
    alloc: Global,
    draws: &mut Draws,
    project: u64,
) -> Result<(), NoMemory>
    ensures commands { OnOk result (commands.new ≡ commands.old ++ edits draws.old project) }
    ensures draws { OnOk result (draws.new ≡ behind draws.old 100) }
{
    let source = source_path(alloc, project)?;
    for _ in 0u64..50 {
        let path = file_path(alloc, &source, draws.draw(100))?;
        let bytes = contents(alloc, draws.draw(32768))?;
        put(commands, Op::Write(path, bytes))?;
    }
    Ok(())
}
