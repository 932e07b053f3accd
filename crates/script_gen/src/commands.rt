//! Commands, one at a time.
ghost use Rattle.std.specs.Prelude.{◌≡◌, ◌++◌, ◌∷◌, [], decimal, IfOk, OnOk};
ghost use Rattle.script_lang.specs.declared.script.Command.TheVariants.{Operation};
ghost use Rattle.proj_desc.specs.Canonical.{canonical};
ghost use Rattle.script_gen.specs.Generated.{copying, description, project_path, references};

use crate::NoMemory;
use crate::naming::{below, name_of, numbered, project_path};
use bytes::{ByteStr, Bytes};
use op_kind::Op;
use proj_desc::{
    Command as BuildCommand, Commands as BuildCommands, Desc, Input, Inputs, References,
};
use res_path::Path;
use script_lang::{Command, Commands};
use std::alloc::Global;

/// Appends an operation.
pub fn put(commands: &mut Commands, op: Op) -> Result<(), NoMemory>
    ensures { OnOk result (commands.new ≡ commands.old ++ Operation op ∷ []) }
{
    commands.push(Command::Operation(op))
}

/// The projects that the project of this number refers to.
fn references(alloc: Global, project: u64) -> Result<References, NoMemory>
    ensures { IfOk result (λ names. names ≡ references project) }
{
    let mut names = Vec::new(alloc);
    if project > 0 {
        names.push(numbered(alloc, "G", project - 1)?)?;
    }
    Ok(References::of(names))
}

/// The one path of a text, which is a name.
fn inner(alloc: Global, text: &'static str) -> Result<Path, NoMemory>
    ensures { IfOk result (λ path. path ≡ text.now ∷ []) }
{
    below(alloc, &Path::root(), &name_of(ByteStr::from_static(text))?)
}

/// The build command of each project.
fn copying(alloc: Global) -> Result<BuildCommand, NoMemory>
    ensures { IfOk result (λ command. command ≡ copying) }
{
    let mut inputs = Vec::new(alloc);
    inputs.push(Input::Own(inner(alloc, "src")?))?;
    Ok(BuildCommand {
        builder: name_of(ByteStr::from_static("copy"))?,
        inputs: Inputs::of(inputs),
        output: inner(alloc, "bin")?,
    })
}

/// The text of the description of the project of this number.
fn description(alloc: Global, project: u64) -> Result<Bytes, NoMemory>
    ensures { IfOk result (λ text. text ≡ canonical (description project)) }
{
    let mut commands = Vec::new(alloc);
    commands.push(copying(alloc)?)?;
    let desc = Desc {
        references: references(alloc, project)?,
        commands: BuildCommands::of(commands),
    };
    Ok(Bytes::from_vec(desc.text(alloc)?)?)
}

/// Appends that the project of this number is described.
pub fn put_description(commands: &mut Commands, alloc: Global, project: u64) -> Result<(), NoMemory>
    ensures { OnOk result (commands.new ≡ commands.old ++ Operation (Op.Describe (project_path project) (canonical (description project))) ∷ []) }
{
    let text = description(alloc, project)?;
    put(commands, Op::Describe(project_path(alloc, project)?, text))
}
