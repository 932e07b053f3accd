//! The build commands of a project.
ghost use Rattle.std.specs.Prelude.{◌≡◌, ◌↔◌, ℕ, List, [], None, IsTrue, IfOk, IfErr, OnOk};
ghost use Rattle.serde_json.specs.View.{view};
ghost use Rattle.proj_desc.specs.Causes.{command_cause, Tells};
ghost use Rattle.proj_desc.specs.Described.{command_of};
ghost use Rattle.proj_desc.specs.Canonical.{command_text, IsTextOf, IsCommandText};

use crate::desc::base;
use crate::{DescError, Inputs, reading, rules, value, writing};
use res_path::{Name, NoMemory, Path};
use serde_json::Value;
use std::alloc::{AllocError, Global};
use std::marker::Model;

/// A build command, as the platform's `ICommand`: what is called, what it reads and the one folder that it writes.
#[derive(Clone, Debug, Drop)]
pub struct Command {
    pub builder: Name,
    pub inputs: Inputs,
    /// A path inside the project, without the project's name.
    pub output: Path,
}

impl Command {
    /// Whether the text is the canonical text of a command of the project: of one that keeps what each description asks
    /// of a command by itself.
    pub fn is_canonical(alloc: Global, project: &Name, text: &[u8]) -> Result<bool, NoMemory>
        ensures { IfOk result (λ is. IsTrue is ↔ IsCommandText project.now text.now) }
    {
        match value::read(alloc, text) {
            Ok(value) => is_text_of(alloc, project, text, &value),
            Err(DescError::Bad(_)) => Ok(false),
            Err(DescError::Memory) => Err(AllocError),
        }
    }

    /// The canonical text: compact JSON, the members in the order of their names.
    pub fn text(&self, alloc: Global) -> Result<Vec<u8>, NoMemory>
        ensures text { IfOk result (λ bytes. bytes.items ≡ command_text self.now) }
        ensures back { IfOk result (λ bytes. (project : List ℕ) → command_cause project self.now ≡ None
            → IsCommandText project bytes.items) }
    {
        let value = writing::command_value(alloc, self)?;
        value.to_vec(alloc)
    }

    /// An equal command, which shares its texts.
    pub fn copy(&self) -> Result<Command, NoMemory>
        ensures { IfOk result (λ copy. copy ≡ self.now) }
    {
        self.clone()
    }
}

fn is_text_of(alloc: Global, project: &Name, text: &[u8], value: &Value) -> Result<bool, NoMemory>
    ensures { IfOk result (λ is. IsTrue is ↔ IsTextOf project.now text.now (command_of (view value.now))) }
{
    match command_of(alloc, project, value) {
        Ok(command) => Ok(command.text(alloc)?.as_slice() == text),
        Err(DescError::Bad(_)) => Ok(false),
        Err(DescError::Memory) => Err(AllocError),
    }
}

/// The command of the project that the value is, members of other names aside.
fn command_of(alloc: Global, project: &Name, value: &Value) -> Result<Command, DescError>
    ensures ok { IfOk result (λ command. command ≡ command_of (view value.now)) }
    ensures valid { OnOk result (command_cause project.now (command_of (view value.now)) ≡ None) }
    ensures bad { IfErr result (λ e. Tells (command_cause project.now (command_of (view value.now))) e) }
{
    let base = base(alloc, project)?;
    let command = reading::command(alloc, project, &base, value)?;
    match rules::command_cause(&base, &command) {
        Some(cause) => Err(DescError::Bad(cause)),
        None => Ok(command),
    }
}

/// The commands of a project, in the order in which they are built. A contract sees the list of them.
#[derive(Debug, Drop)]
pub struct Commands {
    commands: Vec<Command>,
}

impl Model for Commands {
    ghost use Rattle.std.specs.Prelude.{List};
    ghost use Rattle.proj_desc.specs.declared.command.Command.{Command};

    ghost Value = { List Command };

    ghost view = { λ i. i.commands.items };
}

impl Commands {
    /// No commands. It takes no memory.
    pub fn empty(alloc: Global) -> Commands
        ensures { result ≡ [] }
    {
        Commands {
            commands: Vec::new(alloc),
        }
    }

    /// These commands, of which nothing is copied.
    pub fn of(commands: Vec<Command>) -> Commands
        ensures { result ≡ commands.items }
    {
        Commands { commands }
    }

    /// The commands in order.
    pub fn as_slice(&self) -> &[Command]
        ensures { result.now ≡ self.now }
    {
        self.commands.as_slice()
    }

    /// The commands, of which nothing is copied.
    pub fn into_vec(self) -> Vec<Command>
        ensures { result.items ≡ self }
    {
        let Commands { commands } = self;
        commands
    }

    /// Equal commands, which share their texts.
    pub fn copy(&self) -> Result<Commands, NoMemory>
        ensures { IfOk result (λ copy. copy ≡ self.now) }
    {
        self.clone()
    }
}

impl Clone for Commands {
    ghost use Rattle.std.specs.Prelude.{◌≡◌};

    ghost is_clone = { λ commands copy. copy ≡ commands };

    fn clone(&self) -> Result<Commands, NoMemory> {
        let commands = self.commands.clone()?;
        Ok(Commands { commands })
    }
}
