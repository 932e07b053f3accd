//! The JSON value of a description.
ghost use Rattle.std.specs.Prelude.{◌≡◌, map, IfOk};
ghost use Rattle.serde_json.specs.Data.{string, array};
ghost use Rattle.serde_json.specs.View.{view, items_of};
ghost use Rattle.res_path.specs.Paths.{IsPath};
ghost use Rattle.proj_desc.specs.Canonical.{inner_text, input_text, texts, command_data, desc_data};

use crate::{Command, Desc, Input};
use res_path::{Name, NoMemory, Path};
use serde_json::{Map, Value};
use std::alloc::Global;

/// The JSON value of the description.
pub fn desc_value(alloc: Global, desc: &Desc) -> Result<Value, NoMemory>
    ensures { IfOk result (λ v. view v ≡ desc_data desc.now) }
{
    let mut members = Map::new(alloc);
    let commands = commands_value(alloc, desc.commands.as_slice())?;
    serde_json::put(&mut members, alloc, "commands", commands)?;
    let references = references_value(alloc, desc.references.as_slice())?;
    serde_json::put(&mut members, alloc, "references", references)?;
    Ok(Value::Object(members))
}

fn references_value(alloc: Global, names: &[Name]) -> Result<Value, NoMemory>
    ensures { IfOk result (λ v. view v ≡ texts names.now) }
{
    let mut values = Vec::new(alloc);
    for name in names {
        serde_json::push(&mut values, text_value(alloc, name.text())?)?;
    }
    Ok(Value::Array(values))
}

fn commands_value(alloc: Global, commands: &[Command]) -> Result<Value, NoMemory>
    ensures { IfOk result (λ v. view v ≡ array (items_of (map command_data commands.now))) }
{
    let mut values = Vec::new(alloc);
    for command in commands {
        serde_json::push(&mut values, command_value(alloc, command)?)?;
    }
    Ok(Value::Array(values))
}

/// The JSON value of the command.
pub fn command_value(alloc: Global, command: &Command) -> Result<Value, NoMemory>
    ensures { IfOk result (λ v. view v ≡ command_data command.now) }
{
    let mut members = Map::new(alloc);
    let builder = text_value(alloc, command.builder.text())?;
    serde_json::put(&mut members, alloc, "builder", builder)?;
    let inputs = inputs_value(alloc, command.inputs.as_slice())?;
    serde_json::put(&mut members, alloc, "inputs", inputs)?;
    let output = text_value(alloc, inner_text(&command.output))?;
    serde_json::put(&mut members, alloc, "output", output)?;
    Ok(Value::Object(members))
}

fn inputs_value(alloc: Global, inputs: &[Input]) -> Result<Value, NoMemory>
    ensures { IfOk result (λ v. view v ≡ texts (map input_text inputs.now)) }
{
    let mut values = Vec::new(alloc);
    for input in inputs {
        serde_json::push(&mut values, text_value(alloc, input_text(input))?)?;
    }
    Ok(Value::Array(values))
}

fn text_value(alloc: Global, text: &str) -> Result<Value, NoMemory>
    ensures { IfOk result (λ v. view v ≡ string text.now) }
{
    Ok(Value::String(String::from_str(alloc, text)?))
}

fn input_text(input: &Input) -> &str
    ensures { result.now ≡ input_text input.now }
{
    match input {
        Input::Own(path) => inner_text(path),
        Input::Other(path) => path.as_str(),
    }
}

/// The path's text without its first slash.
pub fn inner_text(path: &Path) -> &str
    ensures text { result.now ≡ inner_text path.now }
    ensures form { IsPath path.now }
{
    &path.as_str()[1..]
}
