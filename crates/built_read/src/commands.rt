//! A build command out of its text.
ghost use Rattle.std.specs.Prelude.{◌≡◌, drop, map, true, IfOk, Some};
ghost use Rattle.serde_json.specs.View.{view};
ghost use Rattle.proj_desc.specs.Values.{text};
ghost use Rattle.proj_desc.specs.Described.{begins_with_slash, command_of, input_of, names};
ghost use Rattle.proj_desc.specs.Canonical.{commanded};
ghost use Rattle.built_read.specs.Records.{HasCommand};

use crate::NoMemory;
use crate::values::{items_at, text, text_at, value_of};
use proj_desc::{Command, Input, Inputs};
use res_path::{Name, Path};
use serde_json::Value;
use std::alloc::{AllocError, Global};
use ws_durable::Built;

/// The command of what was built last, read from its text.
pub fn command_of(alloc: Global, built: &Built) -> Result<Command, NoMemory>
    requires { HasCommand built.now }
    ensures { IfOk result (λ command. commanded built.now.command ≡ Some command) }
{
    let value = value_of(alloc, &built.command)?;
    command_in(alloc, &value)
}

fn command_in(alloc: Global, value: &Value) -> Result<Command, NoMemory>
    ensures { IfOk result (λ command. command ≡ command_of (view value.now)) }
{
    let builder = name_of(alloc, text_at(value, "builder"))?;
    let inputs = inputs_of(alloc, items_at(value, "inputs"))?;
    let output = inside(alloc, text_at(value, "output"))?;
    Ok(Command {
        builder,
        inputs: Inputs::of(inputs),
        output,
    })
}

// The texts below are those of names and paths, so that only memory can want.
fn name_of(alloc: Global, text: &str) -> Result<Name, NoMemory>
    ensures { IfOk result (λ name. name ≡ text.now) }
{
    match Name::parse(alloc, text) {
        Ok(name) => Ok(name),
        Err(_) => Err(AllocError),
    }
}

fn inputs_of(alloc: Global, values: &[Value]) -> Result<Vec<Input>, NoMemory>
    ensures { IfOk result (λ inputs. inputs.items ≡ map (λ v. input_of (text v)) (map view values.now)) }
{
    let mut inputs = Vec::with_capacity(alloc, values.len())?;
    for value in values {
        inputs.push(input_of(alloc, text(value))?)?;
    }
    Ok(inputs)
}

fn input_of(alloc: Global, text: &str) -> Result<Input, NoMemory>
    ensures { IfOk result (λ input. input ≡ input_of text.now) }
{
    if begins_with_slash(text) {
        Ok(Input::Other(path_of(alloc, text)?))
    } else {
        Ok(Input::Own(inside(alloc, text)?))
    }
}

fn begins_with_slash(text: &str) -> bool
    ensures { result ≡ begins_with_slash text.now }
{
    match text.as_bytes() {
        [b, ..] => *b == b'/',
        [] => false,
    }
}

/// The path with this text, which begins with a slash and has a name.
fn path_of(alloc: Global, text: &str) -> Result<Path, NoMemory>
    requires { begins_with_slash text.now ≡ true }
    ensures { IfOk result (λ path. path ≡ names (drop 1 text.now)) }
{
    match Path::parse(alloc, text) {
        Ok(path) if path.as_str().len() == 1 => Err(AllocError),
        Ok(path) => Ok(path),
        Err(_) => Err(AllocError),
    }
}

/// The path inside the project with this text, which has no slash before it.
fn inside(alloc: Global, text: &str) -> Result<Path, NoMemory>
    ensures { IfOk result (λ path. path ≡ names text.now) }
{
    let slashed = format!(in alloc; "/{text}")?;
    path_of(alloc, slashed.as_str())
}
