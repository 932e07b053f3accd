//! Names and paths out of a value that has a description's shape.
ghost use Rattle.std.specs.Prelude.{◌≡◌, ◌<◌, ◌||◌, length, drop, map, codes, not, true, None, nat_lt, IfOk, IfErr, OnOk};
ghost use Rattle.std.specs.List.{list_all, list_any};
ghost use Rattle.serde_json.specs.View.{view};
ghost use Rattle.res_path.specs.Names.{is_name};
ghost use Rattle.proj_desc.specs.Values.{text, text_at};
ghost use Rattle.proj_desc.specs.Described.{names, begins_with_slash, input_of, command_of, desc_of};
ghost use Rattle.proj_desc.specs.Causes.{Tells, has_many_inputs, is_inside, is_path, is_placed, has_places, command_word_cause, word_cause};
ghost use Rattle.proj_desc.specs.Inside.Placing.{told_path, IsBase};
ghost use Rattle.proj_desc.specs.FirstCause.{when};

use crate::value::{items_at, text, text_at};
use crate::{Command, Commands, Desc, DescCause, DescError, Input, Inputs, References};
use res_path::{Name, Path, PathError};
use serde_json::Value;
use std::alloc::Global;

/// The most references that a description has.
const MAX_REFERENCES: usize = 256;

/// The most commands that a description has.
const MAX_COMMANDS: usize = 64;

/// The most inputs that a command has.
const MAX_INPUTS: usize = 64;

/// The description that the value is, `base` being the project's path. What refers to another is not looked at.
pub fn desc(alloc: Global, project: &Name, base: &Path, value: &Value) -> Result<Desc, DescError>
    requires { IsBase project.now base.now }
    ensures ok { IfOk result (λ desc. desc ≡ desc_of (view value.now)) }
    ensures valid { OnOk result (word_cause project.now (desc_of (view value.now)) ≡ None) }
    ensures bad { IfErr result (λ e. Tells (word_cause project.now (desc_of (view value.now))) e) }
{
    let references = items_at(value, "references");
    let commands = items_at(value, "commands");
    if are_many(references, commands) {
        return Err(DescError::Bad(DescCause::Many));
    }
    let references = names_of(alloc, references)?;
    check_builders(alloc, commands)?;
    let commands = commands_of(alloc, project, base, commands)?;
    Ok(Desc {
        references: References::of(references),
        commands: Commands::of(commands),
    })
}

fn are_many(references: &[Value], commands: &[Value]) -> bool
    ensures { result ≡ (nat_lt 256 (length references.now) || nat_lt 64 (length commands.now)
        || list_any has_many_inputs (map command_of (map view commands.now))) }
{
    if references.len() > MAX_REFERENCES {
        return true;
    }
    if commands.len() > MAX_COMMANDS {
        return true;
    }
    some_have_many_inputs(commands)
}

fn some_have_many_inputs(commands: &[Value]) -> bool
    ensures { result ≡ list_any (λ c. has_many_inputs (command_of (view c))) commands.now }
{
    commands.iter().any(|c| has_many_inputs(c))
}

fn has_many_inputs(command: &Value) -> bool
    ensures { result ≡ has_many_inputs (command_of (view command.now)) }
{
    items_at(command, "inputs").len() > MAX_INPUTS
}

fn name_of(alloc: Global, text: &str) -> Result<Name, DescError>
    ensures ok { IfOk result (λ name. name ≡ text.now) }
    ensures form { OnOk result (is_name text.now ≡ true) }
    ensures bad { IfErr result (λ e. Tells (when (not (is_name text.now)) DescCause.BadName) e) }
{
    match Name::parse(alloc, text) {
        Ok(name) => Ok(name),
        Err(PathError::Memory) => Err(DescError::Memory),
        Err(_) => Err(DescError::Bad(DescCause::BadName)),
    }
}

/// The names that the texts in the list are.
fn names_of(alloc: Global, values: &[Value]) -> Result<Vec<Name>, DescError>
    ensures ok { IfOk result (λ names. names.items ≡ map text (map view values.now)) }
    ensures form { OnOk result (list_all is_name (map text (map view values.now)) ≡ true) }
    ensures bad { IfErr result (λ e. Tells (when (not (list_all is_name (map text (map view values.now)))) DescCause.BadName) e) }
{
    let mut names = Vec::with_capacity(alloc, values.len())?;
    for value in values {
        names.push(name_of(alloc, text(value))?)?;
    }
    Ok(names)
}

/// Whether the builders of these commands are names.
fn check_builders(alloc: Global, commands: &[Value]) -> Result<(), DescError>
    ensures form { OnOk result (list_all (λ c. is_name c.builder) (map command_of (map view commands.now)) ≡ true) }
    ensures bad { IfErr result (λ e. Tells (when (not (list_all (λ c. is_name c.builder) (map command_of (map view commands.now))))
        DescCause.BadName) e) }
{
    for command in commands {
        name_of(alloc, text_at(command, "builder"))?;
    }
    Ok(())
}

fn commands_of(
    alloc: Global,
    project: &Name,
    base: &Path,
    values: &[Value],
) -> Result<Vec<Command>, DescError>
    requires base { IsBase project.now base.now }
    requires named { list_all (λ c. is_name c.builder) (map command_of (map view values.now)) ≡ true }
    ensures ok { IfOk result (λ commands. commands.items ≡ map command_of (map view values.now)) }
    ensures form { OnOk result (list_all (has_places project.now) (map command_of (map view values.now)) ≡ true) }
    ensures bad { IfErr result (λ e. Tells (when (not (list_all (has_places project.now) (map command_of (map view values.now))))
        DescCause.BadPath) e) }
{
    let mut commands = Vec::with_capacity(alloc, values.len())?;
    for value in values {
        commands.push(command_of(alloc, project, base, value)?)?;
    }
    Ok(commands)
}

fn command_of(
    alloc: Global,
    project: &Name,
    base: &Path,
    value: &Value,
) -> Result<Command, DescError>
    requires base { IsBase project.now base.now }
    requires named { is_name (text_at (codes "builder") (view value.now)) ≡ true }
    ensures ok { IfOk result (λ command. command ≡ command_of (view value.now)) }
    ensures form { OnOk result (has_places project.now (command_of (view value.now)) ≡ true) }
    ensures bad { IfErr result (λ e. Tells (when (not (has_places project.now (command_of (view value.now)))) DescCause.BadPath) e) }
{
    let builder = name_of(alloc, text_at(value, "builder"))?;
    let inputs = inputs_of(alloc, project, base, items_at(value, "inputs"))?;
    let output = inside(alloc, project, base, text_at(value, "output"))?;
    Ok(Command {
        builder,
        inputs: Inputs::of(inputs),
        output,
    })
}

/// The command that the value is. What it refers to, and what overlaps, is not looked at.
pub fn command(
    alloc: Global,
    project: &Name,
    base: &Path,
    value: &Value,
) -> Result<Command, DescError>
    requires { IsBase project.now base.now }
    ensures ok { IfOk result (λ command. command ≡ command_of (view value.now)) }
    ensures valid { OnOk result (command_word_cause project.now (command_of (view value.now)) ≡ None) }
    ensures bad { IfErr result (λ e. Tells (command_word_cause project.now (command_of (view value.now))) e) }
{
    if has_many_inputs(value) {
        return Err(DescError::Bad(DescCause::Many));
    }
    name_of(alloc, text_at(value, "builder"))?;
    command_of(alloc, project, base, value)
}

fn inputs_of(
    alloc: Global,
    project: &Name,
    base: &Path,
    values: &[Value],
) -> Result<Vec<Input>, DescError>
    requires { IsBase project.now base.now }
    ensures ok { IfOk result (λ inputs. inputs.items ≡ map (λ v. input_of (text v)) (map view values.now)) }
    ensures form { OnOk result (list_all (is_placed project.now) (map (λ v. input_of (text v)) (map view values.now)) ≡ true) }
    ensures bad { IfErr result (λ e. Tells (when (not (list_all (is_placed project.now) (map (λ v. input_of (text v)) (map view values.now))))
        DescCause.BadPath) e) }
{
    let mut inputs = Vec::with_capacity(alloc, values.len())?;
    for value in values {
        inputs.push(input_of(alloc, project, base, text(value))?)?;
    }
    Ok(inputs)
}

fn input_of(alloc: Global, project: &Name, base: &Path, text: &str) -> Result<Input, DescError>
    requires { IsBase project.now base.now }
    ensures ok { IfOk result (λ input. input ≡ input_of text.now) }
    ensures form { OnOk result (is_placed project.now (input_of text.now) ≡ true) }
    ensures bad { IfErr result (λ e. Tells (when (not (is_placed project.now (input_of text.now))) DescCause.BadPath) e) }
{
    if begins_with_slash(text) {
        Ok(Input::Other(path_of(alloc, text)?))
    } else {
        Ok(Input::Own(inside(alloc, project, base, text)?))
    }
}

fn begins_with_slash(text: &str) -> bool
    ensures { result ≡ begins_with_slash text.now }
{
    match text.as_bytes() {
        [b, ..] => *b == b'/',
        [] => false,
    }
}

/// The path with this text, which begins with a slash and has a name.
fn path_of(alloc: Global, text: &str) -> Result<Path, DescError>
    requires { begins_with_slash text.now ≡ true }
    ensures ok { IfOk result (λ path. path ≡ names (drop 1 text.now)) }
    ensures form { OnOk result (is_path (names (drop 1 text.now)) ≡ true) }
    ensures bad { IfErr result (λ e. Tells (when (not (is_path (names (drop 1 text.now)))) DescCause.BadPath) e) }
{
    match Path::parse(alloc, text) {
        Ok(path) if path.as_str().len() == 1 => Err(DescError::Bad(DescCause::BadPath)),
        Ok(path) => Ok(path),
        Err(error) => Err(told(error)),
    }
}

fn told(error: PathError) -> DescError
    ensures { result ≡ told_path error }
{
    match error {
        PathError::Memory => DescError::Memory,
        PathError::BadSegment { .. } | PathError::TooDeep | PathError::TooLong => {
            DescError::Bad(DescCause::BadPath)
        }
    }
}

/// The path inside the project with this text, which has no slash before it.
fn inside(alloc: Global, project: &Name, base: &Path, text: &str) -> Result<Path, DescError>
    requires { IsBase project.now base.now }
    ensures ok { IfOk result (λ path. path ≡ names text.now) }
    ensures form { OnOk result (is_inside project.now (names text.now) ≡ true) }
    ensures bad { IfErr result (λ e. Tells (when (not (is_inside project.now (names text.now))) DescCause.BadPath) e) }
{
    let slashed = format!(in alloc; "/{text}")?;
    let path = path_of(alloc, slashed.as_str())?;
    check_inside(alloc, project, base, &path)?;
    Ok(path)
}

/// Whether the path is one where the project's name stands before it.
fn check_inside(alloc: Global, project: &Name, base: &Path, path: &Path) -> Result<(), DescError>
    requires base { IsBase project.now base.now }
    requires path { is_path path.now ≡ true }
    requires some { 0 < length path.now }
    ensures form { OnOk result (is_inside project.now path.now ≡ true) }
    ensures bad { IfErr result (λ e. Tells (when (not (is_inside project.now path.now)) DescCause.BadPath) e) }
{
    let top = Path::root();
    match path.rebase(alloc, &top, base) {
        Ok(_) => Ok(()),
        Err(error) => Err(told(error)),
    }
}
