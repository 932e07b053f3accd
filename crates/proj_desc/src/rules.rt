//! What the description of a project must keep besides: what it refers to, and what overlaps.
ghost use Rattle.std.specs.Prelude.{◌≡◌, ◌∷◌, ◌<◌, length, option_copied, position, IfOk, IfSome};
ghost use Rattle.std.specs.List.{list_any};
ghost use Rattle.std.specs.Str.{bytes_eq};
ghost use Rattle.res_path.specs.Parts.{is_slash};
ghost use Rattle.res_path.specs.Paths.{Names};
ghost use Rattle.proj_desc.specs.Described.{names};
ghost use Rattle.proj_desc.specs.Causes.{first_double, is_foreign, lies_in_none, meets, lies_below, outputs_from, inputs_from, command_link_cause, link_cause};
ghost use Rattle.res_path.specs.Paths.{overlap};

use crate::writing::inner_text;
use crate::{Command, Desc, DescCause, Input};
use res_path::{Name, NoMemory, Path};

/// Why this is no description of the project, its names and paths aside.
pub fn cause(project: &Name, desc: &Desc) -> Result<Option<DescCause>, NoMemory>
    ensures { IfOk result (λ cause. cause ≡ link_cause project.now desc.now) }
{
    let references = desc.references.as_slice();
    let commands = desc.commands.as_slice();
    if has_name(references, project.text().as_bytes()) {
        return Ok(Some(DescCause::SelfReference));
    }
    if let Some(name) = first_double(references) {
        return Ok(Some(DescCause::Double(name.copy()?)));
    }
    if let Some(i) = first_foreign(references, commands) {
        return Ok(Some(DescCause::Foreign(i)));
    }
    if let Some(cause) = first_outputs(commands) {
        return Ok(Some(cause));
    }
    Ok(first_inputs(commands))
}

/// Why this is no command of the project at this path, its names and paths aside.
pub fn command_cause(project: &Path, command: &Command) -> Option<DescCause>
    ensures { result ≡ command_link_cause project.now command.now }
{
    let inputs = command.inputs.as_slice();
    if lie_below(inputs, project) {
        return Some(DescCause::Foreign(0));
    }
    if are_met(inputs, &command.output) {
        return Some(DescCause::Inputs(0, 0));
    }
    None
}

fn has_name(names: &[Name], name: &[u8]) -> bool
    ensures { result ≡ list_any (bytes_eq name.now) names.now }
{
    names.iter().any(|n| name == n.text().as_bytes())
}

/// The first name that comes again.
fn first_double(names: &[Name]) -> Option<&Name>
    ensures { option_copied result ≡ first_double names.now }
{
    let mut rest = names;
    while let Some((first, others)) = rest.split_first() {
        if has_name(others, first.text().as_bytes()) {
            return Some(first);
        }
        rest = others;
    }
    None
}

/// The first command of which an input lies in another project that isn't among these.
fn first_foreign(projects: &[Name], commands: &[Command]) -> Option<usize>
    ensures { result ≡ position (λ c. list_any (is_foreign projects.now) c.inputs) commands.now }
{
    commands
        .iter()
        .position(|c| is_foreign(projects, c.inputs.as_slice()))
}

/// Whether an input lies in another project that isn't among these.
fn is_foreign(projects: &[Name], inputs: &[Input]) -> bool
    ensures { result ≡ list_any (is_foreign projects.now) inputs.now }
{
    inputs.iter().any(|input| lies_elsewhere(projects, input))
}

fn lies_elsewhere(projects: &[Name], input: &Input) -> bool
    ensures { result ≡ is_foreign projects.now input.now }
{
    match input {
        Input::Own(_) => false,
        Input::Other(path) => lies_in_none(projects, path),
    }
}

fn lies_in_none(projects: &[Name], path: &Path) -> bool
    ensures { result ≡ lies_in_none projects.now path.now }
{
    if path.depth() == 0 {
        return true;
    }
    let first = first_part(inner_text(path).as_bytes());
    !has_name(projects, first)
}

/// What stands before the first slash, all where there is none.
fn first_part(bytes: &[u8]) -> &[u8]
    ensures { (rest : Names) × (names bytes.now ≡ result.now ∷ rest) }
{
    match slash_at(bytes) {
        Some(at) => &bytes[..at],
        None => bytes,
    }
}

fn slash_at(bytes: &[u8]) -> Option<usize>
    ensures place { result ≡ position is_slash bytes.now }
    ensures bound { IfSome result (λ at. at < length bytes.now) }
{
    bytes.iter().position(|b| *b == b'/')
}

fn overlap(p: &Path, q: &Path) -> bool
    ensures { result ≡ overlap p.now q.now }
{
    p.is_prefix_of(q) || q.is_prefix_of(p)
}

fn meets(path: &Path, input: &Input) -> bool
    ensures { result ≡ meets path.now input.now }
{
    match input {
        Input::Own(own) => overlap(own, path),
        Input::Other(_) => false,
    }
}

fn lies_below(path: &Path, input: &Input) -> bool
    ensures { result ≡ lies_below path.now input.now }
{
    match input {
        Input::Own(_) => false,
        Input::Other(other) => path.is_prefix_of(other),
    }
}

/// Whether one of the inputs is one elsewhere and lies at or below the path.
fn lie_below(inputs: &[Input], path: &Path) -> bool
    ensures { result ≡ list_any (lies_below path.now) inputs.now }
{
    inputs.iter().any(|i| lies_below(path, i))
}

/// The first command, and then the first one after it, whose outputs overlap.
fn first_outputs(commands: &[Command]) -> Option<DescCause>
    ensures { result ≡ outputs_from 0 commands.now }
{
    for (i, command) in commands.iter().enumerate() {
        if let Some(j) = meeting_output(command, &commands[i + 1..]) {
            return Some(DescCause::Outputs(i, i + 1 + j));
        }
    }
    None
}

fn meeting_output(command: &Command, later: &[Command]) -> Option<usize>
    ensures place { result ≡ position (λ c. overlap command.now.output c.output) later.now }
    ensures bound { IfSome result (λ j. j < length later.now) }
{
    later
        .iter()
        .position(|c| overlap(&command.output, &c.output))
}

/// The first command, and then the first one from it on, whose output overlaps an input of the former.
fn first_inputs(commands: &[Command]) -> Option<DescCause>
    ensures { result ≡ inputs_from 0 commands.now }
{
    for (i, command) in commands.iter().enumerate() {
        if let Some(j) = met_output(command.inputs.as_slice(), &commands[i..]) {
            return Some(DescCause::Inputs(i, i + j));
        }
    }
    None
}

fn met_output(inputs: &[Input], later: &[Command]) -> Option<usize>
    ensures place { result ≡ position (λ c. list_any (meets c.output) inputs.now) later.now }
    ensures bound { IfSome result (λ j. j < length later.now) }
{
    later.iter().position(|c| are_met(inputs, &c.output))
}

/// Whether one of the inputs lies in its command's project and overlaps the path.
fn are_met(inputs: &[Input], path: &Path) -> bool
    ensures { result ≡ list_any (meets path.now) inputs.now }
{
    inputs.iter().any(|i| meets(path, i))
}
