//! Whether a command says what it said when it was built last.
ghost use Rattle.std.specs.Prelude.{◌≡◌, ◌&&◌};
ghost use Rattle.std.specs.Cmp.Lexicographic.{pointwise};
ghost use Rattle.res_path.specs.Paths.{path_eq};
ghost use Rattle.build_laws.specs.States.{same_input, same_command};

use crate::Site;
use proj_desc::{Command, Input, References};

impl Site {
    /// Whether the command is this one, and the references those of its project.
    pub fn is_same(&self, last: &Command, last_references: &References) -> bool
        ensures { result ≡ (same_command last.now self.now.command && path_eq last_references.now self.now.references) }
    {
        is_same_command(last, &self.command)
            && last_references.as_slice() == self.references.as_slice()
    }
}

fn is_same_command(one: &Command, other: &Command) -> bool
    ensures { result ≡ same_command one.now other.now }
{
    one.builder == other.builder
        && are_same_inputs(one.inputs.as_slice(), other.inputs.as_slice())
        && one.output == other.output
}

fn are_same_inputs(inputs: &[Input], others: &[Input]) -> bool
    ensures { result ≡ pointwise same_input inputs.now others.now }
{
    let mut rest = inputs;
    let mut left = others;
    while let Some((input, inputs)) = rest.split_first() {
        let Some((other, others)) = left.split_first() else {
            return false;
        };
        if !is_same_input(input, other) {
            return false;
        }
        rest = inputs;
        left = others;
    }
    left.is_empty()
}

fn is_same_input(input: &Input, other: &Input) -> bool
    ensures { result ≡ same_input input.now other.now }
{
    match (input, other) {
        (Input::Own(one), Input::Own(other)) => one == other,
        (Input::Other(one), Input::Other(other)) => one == other,
        (Input::Own(_), Input::Other(_)) | (Input::Other(_), Input::Own(_)) => false,
    }
}
