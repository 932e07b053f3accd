//! What a command reads.
ghost use Rattle.std.specs.Prelude.{◌≡◌, [], IfOk};

use res_path::{NoMemory, Path};
use std::alloc::Global;
use std::marker::Model;

/// What a command reads.
#[derive(Clone, Debug, Drop)]
pub enum Input {
    /// A path inside the command's project, without the project's name.
    Own(Path),
    /// A path of the workspace, in another project.
    Other(Path),
}

impl Input {
    /// An equal input, which shares the text.
    pub fn copy(&self) -> Result<Input, NoMemory>
        ensures { IfOk result (λ copy. copy ≡ self.now) }
    {
        self.clone()
    }
}

/// The inputs of a command, in the order of its description. A contract sees the list of them.
#[derive(Debug, Drop)]
pub struct Inputs {
    inputs: Vec<Input>,
}

impl Model for Inputs {
    ghost use Rattle.std.specs.Prelude.{List};
    ghost use Rattle.proj_desc.specs.declared.input.Input.{Input};

    ghost Value = { List Input };

    ghost view = { λ i. i.inputs.items };
}

impl Inputs {
    /// No inputs. It takes no memory.
    pub fn empty(alloc: Global) -> Inputs
        ensures { result ≡ [] }
    {
        Inputs {
            inputs: Vec::new(alloc),
        }
    }

    /// These inputs, of which nothing is copied.
    pub fn of(inputs: Vec<Input>) -> Inputs
        ensures { result ≡ inputs.items }
    {
        Inputs { inputs }
    }

    /// The inputs in order.
    pub fn as_slice(&self) -> &[Input]
        ensures { result.now ≡ self.now }
    {
        self.inputs.as_slice()
    }

    /// The inputs, of which nothing is copied.
    pub fn into_vec(self) -> Vec<Input>
        ensures { result.items ≡ self }
    {
        let Inputs { inputs } = self;
        inputs
    }

    /// Equal inputs, which share their texts.
    pub fn copy(&self) -> Result<Inputs, NoMemory>
        ensures { IfOk result (λ copy. copy ≡ self.now) }
    {
        self.clone()
    }
}

impl Clone for Inputs {
    ghost use Rattle.std.specs.Prelude.{◌≡◌};

    ghost is_clone = { λ inputs copy. copy ≡ inputs };

    fn clone(&self) -> Result<Inputs, NoMemory> {
        let inputs = self.inputs.clone()?;
        Ok(Inputs { inputs })
    }
}
