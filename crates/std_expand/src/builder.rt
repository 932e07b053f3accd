//! The builder.
ghost use Rattle.std.specs.Prelude.{◌≡◌, ◌≢◌, [], Err, IfOk};
ghost use Rattle.builder_api.specs.declared.builder.BuildFault.TheVariants.{Failed};
ghost use Rattle.builder_api.specs.Lawful.{Does};
ghost use Rattle.builder_api.specs.Tasks.{task_of, inputs_of};
ghost use Rattle.builder_api.specs.Told.{Built, Cleaned, WasCalled};
ghost use Rattle.std_kit.specs.Changes.{AreChanges};
ghost use Rattle.std_kit.specs.Making.{nothing_made};
ghost use Rattle.std_kit.specs.Roots.{rooted};
ghost use Rattle.std_kit.specs.Since.{IsAsPromised, AreDue};
ghost use Rattle.std_expand.specs.Expand.{with_roots, expand, expand_told};

use crate::expanding::expand_roots;
use crate::kept::Kept;
use builder_api::{BuildFault, Builder, Edits, Handed};
use proj_desc::Command;
use res_path::NoMemory;
use std::alloc::Global;
use std::marker::Model;
use std_kit::is_idle;

/// The builder `expand`. Of each input's files whose last name ends with `.in`, and is a name without it too, it makes
/// one at the same path without `.in`, in which each line `@include NAME` is replaced by the bytes of the file of the
/// same input whose relative path has the text NAME. These bytes are taken as they are. Where there is no such file the
/// line is left out, with the problem `missing NAME`, and where the path overlaps that of a file placed before, the
/// file is, with the problem `shadowed`.
///
/// It never fails. Its edits put and remove only files that differ. Costs one pass over the inputs, and a search for
/// each line that includes a file; no outputs are compared where a delta is handed by which nothing changed. How a file is cut at such lines is kept by its contents until `clean`. A contract
/// sees the list of these contents.
#[derive(Drop)]
pub struct Expand {
    // where it takes its memory
    alloc: Global,
    kept: Kept,
}

impl Model for Expand {
    ghost use Rattle.std.specs.Prelude.{ℕ, List};

    ghost Value = { List (List ℕ) };

    ghost view = { λ b. b.kept };
}

impl Expand {
    /// The builder, which takes its memory there, and has kept nothing yet. It takes no memory.
    pub fn new(alloc: Global) -> Expand
        ensures { result ≡ [] }
    {
        Expand {
            alloc,
            kept: Kept::nothing(alloc),
        }
    }
}

impl Builder for Expand {
    ghost use Rattle.std_expand.specs.Expand.{expand_told};

    ghost tells = { λ b. expand_told };

    fn name(&self) -> &str {
        "expand"
    }

    fn build(&mut self, command: &Command, handed: &Handed) -> Result<Edits, BuildFault>
        ensures lawful { IfOk result (λ edits. Does expand command.now handed.now edits) }
        ensures called { WasCalled (Built command.now handed.now) expand_told expand_told }
        ensures changes { IfOk result (λ edits. let c = task_of command.now handed.now in
            IsAsPromised expand c handed.now.delta handed.now.view → AreChanges c.output handed.now.view (expand c (inputs_of c handed.now.view)).files edits.files) }
        ensures problems { IfOk result (λ edits. let c = task_of command.now handed.now in edits.problems ≡ (expand c (inputs_of c handed.now.view)).problems) }
        ensures fails { result ≢ Err Failed }
    {
        Ok(edits_of(self.alloc, &mut self.kept, handed)?)
    }

    fn clean(&mut self)
        ensures called { WasCalled Cleaned expand_told expand_told }
        ensures emptied { self.new ≡ [] }
    {
        self.kept.clear();
    }
}

/// What it answers.
fn edits_of(alloc: Global, kept: &mut Kept, handed: &Handed) -> Result<Edits, NoMemory>
    ensures files { IfOk result (λ edits. AreDue handed.now (with_roots nothing_made (rooted handed.now.inputs handed.now.view)).files edits.files) }
    ensures problems { IfOk result (λ edits. edits.problems ≡ (with_roots nothing_made (rooted handed.now.inputs handed.now.view)).problems) }
{
    let made = expand_roots(alloc, kept, handed.inputs.as_slice(), &handed.view)?;
    if is_idle(handed) {
        return Ok(made.into_problems(alloc));
    }
    made.into_edits(alloc, &handed.output, &handed.view)
}
