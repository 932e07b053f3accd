//! The builder.
ghost use Rattle.std.specs.Prelude.{◌≡◌, ◌≢◌, Err, IfOk, IfSome, IsSomeAnd};
ghost use Rattle.builder_api.specs.declared.builder.BuildFault.TheVariants.{Failed};
ghost use Rattle.builder_api.specs.Tasks.{task_of, inputs_of};
ghost use Rattle.builder_api.specs.Lawful.{Does};
ghost use Rattle.builder_api.specs.Told.{Built, WasCalled};
ghost use Rattle.std_kit.specs.Changes.{AreChanges};
ghost use Rattle.std_kit.specs.Roots.{rooted};
ghost use Rattle.std_kit.specs.Since.{IsAsPromised, AreDue};
ghost use Rattle.std_copy.specs.Copied.{copy, copied, copy_told};
ghost use Rattle.std_copy.specs.Inside.Shortcuts.{AreTold};

use crate::copying::made_of;
use crate::shortcut::told_edits;
use builder_api::{BuildFault, Builder, Edits, Handed};
use proj_desc::Command;
use res_path::NoMemory;
use std::alloc::Global;
use std_kit::is_idle;

/// The builder `copy`. It takes the files of all inputs, input by input, each in path order, and puts each with its
/// bytes at its path from its input, or at its last name where the input is the file itself. Where that path overlaps
/// one that is taken, the file is left out, with the problem `shadowed`, a warning of the whole file. It never fails.
/// Its edits touch only the files that differ. It keeps nothing between calls. Bytes are shared, never copied. Costs a
/// few searches for each file that is handed, and a comparison of its bytes with those that are there.
///
/// A delta that is handed is taken at its word. Where nothing changed, no bytes are compared. Where there is one input, of
/// whose files none lies below another, and no output changed, it costs a look at each path, and a comparison of the bytes
/// of each file that has a node; but where a folder with files went, or became a file, all is compared.
#[derive(Drop)]
pub struct Copy {
    alloc: Global,
}

impl Copy {
    /// A builder that takes its memory here.
    pub fn new(alloc: Global) -> Copy {
        Copy { alloc }
    }
}

impl Builder for Copy {
    ghost use Rattle.std_copy.specs.Copied.{copy_told};

    ghost tells = { λ b. copy_told };

    fn name(&self) -> &str {
        "copy"
    }

    fn build(&mut self, command: &Command, handed: &Handed) -> Result<Edits, BuildFault>
        ensures lawful { IfOk result (λ edits. Does copy command.now handed.now edits) }
        ensures called { WasCalled (Built command.now handed.now) copy_told copy_told }
        ensures changes { IfOk result (λ edits. let c = task_of command.now handed.now in
            IsAsPromised copy c handed.now.delta handed.now.view → AreChanges c.output handed.now.view (copy c (inputs_of c handed.now.view)).files edits.files) }
        ensures fails { result ≢ Err Failed }
    {
        match told(self.alloc, handed)? {
            Some(edits) => Ok(edits),
            None => Ok(all_edits(self.alloc, handed)?),
        }
    }

    fn clean(&mut self) {}
}

/// What it answers where a delta is handed, and tells it.
fn told(alloc: Global, handed: &Handed) -> Result<Option<Edits>, NoMemory>
    ensures { IfOk result (λ found. IfSome found (λ edits. IsSomeAnd handed.now.delta (λ nodes. AreTold nodes handed.now edits))) }
{
    match &handed.delta {
        Some(delta) => told_edits(alloc, delta, handed),
        None => Ok(None),
    }
}

/// What it answers by all files, of which none is compared where nothing changed.
fn all_edits(alloc: Global, handed: &Handed) -> Result<Edits, NoMemory>
    ensures files { IfOk result (λ edits. AreDue handed.now (copied (rooted handed.now.inputs handed.now.view)).files edits.files) }
    ensures problems { IfOk result (λ edits. edits.problems ≡ (copied (rooted handed.now.inputs handed.now.view)).problems) }
{
    let made = made_of(alloc, handed.inputs.as_slice(), &handed.view)?;
    if is_idle(handed) {
        return Ok(made.into_problems(alloc));
    }
    made.into_edits(alloc, &handed.output, &handed.view)
}
