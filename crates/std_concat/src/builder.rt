//! The builder.
ghost use Rattle.std.specs.Prelude.{◌≡◌, ◌≢◌, [], Err, IfOk};
ghost use Rattle.builder_api.specs.declared.builder.BuildFault.TheVariants.{Failed};
ghost use Rattle.builder_api.specs.Lawful.{Does};
ghost use Rattle.builder_api.specs.Tasks.{task_of, inputs_of};
ghost use Rattle.builder_api.specs.Told.{Built, WasCalled};
ghost use Rattle.std_kit.specs.Changes.{AreChanges};
ghost use Rattle.std_kit.specs.Since.{IsAsPromised};
ghost use Rattle.std_concat.specs.Concat.{all_path, files_of_roots, all_of, concat, concat_told};

use crate::joining::{add_roots, has_files};
use builder_api::{BuildFault, Builder, Edits, FileEdits, Handed, Problems, View};
use bytes::Bytes;
use proj_desc::Command;
use res_path::{Name, NoMemory, Path};
use std::alloc::{AllocError, Global};
use std_kit::{MadeFiles, changes_to, is_idle};

/// The builder `concat`. It makes one file `all` of the bytes of the files of all inputs, input by input, each in path
/// order, and none where there are no files. A file that lies in two inputs counts twice. It has no problems, and
/// never fails. Its edits put `all` only where it isn't there with these bytes. Costs one pass over the inputs' bytes, and
/// one over the delta's nodes alone where a delta is handed by which no input changed.
#[derive(Drop)]
pub struct Concat {
    alloc: Global,
}

impl Concat {
    /// A builder that takes its memory here.
    pub fn new(alloc: Global) -> Concat {
        Concat { alloc }
    }
}

impl Builder for Concat {
    ghost use Rattle.std_concat.specs.Concat.{concat_told};

    ghost tells = { λ b. concat_told };

    fn name(&self) -> &str {
        "concat"
    }

    fn build(&mut self, command: &Command, handed: &Handed) -> Result<Edits, BuildFault>
        ensures lawful { IfOk result (λ edits. Does concat command.now handed.now edits) }
        ensures called { WasCalled (Built command.now handed.now) concat_told concat_told }
        ensures changes { IfOk result (λ edits. let c = task_of command.now handed.now in
            IsAsPromised concat c handed.now.delta handed.now.view → AreChanges c.output handed.now.view (concat c (inputs_of c handed.now.view)).files edits.files) }
        ensures problems { IfOk result (λ edits. edits.problems ≡ []) }
        ensures fails { result ≢ Err Failed }
    {
        if is_idle(handed) {
            return Ok(no_edits(self.alloc));
        }
        Ok(edits_of(self.alloc, handed)?)
    }

    fn clean(&mut self) {}
}

fn no_edits(alloc: Global) -> Edits
    ensures files { result.files ≡ [] }
    ensures problems { result.problems ≡ [] }
{
    Edits {
        files: FileEdits::empty(alloc),
        problems: Problems::empty(alloc),
    }
}

/// What it answers by all files.
fn edits_of(alloc: Global, handed: &Handed) -> Result<Edits, NoMemory>
    ensures files { IfOk result (λ edits. AreChanges handed.now.output handed.now.view (all_of (files_of_roots handed.now.inputs handed.now.view)).files edits.files) }
    ensures problems { IfOk result (λ edits. edits.problems ≡ []) }
{
    let made = made_of(alloc, handed.inputs.as_slice(), &handed.view)?;
    let files = changes_to(alloc, &handed.output, &handed.view, made)?;
    Ok(Edits {
        files,
        problems: Problems::empty(alloc),
    })
}

/// The files that it makes.
fn made_of(alloc: Global, roots: &[Path], view: &View) -> Result<MadeFiles, NoMemory>
    ensures { IfOk result (λ made. made ≡ (all_of (files_of_roots roots.now view.now)).files) }
{
    let mut made = MadeFiles::empty(alloc);
    if !has_files(roots, view) {
        return Ok(made);
    }
    let mut bytes = Vec::new(alloc);
    add_roots(&mut bytes, roots, view)?;
    made.place(all_file(alloc)?, Bytes::from_vec(bytes)?)?;
    Ok(made)
}

/// The path of the output file.
fn all_file(alloc: Global) -> Result<Path, NoMemory>
    ensures { IfOk result (λ path. path ≡ all_path) }
{
    // Both are refused for memory alone.
    let Ok(name) = Name::parse(alloc, "all") else {
        return Err(AllocError);
    };
    match Path::root().join(alloc, &name) {
        Ok(path) => Ok(path),
        Err(_) => Err(AllocError),
    }
}
