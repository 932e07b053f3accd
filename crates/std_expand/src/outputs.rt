//! What is made so far.
ghost use Rattle.std.specs.Prelude.{◌≡◌, [], ◌++◌, map, IfOk, OnOk};
ghost use Rattle.builder_api.specs.declared.edits.Edits.{Edits};
ghost use Rattle.std_kit.specs.Changes.{AreChanges};
ghost use Rattle.std_kit.specs.Making.{nothing_made, shadowed};
ghost use Rattle.std_expand.specs.Expand.{problem_at, with_expanded};

use builder_api::{Edits, FileEdits, Problem, Problems, View};
use bytes::Bytes;
use include_lines::Missing;
use res_path::{NoMemory, Path};
use std::alloc::Global;
use std::marker::Model;
use std_kit::{MadeFiles, changes_to, problem_of};

/// The files that are made so far, and the problems in order. A contract sees the two.
#[derive(Drop)]
pub(crate) struct Outputs {
    files: MadeFiles,
    problems: Vec<Problem>,
}

impl Model for Outputs {
    ghost use Rattle.builder_api.specs.contracts.edits.Problem as problem;
    ghost use Rattle.builder_api.specs.Meanings.{Made};
    ghost use Rattle.std_kit.specs.Making.{made_code};

    ghost Value = { Made };

    ghost coded = { made_code problem.the_row.coded };

    ghost view = { λ m. record { files = m.files; problems = m.problems.items } };
}

impl Outputs {
    /// Nothing is made. It takes no memory.
    pub(crate) fn nothing(alloc: Global) -> Outputs
        ensures { result ≡ nothing_made }
    {
        Outputs {
            files: MadeFiles::empty(alloc),
            problems: Vec::new(alloc),
        }
    }

    /// Places a file, made of the one at this location, with a problem for each of these lines. Where its path has no
    /// name or overlaps that of a file placed before, it is left out, with the problem `shadowed` alone.
    pub(crate) fn place(
        &mut self,
        alloc: Global,
        location: &Path,
        path: Path,
        bytes: Bytes,
        lines: &[Missing],
    ) -> Result<(), NoMemory>
        ensures { OnOk result (self.new ≡ with_expanded self.old location.now path bytes lines.now) }
    {
        if self.files.place(path, bytes)? {
            return tell_lines(alloc, &mut self.problems, location, lines);
        }
        self.problems
            .push(problem_of(alloc, location, 0, 1, "shadowed")?)?;
        Ok(())
    }

    /// What the builder answers where no file differs: the problems.
    pub(crate) fn into_problems(self, alloc: Global) -> Edits
        ensures files { result.files ≡ [] }
        ensures problems { result.problems ≡ self.problems }
    {
        let Outputs { problems, .. } = self;
        Edits {
            files: FileEdits::empty(alloc),
            problems: Problems::of(problems),
        }
    }

    /// What the builder answers: the changes from what the view has below the output, and the problems.
    pub(crate) fn into_edits(
        self,
        alloc: Global,
        output: &Path,
        view: &View,
    ) -> Result<Edits, NoMemory>
        ensures files { IfOk result (λ edits. AreChanges output.now view.now self.files edits.files) }
        ensures problems { IfOk result (λ edits. edits.problems ≡ self.problems) }
    {
        let Outputs { files, problems } = self;
        let files = changes_to(alloc, output, view, files)?;
        Ok(Edits {
            files,
            problems: Problems::of(problems),
        })
    }
}

/// A problem for each of these lines of the file at this location.
fn tell_lines(
    alloc: Global,
    problems: &mut Vec<Problem>,
    location: &Path,
    lines: &[Missing],
) -> Result<(), NoMemory>
    ensures { OnOk result (problems.new.items ≡ problems.old.items ++ map (problem_at location.now) lines.now) }
{
    for line in lines {
        problems.push(problem_of(alloc, location, line.line, 2, line.message.text())?)?;
    }
    Ok(())
}
