//! What a builder makes, file by file.
ghost use Rattle.std.specs.Prelude.{◌≡◌, [], IfOk, OnOk};
ghost use Rattle.builder_api.specs.declared.edits.Edits.{Edits};
ghost use Rattle.std_kit.specs.Changes.{AreChanges};
ghost use Rattle.std_kit.specs.Making.{nothing_made, with_problem, with_file};

use crate::{MadeFiles, changes_to, problem_of};
use builder_api::{Edits, FileEdits, Problem, Problems, View};
use bytes::Bytes;
use res_path::{NoMemory, Path};
use std::alloc::Global;
use std::marker::Model;

/// The files that a builder has made so far, and its problems in order. A contract sees the two.
#[derive(Drop)]
pub struct Making {
    files: MadeFiles,
    problems: Vec<Problem>,
}

impl Model for Making {
    ghost use Rattle.builder_api.specs.contracts.edits.Problem as problem;
    ghost use Rattle.builder_api.specs.Meanings.{Made};
    ghost use Rattle.std_kit.specs.Making.{made_code};

    ghost Value = { Made };

    ghost coded = { made_code problem.the_row.coded };

    ghost view = { λ m. record { files = m.files; problems = m.problems.items } };
}

impl Making {
    /// Nothing is made. It takes no memory.
    pub fn nothing(alloc: Global) -> Making
        ensures { result ≡ nothing_made }
    {
        Making {
            files: MadeFiles::empty(alloc),
            problems: Vec::new(alloc),
        }
    }

    /// Places a file, made of the one at this location in the workspace, at a path from the output. Where the path has
    /// no name or overlaps that of a file placed before, the file is left out, with the problem `shadowed` of its
    /// location. Where memory wants, neither need be there.
    pub fn place(
        &mut self,
        alloc: Global,
        location: &Path,
        path: Path,
        bytes: Bytes,
    ) -> Result<(), NoMemory>
        ensures { OnOk result (self.new ≡ with_file self.old location.now path bytes) }
    {
        if self.files.place(path, bytes)? {
            return Ok(());
        }
        self.tell(problem_of(alloc, location, 0, 1, "shadowed")?)
    }

    /// One more problem.
    pub fn tell(&mut self, problem: Problem) -> Result<(), NoMemory>
        ensures { OnOk result (self.new ≡ with_problem self.old problem) }
    {
        self.problems.push(problem)?;
        Ok(())
    }

    /// What a builder answers where no file differs: the problems.
    pub fn into_problems(self, alloc: Global) -> Edits
        ensures files { result.files ≡ [] }
        ensures problems { result.problems ≡ self.problems }
    {
        let Making { problems, .. } = self;
        Edits {
            files: FileEdits::empty(alloc),
            problems: Problems::of(problems),
        }
    }

    /// What a builder answers of which these are the files and problems: the changes from what its view has below the
    /// output, and the problems.
    pub fn into_edits(self, alloc: Global, output: &Path, view: &View) -> Result<Edits, NoMemory>
        ensures files { IfOk result (λ edits. AreChanges output.now view.now self.files edits.files) }
        ensures problems { IfOk result (λ edits. edits.problems ≡ self.problems) }
    {
        let Making { files, problems } = self;
        let files = changes_to(alloc, output, view, files)?;
        Ok(Edits {
            files,
            problems: Problems::of(problems),
        })
    }
}
