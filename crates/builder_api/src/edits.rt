//! What a builder answers.
ghost use Rattle.std.specs.Prelude.{◌≡◌, [], IfOk};

use bytes::Bytes;
use mark_set::MarkText;
use res_path::{NoMemory, Path};
use std::alloc::Global;
use std::marker::Model;

/// Files that are put, with their contents, or removed, at paths from the output, in order. A contract sees the list
/// of them.
#[derive(Drop)]
pub struct FileEdits {
    edits: Vec<(Path, Option<Bytes>)>,
}

impl Model for FileEdits {
    ghost use Rattle.std.specs.Prelude.{List};
    ghost use Rattle.builder_api.specs.Edits.{Edit};

    ghost Value = { List Edit };

    ghost view = { λ e. e.edits.items };
}

impl FileEdits {
    /// No edits. It takes no memory.
    pub fn empty(alloc: Global) -> FileEdits
        ensures { result ≡ [] }
    {
        FileEdits {
            edits: Vec::new(alloc),
        }
    }

    /// These edits, of which nothing is copied.
    pub fn of(edits: Vec<(Path, Option<Bytes>)>) -> FileEdits
        ensures { result ≡ edits.items }
    {
        FileEdits { edits }
    }

    /// The edits in order.
    pub fn as_slice(&self) -> &[(Path, Option<Bytes>)]
        ensures { result.now ≡ self.now }
    {
        self.edits.as_slice()
    }

    /// The edits, of which nothing is copied.
    pub fn into_vec(self) -> Vec<(Path, Option<Bytes>)>
        ensures { result.items ≡ self }
    {
        let FileEdits { edits } = self;
        edits
    }

    /// Equal edits, which share their texts and contents.
    pub fn copy(&self) -> Result<FileEdits, NoMemory>
        ensures { IfOk result (λ copy. copy ≡ self.now) }
    {
        self.clone()
    }
}

impl Clone for FileEdits {
    ghost use Rattle.std.specs.Prelude.{◌≡◌};

    ghost is_clone = { λ edits copy. copy ≡ edits };

    fn clone(&self) -> Result<FileEdits, NoMemory> {
        let edits = self.edits.clone()?;
        Ok(FileEdits { edits })
    }
}

/// What a builder has to tell of a file: it becomes a problem marker of the command's project.
#[derive(Clone, Drop)]
pub struct Problem {
    /// The file's path in the workspace.
    pub location: Path,
    /// The line, from 1; 0 for the whole file.
    pub line: i32,
    /// As a marker's: 0 for information, 1 for a warning, 2 for an error.
    pub severity: i32,
    pub message: MarkText,
}

impl Problem {
    /// An equal problem.
    pub fn copy(&self) -> Result<Problem, NoMemory>
        ensures { IfOk result (λ copy. copy ≡ self.now) }
    {
        self.clone()
    }
}

/// Problems in order. A contract sees the list of them.
#[derive(Drop)]
pub struct Problems {
    problems: Vec<Problem>,
}

impl Model for Problems {
    ghost use Rattle.std.specs.Prelude.{List};
    ghost use Rattle.builder_api.specs.declared.edits.Problem.{Problem};

    ghost Value = { List Problem };

    ghost view = { λ p. p.problems.items };
}

impl Problems {
    /// No problems. It takes no memory.
    pub fn empty(alloc: Global) -> Problems
        ensures { result ≡ [] }
    {
        Problems {
            problems: Vec::new(alloc),
        }
    }

    /// These problems, of which nothing is copied.
    pub fn of(problems: Vec<Problem>) -> Problems
        ensures { result ≡ problems.items }
    {
        Problems { problems }
    }

    /// The problems in order.
    pub fn as_slice(&self) -> &[Problem]
        ensures { result.now ≡ self.now }
    {
        self.problems.as_slice()
    }

    /// The problems, of which nothing is copied.
    pub fn into_vec(self) -> Vec<Problem>
        ensures { result.items ≡ self }
    {
        let Problems { problems } = self;
        problems
    }

    /// Equal problems.
    pub fn copy(&self) -> Result<Problems, NoMemory>
        ensures { IfOk result (λ copy. copy ≡ self.now) }
    {
        self.clone()
    }
}

impl Clone for Problems {
    ghost use Rattle.std.specs.Prelude.{◌≡◌};

    ghost is_clone = { λ problems copy. copy ≡ problems };

    fn clone(&self) -> Result<Problems, NoMemory> {
        let problems = self.problems.clone()?;
        Ok(Problems { problems })
    }
}

/// What a builder answers: the edits below its output, and all problems of the command, which take the place of the
/// earlier ones.
#[derive(Clone, Drop)]
pub struct Edits {
    pub files: FileEdits,
    pub problems: Problems,
}

impl Edits {
    /// Equal edits, which share their texts and contents.
    pub fn copy(&self) -> Result<Edits, NoMemory>
        ensures { IfOk result (λ copy. copy ≡ self.now) }
    {
        self.clone()
    }
}
