//! What sort of resource an element is.
ghost use Rattle.std.specs.Prelude.{◌≡◌};
ghost use Rattle.ws_elem.specs.Kinds.{kind_number, kind_word, is_file, is_project};

use std::fmt;

/// What sort of resource an element is: a file, a folder, a project, or the workspace's root.
#[derive(Clone, Copy, Debug, PartialEq, Eq)]
pub enum Kind {
    File,
    Folder,
    Project,
    Root,
}

impl Kind {
    /// The platform's number: 1 for a file, 2 for a folder, 4 for a project, 8 for the root (`IResource.FILE` and so
    /// on).
    pub fn number(self) -> u8
        ensures { result ≡ kind_number self }
    {
        match self {
            Kind::File => 1,
            Kind::Folder => 2,
            Kind::Project => 4,
            Kind::Root => 8,
        }
    }

    /// The platform's word: `file`, `folder`, `project` or `root`.
    pub fn word(self) -> &'static str
        ensures { result.now ≡ kind_word self }
    {
        match self {
            Kind::File => "file",
            Kind::Folder => "folder",
            Kind::Project => "project",
            Kind::Root => "root",
        }
    }

    /// Whether it is a file.
    pub fn is_file(self) -> bool
        ensures { result ≡ is_file self }
    {
        match self {
            Kind::File => true,
            Kind::Folder | Kind::Project | Kind::Root => false,
        }
    }

    /// Whether it is a project.
    pub fn is_project(self) -> bool
        ensures { result ≡ is_project self }
    {
        match self {
            Kind::Project => true,
            Kind::File | Kind::Folder | Kind::Root => false,
        }
    }
}

impl fmt::Display for Kind {
    ghost use Rattle.std.specs.Prelude.{Some};
    ghost use Rattle.ws_elem.specs.Kinds.{kind_word};

    ghost output = { λ kind. Some (kind_word kind) };

    fn fmt<W: fmt::Write>(&self, f: &mut fmt::Formatter<W>) -> fmt::Result {
        fmt::Display::fmt(&self.word(), f)
    }
}
