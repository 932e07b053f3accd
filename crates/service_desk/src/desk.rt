//! The builders' names, the command under way, and what the services were taken for.
ghost use Rattle.std.specs.Prelude.{◌≡◌, ◌∷◌, [], IfOk};
ghost use Rattle.std.specs.List.{list_any};
ghost use Rattle.std.specs.Str.{bytes_eq};
ghost use Rattle.res_path.specs.Paths.{path_eq};
ghost use Rattle.service_desk.specs.Desks.{desk_of, has_kept, home, idle, is_building, is_saving, left, may_end, out_for, site_of, stops, taken_for, under_way, with_states};

use crate::NoMemory;
use crate::checks::site_in;
use build_due::Site;
use core_event::{Outcomes, Purpose};
use op_kind::Op;
use res_path::{Name, Path};
use save_kind::SaveAnswer;
use std::alloc::Global;
use std::marker::Model;
use ws_elem::TreeRep;

/// The names of the builders, in the order of the kit. A contract sees the list of them.
#[derive(Drop)]
pub struct BuilderNames {
    names: Vec<Name>,
}

impl Model for BuilderNames {
    ghost use Rattle.std.specs.Prelude.{ℕ, List};

    ghost Value = { List (List ℕ) };

    ghost view = { λ b. b.names.items };
}

impl BuilderNames {
    /// No builders. It takes no memory.
    pub fn empty(alloc: Global) -> BuilderNames
        ensures { result ≡ [] }
    {
        BuilderNames {
            names: Vec::new(alloc),
        }
    }

    /// Builders of these names, of which nothing is copied.
    pub fn of(names: Vec<Name>) -> BuilderNames
        ensures { result ≡ names.items }
    {
        BuilderNames { names }
    }

    /// Whether there is a builder of this name. Costs a look at the names.
    pub fn has(&self, name: &Name) -> bool
        ensures { result ≡ list_any (bytes_eq name.now) self.now }
    {
        is_among(self.names.as_slice(), name)
    }
}

fn is_among(names: &[Name], name: &Name) -> bool
    ensures { result ≡ list_any (bytes_eq name.now) names.now }
{
    names.iter().any(|other| name == other)
}

/// The command of a project that is under way: what is due was handed for it, and its edits may be committed.
#[derive(Drop)]
pub struct UnderWay {
    pub project: Name,
    /// The command's number in the project's description, from 0.
    pub index: u16,
}

/// For what a pass has taken the services.
#[derive(Clone, Copy, Debug, PartialEq, Eq)]
pub enum Serving {
    Build,
    /// A save, and whether states of participants were kept since it began.
    Save(bool),
}

impl Serving {
    /// As the services are taken for the purpose.
    fn of(purpose: &Purpose) -> Serving
        ensures { result ≡ taken_for purpose.now }
    {
        match purpose {
            Purpose::Build(_, _) => Serving::Build,
            Purpose::Save(_) => Serving::Save(false),
        }
    }
}

/// The names of the builders, the command under way, if one is, and what the services were taken for, where a pass has them.
#[derive(Drop)]
pub struct Desk {
    pub builders: BuilderNames,
    pub under: Option<UnderWay>,
    pub serving: Option<Serving>,
}

impl Desk {
    /// These builders, no command under way, and the services at home. It takes no memory.
    pub fn of(builders: BuilderNames) -> Desk
        ensures { result ≡ desk_of builders }
    {
        Desk {
            builders,
            under: None,
            serving: None,
        }
    }

    /// The services are taken for the purpose.
    pub fn take_out(&mut self, purpose: &Purpose)
        ensures { self.new ≡ out_for self.old purpose.now }
    {
        self.serving = Some(Serving::of(purpose));
    }

    /// In the save under way states are kept.
    pub fn keep_states(&mut self)
        ensures { self.new ≡ with_states self.old }
    {
        self.serving = Some(Serving::Save(true));
    }

    /// The services are at home again, and no command is under way.
    pub fn put_back(&mut self)
        ensures { self.new ≡ home self.old }
    {
        self.under = None;
        self.serving = None;
    }

    /// Whether the services were taken for a build.
    pub fn is_building(&self) -> bool
        ensures { result ≡ is_building self.now.serving }
    {
        matches!(self.serving, Some(Serving::Build))
    }

    /// Whether the services were taken for a save.
    pub fn is_saving(&self) -> bool
        ensures { result ≡ is_saving self.now.serving }
    {
        matches!(self.serving, Some(Serving::Save(_)))
    }

    /// Whether the services were taken for a save, in which states were kept.
    fn has_kept(&self) -> bool
        ensures { result ≡ has_kept self.now.serving }
    {
        match self.serving {
            Some(Serving::Save(kept)) => kept,
            Some(Serving::Build) | None => false,
        }
    }

    /// Whether the services may be given back so: a build ends as a build and a save as a save, and as saved only where
    /// states were kept in it.
    pub fn may_end(&self, outcome: &Outcomes) -> bool
        ensures { result ≡ may_end self.now.serving outcome.now }
    {
        match outcome {
            Outcomes::Build(_) => self.is_building(),
            Outcomes::Save(SaveAnswer::Saved) => self.has_kept(),
            Outcomes::Save(_) => self.is_saving(),
        }
    }

    /// The command of this number of the project is under way from now on.
    pub fn begin(&mut self, project: Name, index: u16)
        ensures { self.new ≡ under_way self.old project index }
    {
        self.under = Some(UnderWay { project, index });
    }

    /// No command is under way any more.
    pub fn rest(&mut self)
        ensures { self.new ≡ idle self.old }
    {
        self.under = None;
    }

    /// The operation was done: after a delete, a move, a close or a description of its project no command is under way.
    pub fn leave(&mut self, op: &Op)
        ensures { self.new ≡ left self.old op.now }
    {
        let Some(under) = &self.under else {
            return;
        };
        if stops(op, &under.project) {
            self.under = None;
        }
    }

    /// The command that is under way, as its project's description has it; none where none is.
    pub fn site<T: TreeRep>(&self, alloc: Global, tree: &T) -> Result<Option<Site>, NoMemory>
        ensures { IfOk result (λ site. site ≡ site_of (T.tree tree.now) self.now.under) }
    {
        match &self.under {
            None => Ok(None),
            Some(under) => site_in(alloc, tree, &under.project, under.index),
        }
    }
}

/// Whether a build of the project doesn't go on after the operation: a delete, a move, a close or a description of it.
pub fn stops(op: &Op, project: &Name) -> bool
    ensures { result ≡ stops op.now project.now }
{
    match op {
        Op::Delete(path) | Op::Move(path, _) | Op::Close(path) | Op::Describe(path, _) => {
            is_of(path, project)
        }
        Op::CreateFile(_, _)
        | Op::CreateFolder(_)
        | Op::CreateProject(_)
        | Op::Write(_, _)
        | Op::Touch(_)
        | Op::Derived(_, _)
        | Op::Copy(_, _)
        | Op::Open(_)
        | Op::Forget(_)
        | Op::Mark(_, _, _)
        | Op::Attr(_, _, _, _)
        | Op::Unmark(_, _)
        | Op::ClearMarks(_, _, _)
        | Op::Partner(_)
        | Op::Sync(_, _, _)
        | Op::Flush(_, _, _)
        | Op::Read(_, _) => false,
    }
}

/// Whether the path is the project's.
fn is_of(path: &Path, project: &Name) -> bool
    ensures { result ≡ path_eq path.now (project.now ∷ []) }
{
    if path.depth() != 1 {
        return false;
    }
    match path.last() {
        None => false,
        Some(name) => name == project.text(),
    }
}
