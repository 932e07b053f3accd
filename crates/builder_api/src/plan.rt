//! What a build is to do.
ghost use Rattle.std.specs.Prelude.{◌≡◌, [], IfOk};

use proj_desc::Commands;
use res_path::{Name, NoMemory};
use std::alloc::Global;
use std::marker::Model;

/// The names of projects that refer to one another, in order. A contract sees the list of them.
#[derive(Drop)]
pub struct Knot {
    names: Vec<Name>,
}

impl Model for Knot {
    ghost use Rattle.std.specs.Prelude.{ℕ, List};

    ghost Value = { List (List ℕ) };

    ghost view = { λ k. k.names.items };
}

impl Knot {
    /// The knot of these projects, of which nothing is copied.
    pub fn of(names: Vec<Name>) -> Knot
        ensures { result ≡ names.items }
    {
        Knot { names }
    }

    /// The names in order.
    pub fn as_slice(&self) -> &[Name]
        ensures { result.now ≡ self.now }
    {
        self.names.as_slice()
    }

    /// The names, of which nothing is copied.
    pub fn into_vec(self) -> Vec<Name>
        ensures { result.items ≡ self }
    {
        let Knot { names } = self;
        names
    }

    /// An equal knot, which shares its texts.
    pub fn copy(&self) -> Result<Knot, NoMemory>
        ensures { IfOk result (λ copy. copy ≡ self.now) }
    {
        self.clone()
    }
}

impl Clone for Knot {
    ghost use Rattle.std.specs.Prelude.{◌≡◌};

    ghost is_clone = { λ knot copy. copy ≡ knot };

    fn clone(&self) -> Result<Knot, NoMemory> {
        let names = self.names.clone()?;
        Ok(Knot { names })
    }
}

/// Knots in order. A contract sees the list of them.
#[derive(Drop)]
pub struct Knots {
    knots: Vec<Knot>,
}

impl Model for Knots {
    ghost use Rattle.std.specs.Prelude.{ℕ, List};

    ghost Value = { List (List (List ℕ)) };

    ghost view = { λ k. k.knots.items };
}

impl Knots {
    /// No knots. It takes no memory.
    pub fn empty(alloc: Global) -> Knots
        ensures { result ≡ [] }
    {
        Knots {
            knots: Vec::new(alloc),
        }
    }

    /// These knots, of which nothing is copied.
    pub fn of(knots: Vec<Knot>) -> Knots
        ensures { result ≡ knots.items }
    {
        Knots { knots }
    }

    /// The knots in order.
    pub fn as_slice(&self) -> &[Knot]
        ensures { result.now ≡ self.now }
    {
        self.knots.as_slice()
    }

    /// The knots, of which nothing is copied.
    pub fn into_vec(self) -> Vec<Knot>
        ensures { result.items ≡ self }
    {
        let Knots { knots } = self;
        knots
    }

    /// Equal knots, which share their texts.
    pub fn copy(&self) -> Result<Knots, NoMemory>
        ensures { IfOk result (λ copy. copy ≡ self.now) }
    {
        self.clone()
    }
}

impl Clone for Knots {
    ghost use Rattle.std.specs.Prelude.{◌≡◌};

    ghost is_clone = { λ knots copy. copy ≡ knots };

    fn clone(&self) -> Result<Knots, NoMemory> {
        let knots = self.knots.clone()?;
        Ok(Knots { knots })
    }
}

/// Projects with their commands, in the order in which they are built. A contract sees the list of the pairs.
#[derive(Drop)]
pub struct PlanOrder {
    projects: Vec<(Name, Commands)>,
}

impl Model for PlanOrder {
    ghost use Rattle.std.specs.Prelude.{ℕ, List};
    ghost use Rattle.proj_desc.specs.declared.command.Command.{Command};

    ghost Value = { List (List ℕ × List Command) };

    ghost view = { λ o. o.projects.items };
}

impl PlanOrder {
    /// No projects. It takes no memory.
    pub fn empty(alloc: Global) -> PlanOrder
        ensures { result ≡ [] }
    {
        PlanOrder {
            projects: Vec::new(alloc),
        }
    }

    /// These projects, of which nothing is copied.
    pub fn of(projects: Vec<(Name, Commands)>) -> PlanOrder
        ensures { result ≡ projects.items }
    {
        PlanOrder { projects }
    }

    /// The projects with their commands, in order.
    pub fn as_slice(&self) -> &[(Name, Commands)]
        ensures { result.now ≡ self.now }
    {
        self.projects.as_slice()
    }

    /// The projects, of which nothing is copied.
    pub fn into_vec(self) -> Vec<(Name, Commands)>
        ensures { result.items ≡ self }
    {
        let PlanOrder { projects } = self;
        projects
    }

    /// Equal projects, which share their texts.
    pub fn copy(&self) -> Result<PlanOrder, NoMemory>
        ensures { IfOk result (λ copy. copy ≡ self.now) }
    {
        self.clone()
    }
}

impl Clone for PlanOrder {
    ghost use Rattle.std.specs.Prelude.{◌≡◌};

    ghost is_clone = { λ order copy. copy ≡ order };

    fn clone(&self) -> Result<PlanOrder, NoMemory> {
        let projects = self.projects.clone()?;
        Ok(PlanOrder { projects })
    }
}

/// What a build is to do: each project with its commands as its description lists them, and which of the projects refer
/// to one another.
#[derive(Clone, Drop)]
pub struct Plan {
    pub order: PlanOrder,
    pub knots: Knots,
}

impl Plan {
    /// An equal plan, which shares its texts.
    pub fn copy(&self) -> Result<Plan, NoMemory>
        ensures { IfOk result (λ copy. copy ≡ self.now) }
    {
        self.clone()
    }
}
