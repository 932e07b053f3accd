//! Open projects, with what they describe.
ghost use Rattle.std.specs.Prelude.{◌≡◌, ◌∷◌, ◌++◌, [], ℕ, List, Some, OnOk, map, if◌then◌else◌};
ghost use Rattle.std.specs.Ordering.{nat_cmp, is_eq};
ghost use Rattle.std.specs.Cmp.Lexicographic.{slice_cmp};
ghost use Rattle.build_plan.specs.Inside.Walks.{commands_in};

use crate::NoMemory;
use proj_desc::{Commands, Desc, References};
use res_path::Name;
use std::alloc::Global;
use std::collections::BTreeMap;
use std::marker::Model;

/// Projects with the names to which they refer. A contract sees the list of the pairs.
#[derive(Drop)]
pub struct Projects {
    projects: Vec<(Name, Vec<Name>)>,
}

impl Model for Projects {
    ghost use Rattle.std.specs.Prelude.{ℕ, List, map};

    ghost Value = { List (List ℕ × List (List ℕ)) };

    ghost view = { λ p. map {B = List ℕ × List (List ℕ)} (λ x. (x.0, x.1.items)) p.projects.items };
}

impl Projects {
    /// No projects. It takes no memory.
    pub fn empty(alloc: Global) -> Projects
        ensures { result ≡ [] }
    {
        Projects {
            projects: Vec::new(alloc),
        }
    }

    /// Adds a project behind the others.
    pub fn push(&mut self, name: Name, references: References) -> Result<(), NoMemory>
        ensures { OnOk result (self.new ≡ self.old ++ (name, references) ∷ []) }
    {
        self.projects.push((name, references.into_vec()))?;
        Ok(())
    }

    /// The projects in order.
    pub fn as_slice(&self) -> &[(Name, Vec<Name>)]
        ensures { map (λ p. (p.0, p.1.items)) result.now ≡ self.now }
    {
        self.projects.as_slice()
    }
}

/// Open projects with the names to which they refer, and their commands by their names.
#[derive(Drop)]
pub struct Found {
    pub projects: Projects,
    pub commands: BTreeMap<Name, Commands>,
}

impl Found {
    /// No projects. It takes no memory.
    pub fn nothing(alloc: Global) -> Found
        ensures { result.projects ≡ [] }
    {
        Found {
            projects: Projects::empty(alloc),
            commands: BTreeMap::new(alloc),
        }
    }

    /// Adds the project, as it is described.
    pub fn add(&mut self, name: Name, desc: Desc) -> Result<(), NoMemory>
        ensures projects { OnOk result (self.new.projects ≡ self.old.projects ++ (name, desc.references) ∷ []) }
        ensures commands { OnOk result ((n : List ℕ) → commands_in self.new.commands n
            ≡ (if is_eq (slice_cmp nat_cmp name n) then Some desc.commands else commands_in self.old.commands n)) }
    {
        let Desc {
            references,
            commands,
        } = desc;
        self.commands.insert(name.copy()?, commands)?;
        self.projects.push(name, references)
    }
}
