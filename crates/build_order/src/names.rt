//! Lists of names, and the place of a name in one.
ghost use Rattle.std.specs.Prelude.{◌≡◌, ◌<◌, ℕ, List, [], length, get_or, map, IfOk, MatchOption};
ghost use Rattle.std.specs.List.{AllPairs, Contains};
ghost use Rattle.build_order.specs.Orders.{IsBefore};
ghost use Rattle.build_order.specs.Inside.Rows.{name_at, AreNames};

use res_path::{Name, NoMemory};
use std::alloc::Global;
use std::marker::Model;

/// Names in a list. A contract sees the list.
#[derive(Debug, Drop)]
pub struct Names {
    names: Vec<Name>,
}

impl Model for Names {
    ghost use Rattle.std.specs.Prelude.{ℕ, List};

    ghost Value = { List (List ℕ) };

    ghost view = { λ n. n.names.items };
}

impl Names {
    /// These names.
    pub fn of(names: Vec<Name>) -> Names
        ensures { result ≡ names.items }
    {
        Names { names }
    }

    /// The names.
    pub fn as_slice(&self) -> &[Name]
        ensures { result.now ≡ self.now }
    {
        self.names.as_slice()
    }
}

/// Lists of names. A contract sees the list of the lists.
#[derive(Debug, Drop)]
pub struct Knots {
    knots: Vec<Names>,
}

impl Model for Knots {
    ghost use Rattle.std.specs.Prelude.{ℕ, List};

    ghost Value = { List (List (List ℕ)) };

    ghost view = { λ k. k.knots.items };
}

impl Knots {
    /// These lists.
    pub fn of(knots: Vec<Names>) -> Knots
        ensures { result ≡ knots.items }
    {
        Knots { knots }
    }

    /// The lists.
    pub fn as_slice(&self) -> &[Names]
        ensures { result.now ≡ self.now }
    {
        self.knots.as_slice()
    }
}

/// The names of the projects in order, each once.
pub fn names_of(alloc: Global, projects: &[(Name, Vec<Name>)]) -> Result<Vec<Name>, NoMemory>
    ensures { IfOk result (λ names. AreNames (map (λ p. (p.0, p.1.items)) projects.now) names.items) }
{
    let mut names = all_names(alloc, projects)?;
    sort_names(&mut names);
    Ok(names)
}

fn all_names(alloc: Global, projects: &[(Name, Vec<Name>)]) -> Result<Vec<Name>, NoMemory>
    ensures { IfOk result (λ names. names.items ≡ map (λ p. p.0) projects.now) }
{
    let mut names = Vec::with_capacity(alloc, projects.len())?;
    for project in projects {
        names.push(project.0.copy()?)?;
    }
    Ok(names)
}

/// Puts the names in order, and leaves each once.
fn sort_names(names: &mut Vec<Name>)
    ensures rising { AllPairs IsBefore names.new.items }
    ensures kept { (n : List ℕ) → Contains names.old.items n → Contains names.new.items n }
    ensures only { (n : List ℕ) → Contains names.new.items n → Contains names.old.items n }
{
    names.sort_unstable();
    names.dedup();
}

/// The place of the name among names in order, if it is there.
pub fn place_of(names: &[Name], name: &Name) -> Option<usize>
    requires { AllPairs IsBefore names.now }
    ensures { MatchOption result (Contains names.now name.now → ⊥) (λ i. (i < length names.now) × (name_at names.now i ≡ name.now)) }
{
    match names.binary_search(name) {
        Ok(place) => Some(place),
        Err(_) => None,
    }
}
