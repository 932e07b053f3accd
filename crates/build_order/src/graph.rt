//! Which project refers to which, by the places of their names.
ghost use Rattle.std.specs.Prelude.{◌≡◌, ◌<◌, ◌++◌, ℕ, List, [], ◌∷◌, length, map, IfOk, OnOk};
ghost use Rattle.std.specs.List.{AllPairs, Contains};
ghost use Rattle.build_order.specs.Orders.{IsBefore};
ghost use Rattle.build_order.specs.Inside.Graphs.{Graph};
ghost use Rattle.build_order.specs.Inside.Rows.{name_at, AreNames, AreRows, IsAdded};

use crate::lists::Lists;
use crate::names::place_of;
use res_path::{Name, NoMemory};
use std::alloc::Global;

/// For each name the places of the names to which its projects refer. What isn't among the names is left out.
pub fn graph_of(
    alloc: Global,
    names: &[Name],
    projects: &[(Name, Vec<Name>)],
) -> Result<Lists, NoMemory>
    requires { AreNames (map (λ p. (p.0, p.1.items)) projects.now) names.now }
    ensures { IfOk result (AreRows (map (λ p. (p.0, p.1.items)) projects.now) names.now) }
{
    let mut graph = Lists::empty(alloc, names.len())?;
    for project in projects {
        add_project(&mut graph, names, &project.0, &project.1)?;
    }
    Ok(graph)
}

/// Adds the places of the references to the list of the name's place.
fn add_project(
    graph: &mut Lists,
    names: &[Name],
    name: &Name,
    references: &[Name],
) -> Result<(), NoMemory>
    requires rising { AllPairs IsBefore names.now }
    requires there { Contains names.now name.now }
    requires as_long { length graph.old ≡ length names.now }
    ensures { OnOk result ((from : ℕ) × (from < length names.now) × (name_at names.now from ≡ name.now) × IsAdded names.now from references.now graph.old graph.new) }
{
    match place_of(names, name) {
        Some(from) => {
            add_all(graph, names, from, references)?;
            Ok(())
        }
        None => Ok(()),
    }
}

/// Adds the places of the references to the list of `from`.
fn add_all(
    graph: &mut Lists,
    names: &[Name],
    from: usize,
    references: &[Name],
) -> Result<(), NoMemory>
    requires rising { AllPairs IsBefore names.now }
    requires from { from < length graph.old }
    ensures { OnOk result (IsAdded names.now from references.now graph.old graph.new) }
{
    for name in references {
        add_one(graph, names, from, name)?;
    }
    Ok(())
}

fn add_one(graph: &mut Lists, names: &[Name], from: usize, name: &Name) -> Result<(), NoMemory>
    requires rising { AllPairs IsBefore names.now }
    requires from { from < length graph.old }
    ensures { OnOk result ((references : List (List ℕ)) (old : Graph) → IsAdded names.now from references old graph.old
        → IsAdded names.now from (references ++ name.now ∷ []) old graph.new) }
{
    match place_of(names, name) {
        Some(to) => {
            graph.push(from, to)?;
            Ok(())
        }
        None => Ok(()),
    }
}
