//! The order of projects, and its knots.
ghost use Rattle.std.specs.Prelude.{◌≡◌, ◌<◌, ◌++◌, ℕ, List, [], ◌∷◌, length, get_or, map, if◌then◌else◌, All, IfOk, OnOk};
ghost use Rattle.std.specs.List.{flat_map, filter};
ghost use Rattle.build_order.specs.Orders.{IsOrder, is_knot};
ghost use Rattle.build_order.specs.Inside.Rows.{name_at, group_of};

use crate::graph::graph_of;
use crate::groups::members_of;
use crate::lists::Lists;
use crate::names::{Knots, Names, names_of};
use crate::places::places_of;
use crate::search::leads_of;
use res_path::{Name, NoMemory};
use std::alloc::Global;

/// Projects in the order in which they are built.
#[derive(Debug, Drop)]
pub struct ProjectOrder {
    /// Each project after all to which it refers, but for the members of knots.
    pub order: Names,
    /// The projects that refer to each other, two or more, by name.
    pub knots: Knots,
}

/// The order of the projects, each given with the names to which it refers; those that no project has don't count.
///
/// Of the components of mutual reference whose outside prerequisites are placed the one with the least name comes
/// next, its members by name. A component of two or more is a knot. Where two projects have one name they are
/// one, which refers to all to which either does. Costs a sort of the names and a search among them for each reference.
pub fn order(alloc: Global, projects: &[(Name, Vec<Name>)]) -> Result<ProjectOrder, NoMemory>
    ensures right { IfOk result (λ o. IsOrder (map (λ p. (p.0, p.1.items)) projects.now) o.order o.knots) }
    ensures only { IfOk result (λ o. (order : List (List ℕ)) (knots : List (List (List ℕ)))
        → IsOrder (map (λ p. (p.0, p.1.items)) projects.now) order knots → (o.order ≡ order) × (o.knots ≡ knots)) }
{
    let names = names_of(alloc, projects)?;
    let graph = graph_of(alloc, &names, projects)?;
    let leads = leads_of(alloc, &graph)?;
    let members = members_of(alloc, &leads)?;
    let places = places_of(alloc, &graph, &leads)?;
    told(alloc, &names, &members, &places)
}

/// The names of the components' members, component after component.
fn told(
    alloc: Global,
    names: &[Name],
    members: &Lists,
    places: &[usize],
) -> Result<ProjectOrder, NoMemory>
    requires places { All (λ l. l < length members.now) places.now }
    requires members { (l : ℕ) → All (λ a. a < length names.now) (get_or members.now l []) }
    ensures order { IfOk result (λ o. o.order ≡ flat_map (λ g. g) (map (group_of names.now members.now) places.now)) }
    ensures knots { IfOk result (λ o. o.knots ≡ filter is_knot (map (group_of names.now members.now) places.now)) }
{
    let mut order = Vec::with_capacity(alloc, names.len())?;
    let mut knots = Vec::new(alloc);
    for lead in places {
        let group = members.at(*lead);
        add_names(&mut order, names, group)?;
        add_knot(alloc, &mut knots, names, group)?;
    }
    Ok(ProjectOrder {
        order: Names::of(order),
        knots: Knots::of(knots),
    })
}

/// Adds the names at these places, if there are two or more, as a knot.
fn add_knot(
    alloc: Global,
    knots: &mut Vec<Names>,
    names: &[Name],
    group: &[usize],
) -> Result<(), NoMemory>
    requires { All (λ a. a < length names.now) group.now }
    ensures { OnOk result (knots.new.items ≡ knots.old.items ++ filter is_knot (map (name_at names.now) group.now ∷ [])) }
{
    if group.len() > 1 {
        let mut found = Vec::with_capacity(alloc, group.len())?;
        add_names(&mut found, names, group)?;
        knots.push(Names::of(found))?;
    }
    Ok(())
}

/// Adds the names at these places.
fn add_names(found: &mut Vec<Name>, names: &[Name], group: &[usize]) -> Result<(), NoMemory>
    requires { All (λ a. a < length names.now) group.now }
    ensures { OnOk result (found.new.items ≡ found.old.items ++ map (name_at names.now) group.now) }
{
    for number in group {
        found.push(names[*number].copy()?)?;
    }
    Ok(())
}
