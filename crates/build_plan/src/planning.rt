//! The plan of a build.
ghost use Rattle.std.specs.Prelude.{◌≡◌, ◌≢◌, ℕ, List, [], false, None, Some, IfOk, map, option_copied, unwrap_or};
ghost use Rattle.std.specs.List.{AllPairs};
ghost use Rattle.std.specs.Ordering.{nat_cmp, is_eq};
ghost use Rattle.std.specs.Cmp.Lexicographic.{slice_cmp};
ghost use Rattle.build_plan.specs.Plans.{plan};
ghost use Rattle.build_plan.specs.Inside.Walks.{commands_in};

use crate::NoMemory;
use crate::described::description;
use crate::found::Found;
use crate::walk::open_projects;
use build_order::{Names, order};
use builder_api::{Knot, Knots, Plan, PlanOrder};
use proj_desc::Commands;
use res_path::Name;
use std::alloc::Global;
use std::collections::BTreeMap;
use ws_elem::TreeRep;

/// The plan of a build of all open projects, or of one project alone.
///
/// Of the open projects that refer to each other, taken together, those come next of which all others to which they refer
/// are placed, and of several the ones with the least name; projects that refer to each other, two or more, are a knot. A
/// project that isn't open is planned without commands, and what is referred to and isn't open doesn't count.
///
/// Each description is read once. Costs one step in the tree for each project, open or not, and the order of the open
/// ones; of what is below a project only members whose names begin with U+10FFFF are looked at.
pub fn plan_of<T: TreeRep>(
    alloc: Global,
    tree: &T,
    project: Option<&Name>,
) -> Result<Plan, NoMemory>
    ensures { IfOk result (λ p. p ≡ plan (T.tree tree.now) (option_copied project.entry)) }
{
    match project {
        None => plan_of_all(alloc, tree),
        Some(name) => plan_of_one(alloc, tree, name),
    }
}

fn plan_of_all<T: TreeRep>(alloc: Global, tree: &T) -> Result<Plan, NoMemory>
    ensures { IfOk result (λ p. p ≡ plan (T.tree tree.now) None) }
{
    let Found { projects, commands } = open_projects(alloc, tree)?;
    let placed = order(alloc, projects.as_slice())?;
    let knots = knots_of(alloc, placed.knots.as_slice())?;
    let order = with_commands(alloc, placed.order.as_slice(), commands)?;
    Ok(Plan { order, knots })
}

fn plan_of_one<T: TreeRep>(alloc: Global, tree: &T, project: &Name) -> Result<Plan, NoMemory>
    ensures { IfOk result (λ p. p ≡ plan (T.tree tree.now) (Some project.now)) }
{
    let commands = match description(alloc, tree, project)? {
        None => Commands::empty(alloc),
        Some(desc) => desc.commands,
    };
    let mut order = Vec::with_capacity(alloc, 1)?;
    order.push((project.copy()?, commands))?;
    Ok(Plan {
        order: PlanOrder::of(order),
        knots: Knots::empty(alloc),
    })
}

/// The projects of these names, with their commands.
fn with_commands(
    alloc: Global,
    names: &[Name],
    mut commands: BTreeMap<Name, Commands>,
) -> Result<PlanOrder, NoMemory>
    requires { AllPairs (λ a b. a ≢ b) names.now }
    ensures { IfOk result (λ order. order ≡ map (λ n. (n, unwrap_or (commands_in commands n) [])) names.now) }
{
    let mut order = Vec::with_capacity(alloc, names.len())?;
    for name in names {
        let taken = take_commands(alloc, &mut commands, name);
        order.push((name.copy()?, taken))?;
    }
    Ok(PlanOrder::of(order))
}

/// Takes the commands of the project out, if any are there.
fn take_commands(alloc: Global, commands: &mut BTreeMap<Name, Commands>, name: &Name) -> Commands
    ensures taken { result ≡ unwrap_or (commands_in commands.old name.now) [] }
    ensures others { (n : List ℕ) → is_eq (slice_cmp nat_cmp name.now n) ≡ false → commands_in commands.new n ≡ commands_in commands.old n }
{
    match commands.remove(name) {
        None => Commands::empty(alloc),
        Some(taken) => taken,
    }
}

fn knots_of(alloc: Global, knots: &[Names]) -> Result<Knots, NoMemory>
    ensures { IfOk result (λ k. k ≡ knots.now) }
{
    let mut found = Vec::with_capacity(alloc, knots.len())?;
    for knot in knots {
        found.push(knot_of(alloc, knot.as_slice())?)?;
    }
    Ok(Knots::of(found))
}

fn knot_of(alloc: Global, names: &[Name]) -> Result<Knot, NoMemory>
    ensures { IfOk result (λ k. k ≡ names.now) }
{
    let mut found = Vec::with_capacity(alloc, names.len())?;
    for name in names {
        found.push(name.copy()?)?;
    }
    Ok(Knot::of(found))
}
