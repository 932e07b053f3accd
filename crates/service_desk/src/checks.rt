//! The causes for which what concerns the services is refused, one by one.
ghost use Rattle.std.specs.Prelude.{◌≡◌, ◌∷◌, [], Some, IfOk};
ghost use Rattle.std.specs.Option.{option_copied};
ghost use Rattle.proj_desc.specs.FirstCause.{first_cause, when};
ghost use Rattle.op_kind.specs.Places.{has_closed};
ghost use Rattle.op_kind.specs.declared.refusal.OpRefusal.TheVariants.{ProjectClosed};
ghost use Rattle.core_event.specs.declared.reply.Refusal.TheVariants as refusals;
ghost use Rattle.service_desk.specs.Judging.{Judges};
ghost use Rattle.service_desk.specs.Desks.{is_building};
ghost use Rattle.service_desk.specs.Refusals.{command_causes, no_builder, not_serving, project_causes, scope_causes, services_out, site_causes, unless_contained, unrooted};
ghost use Rattle.service_desk.specs.Sites.{site_in};

use crate::desk::{BuilderNames, Desk};
use crate::{NoMemory, ServiceError};
use build_due::Site;
use build_plan::description;
use core_event::{Refusal, WsRule};
use op_kind::OpRefusal;
use op_rule::contains_at;
use pass_table::Passes;
use res_path::{Name, Path};
use sched_rules::WsAtom;
use std::alloc::{AllocError, Global};
use ws_elem::{Element, TreeRep};

/// Refused where the topmost rule of the pass that isn't null doesn't contain the root, or where it has none such.
pub fn check_rooted(alloc: Global, passes: &Passes<WsAtom>, pass: u64) -> Result<(), ServiceError>
    ensures { Judges (unrooted passes.now.rules pass) result }
{
    match passes.rules().outer(pass) {
        None => refused(Refusal::NotContained(WsRule::null(alloc))),
        Some(outer) => check_contains(outer),
    }
}

fn check_contains(outer: &WsRule) -> Result<(), ServiceError>
    ensures { Judges (unless_contained outer.now) result }
{
    if contains_at(outer, &Path::root()) {
        return Ok(());
    }
    refused(Refusal::NotContained(outer.copy()?))
}

fn refused(refusal: Refusal) -> Result<(), ServiceError>
    ensures { Judges (Some refusal) result }
{
    Err(ServiceError::Refused(refusal))
}

/// Refused where a pass has the services.
pub fn check_home(passes: &Passes<WsAtom>) -> Result<(), ServiceError>
    ensures { Judges (services_out passes.now) result }
{
    match passes.services() {
        None => Ok(()),
        Some(holder) => refused(Refusal::ServicesOut(holder)),
    }
}

/// Refused where the pass hasn't the services, or hasn't taken them for what it asks.
pub fn check_serving(passes: &Passes<WsAtom>, fits: bool, pass: u64) -> Result<(), ServiceError>
    ensures { Judges (not_serving passes.now fits pass) result }
{
    if passes.serves(pass) && fits {
        return Ok(());
    }
    refused(Refusal::NotServices(passes.services()))
}

/// Refused where no project of this name is there, and where it is closed.
fn check_project<T: TreeRep>(alloc: Global, tree: &T, project: &Name) -> Result<(), ServiceError>
    ensures { Judges (first_cause (project_causes (T.tree tree.now) project.now)) result }
{
    let path = path_of(alloc, project)?;
    match tree.get(&path) {
        None => refused(Refusal::Operation(OpRefusal::NotFound(path))),
        Some(element) => check_open(path, element),
    }
}

/// The path of the project of this name. It is want of memory where it would pass the limits of paths, which no name does.
fn path_of(alloc: Global, project: &Name) -> Result<Path, NoMemory>
    ensures { IfOk result (λ path. path ≡ project.now ∷ []) }
{
    match Path::root().join(alloc, project) {
        Ok(path) => Ok(path),
        Err(_) => Err(AllocError),
    }
}

/// Refused where the element at the path of a project is a closed one.
fn check_open(path: Path, element: &Element) -> Result<(), ServiceError>
    ensures { Judges (when (has_closed (Some element.now)) (refusals.Operation (ProjectClosed path))) result }
{
    if element.kind.is_project() && !element.opened {
        return refused(Refusal::Operation(OpRefusal::ProjectClosed(path)));
    }
    Ok(())
}

/// Refused as `check_project` is, where a build is of one project.
pub fn check_scope<T: TreeRep>(
    alloc: Global,
    tree: &T,
    project: Option<&Name>,
) -> Result<(), ServiceError>
    ensures { Judges (first_cause (scope_causes (T.tree tree.now) (option_copied project.entry))) result }
{
    match project {
        None => Ok(()),
        Some(project) => check_project(alloc, tree, project),
    }
}

/// The command of this number of the open project of this name; none where there is none.
pub fn site_in<T: TreeRep>(
    alloc: Global,
    tree: &T,
    project: &Name,
    index: u16,
) -> Result<Option<Site>, NoMemory>
    ensures { IfOk result (λ site. site ≡ site_in (T.tree tree.now) project.now index) }
{
    match description(alloc, tree, project)? {
        None => Ok(None),
        Some(desc) => Site::of(alloc, project, index, &desc),
    }
}

/// The command of this number of the project, for a pass that is to have it built or cleaned. Refused where the pass hasn't
/// the services for a build, where it hasn't the rule of the root, where no such project is there or it is closed, where it
/// has no such command, and where there is no builder for it.
pub fn site_for<T: TreeRep>(
    alloc: Global,
    passes: &Passes<WsAtom>,
    tree: &T,
    desk: &Desk,
    pass: u64,
    project: &Name,
    index: u16,
) -> Result<Site, ServiceError>
    ensures judged { Judges (first_cause (site_causes passes.now (T.tree tree.now) desk.now pass project.now index)) result }
    ensures site { IfOk result (λ site. site_in (T.tree tree.now) project.now index ≡ Some site) }
{
    check_serving(passes, desk.is_building(), pass)?;
    check_rooted(alloc, passes, pass)?;
    check_project(alloc, tree, project)?;
    command_for(alloc, tree, &desk.builders, project, index)
}

/// The command of this number of the project. Refused where it has none such, and where there is no builder for it.
fn command_for<T: TreeRep>(
    alloc: Global,
    tree: &T,
    builders: &BuilderNames,
    project: &Name,
    index: u16,
) -> Result<Site, ServiceError>
    ensures judged { Judges (first_cause (command_causes (T.tree tree.now) builders.now project.now index)) result }
    ensures site { IfOk result (λ site. site_in (T.tree tree.now) project.now index ≡ Some site) }
{
    let Some(desc) = description(alloc, tree, project)? else {
        return Err(ServiceError::Refused(Refusal::NoCommand(0)));
    };
    let count = desc.commands.as_slice().len() as u64;
    match Site::of(alloc, project, index, &desc)? {
        None => Err(ServiceError::Refused(Refusal::NoCommand(count))),
        Some(site) => with_builder(builders, site),
    }
}

/// The command, if there is a builder for it.
fn with_builder(builders: &BuilderNames, site: Site) -> Result<Site, ServiceError>
    ensures judged { Judges (no_builder builders.now (Some site.command)) result }
    ensures same { IfOk result (λ found. found ≡ site) }
{
    if builders.has(&site.command.builder) {
        return Ok(site);
    }
    let name = site.command.builder.copy()?;
    Err(ServiceError::Refused(Refusal::NoBuilder(name)))
}
