//! Build commands.
ghost use Rattle.std.specs.Prelude.{◌≡◌, ◌⊎◌, List, IfOk, OnErr, Some, None, option_copied, true};
ghost use Rattle.builder_api.specs.declared.kind.BuildKind.TheVariants as kinds;
ghost use Rattle.build_laws.specs.Builds.{Project};
ghost use Rattle.build_laws.specs.Planned.{IsPlanned};
ghost use Rattle.build_run.specs.Sweeps.{SweptTo};
ghost use Rattle.build_run.specs.Starts.{AreCalled, IsToldOf, MayEnd};
ghost use Rattle.build_run.specs.Commands.{BuiltTo, WentTo, IsAnswered, IsUnanswered};

use crate::cleaning::clean_projects;
use crate::groups::build_groups;
use crate::{BuildAnswer, Host, Started};
use builder_api::{BuildKind, BuildOutcome, Plan};
use res_path::{Name, NoMemory};

/// How the groups of a plan came through a build.
fn built<H: Host>(host: &mut H, plan: &Plan, kind: BuildKind) -> BuildOutcome
    requires ready { H.ready host.old }
    requires serving { (H.book host.old).serving ≡ true }
    requires calls { AreCalled (H.book host.old) }
    requires planned { (gs : List (List Project)) × IsPlanned (H.book host.old).now.descs plan.now.order plan.now.knots gs }
    ensures stays { H.stays host.old host.new }
    ensures calls { IsToldOf (H.book host.new) result }
    ensures came { BuiltTo H.Told.meaning (H.book host.old) kind plan.now result (H.book host.new) }
{
    match build_groups(host, plan.order.as_slice(), plan.knots.as_slice(), kind) {
        Ok(()) => BuildOutcome::Settled,
        Err(outcome) => outcome,
    }
}

/// How the commands of a plan came through a clean build.
fn cleaned<H: Host>(host: &mut H, plan: &Plan) -> BuildOutcome
    requires ready { H.ready host.old }
    requires serving { (H.book host.old).serving ≡ true }
    requires calls { AreCalled (H.book host.old) }
    requires planned { (gs : List (List Project)) × IsPlanned (H.book host.old).now.descs plan.now.order plan.now.knots gs }
    ensures stays { H.stays host.old host.new }
    ensures calls { IsToldOf (H.book host.new) result }
    ensures came { SweptTo (H.book host.old) plan.now.order result (H.book host.new) }
{
    match clean_projects(host, plan.order.as_slice()) {
        Ok(()) => BuildOutcome::Cleaned,
        Err(_) => BuildOutcome::NoMemory,
    }
}

/// How the commands of a plan came through.
fn went<H: Host>(host: &mut H, plan: &Plan, kind: BuildKind) -> BuildOutcome
    requires ready { H.ready host.old }
    requires serving { (H.book host.old).serving ≡ true }
    requires calls { AreCalled (H.book host.old) }
    requires planned { (gs : List (List Project)) × IsPlanned (H.book host.old).now.descs plan.now.order plan.now.knots gs }
    ensures stays { H.stays host.old host.new }
    ensures calls { IsToldOf (H.book host.new) result }
    ensures came { WentTo H.Told.meaning (H.book host.old) kind plan.now result (H.book host.new) }
{
    match kind {
        BuildKind::Full => built(host, plan, BuildKind::Full),
        BuildKind::Auto => built(host, plan, BuildKind::Auto),
        BuildKind::Incremental => built(host, plan, BuildKind::Incremental),
        BuildKind::Clean => cleaned(host, plan),
    }
}

/// The outcome twice, or want of memory twice.
fn twice(outcome: BuildOutcome) -> (BuildOutcome, BuildOutcome)
    ensures same { result.0 ≡ result.1 }
    ensures outcome { (result.0 ≡ outcome) ⊎ (result.0 ≡ BuildOutcome.NoMemory) }
{
    match outcome.copy() {
        Ok(copy) => (outcome, copy),
        Err(_) => (BuildOutcome::NoMemory, BuildOutcome::NoMemory),
    }
}

/// One build command.
fn run<H: Host>(
    host: &mut H,
    project: Option<&Name>,
    kind: BuildKind,
) -> Result<BuildAnswer, NoMemory>
    requires ready { H.ready host.old }
    requires may { MayEnd H.ends }
    ensures stays { H.stays host.old host.new }
    ensures answered { IfOk result (λ answer. IsAnswered H.Told.meaning kind (option_copied project.entry) (H.book host.old) answer (H.book host.new)) }
    ensures unanswered { OnErr result (IsUnanswered H.Told.meaning kind (option_copied project.entry) (H.book host.old) (H.book host.new)) }
{
    let plan = match host.start(kind, project)? {
        Started::Plan(plan) => plan,
        Started::Refused(number) => return Ok(BuildAnswer::Stopped(number)),
    };
    let outcome = went(host, &plan, kind);
    let (outcome, answer) = twice(outcome);
    host.finish(outcome)?;
    Ok(BuildAnswer::Ended(answer))
}

/// Builds the whole workspace: all open projects, each after those to which it refers, and knots of projects that refer to
/// one another in rounds until one touches no file, at most ten. A clean build is `clean`. Stopped where the build was
/// refused with that number. Answers `NoMemory` where memory wants before the plan is there, after a refusal, or after the
/// build has ended; in between it is the outcome.
pub fn build_all<H: Host>(host: &mut H, kind: BuildKind) -> Result<BuildAnswer, NoMemory>
    requires ready { H.ready host.old }
    requires may { MayEnd H.ends }
    ensures stays { H.stays host.old host.new }
    ensures answered { IfOk result (λ answer. IsAnswered H.Told.meaning kind None (H.book host.old) answer (H.book host.new)) }
    ensures unanswered { OnErr result (IsUnanswered H.Told.meaning kind None (H.book host.old) (H.book host.new)) }
{
    run(host, None, kind)
}

/// Builds one project, its commands once. Answers as `build_all` does.
pub fn build_project<H: Host>(
    host: &mut H,
    project: &Name,
    kind: BuildKind,
) -> Result<BuildAnswer, NoMemory>
    requires ready { H.ready host.old }
    requires may { MayEnd H.ends }
    ensures stays { H.stays host.old host.new }
    ensures answered { IfOk result (λ answer. IsAnswered H.Told.meaning kind (Some project.now) (H.book host.old) answer (H.book host.new)) }
    ensures unanswered { OnErr result (IsUnanswered H.Told.meaning kind (Some project.now) (H.book host.old) (H.book host.new)) }
{
    run(host, Some(project), kind)
}

/// Cleans what the commands of the whole workspace or of one project wrote, and what their builders keep. Answers as
/// `build_all` does.
pub fn clean<H: Host>(host: &mut H, project: Option<&Name>) -> Result<BuildAnswer, NoMemory>
    requires ready { H.ready host.old }
    requires may { MayEnd H.ends }
    ensures stays { H.stays host.old host.new }
    ensures answered { IfOk result (λ answer. IsAnswered H.Told.meaning kinds.Clean (option_copied project.entry) (H.book host.old) answer (H.book host.new)) }
    ensures unanswered { OnErr result (IsUnanswered H.Told.meaning kinds.Clean (option_copied project.entry) (H.book host.old) (H.book host.new)) }
{
    run(host, project, BuildKind::Clean)
}
