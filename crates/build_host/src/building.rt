//! A build command.
ghost use Rattle.std.specs.Prelude.{◌≡◌, ◌≤◌, ℕ, List, length, map, None, IfOk, OnOk, OnErr, option_copied};
ghost use Rattle.builder_api.specs.Told.{Told};
ghost use Rattle.build_run.specs.Commands.{IsAnswered, IsUnanswered};
ghost use Rattle.build_run.specs.Starts.{MayEnd};
ghost use Rattle.build_core.specs.Histories.{book_of};
ghost use Rattle.run_order.specs.Lists.{Cut, Grew};
ghost use Rattle.build_host.specs.Builds.{IsBuild};
ghost use Rattle.build_host.specs.Hosts.{Goes, IsReady, Serves, StayBuilders};

use crate::NoMemory;
use crate::host::WorkerHost;
use crate::steps::settle;
use build_run::{BuildAnswer, Host, build_all, build_project};
use builder_api::{BuildKind, Builder, Builders, Meanings};
use elem_tree::LayerTree;
use res_path::Name;
use std::alloc::Global;
use std::marker::PhantomData;
use std::snapshot::Snapshot;
use ws_core::Core;

/// A host makes a build.
fn run<H: Host>(
    host: &mut H,
    kind: BuildKind,
    project: Option<&Name>,
) -> Result<BuildAnswer, NoMemory>
    requires ready { H.ready host.old }
    requires may { MayEnd H.ends }
    ensures stays { H.stays host.old host.new }
    ensures answered { IfOk result (λ answer. IsAnswered H.Told.meaning kind (option_copied project.entry) (H.book host.old) answer (H.book host.new)) }
    ensures unanswered { OnErr result (IsUnanswered H.Told.meaning kind (option_copied project.entry) (H.book host.old) (H.book host.new)) }
{
    match project {
        Some(project) => build_project(host, project, kind),
        None => build_all(host, kind),
    }
}

/// The worker as a host makes a build, from the beginning on.
fn made<'a, B: Builder, M: Meanings>(
    host: &mut WorkerHost<'a, B, M>,
    kind: BuildKind,
    project: Option<&Name>,
) -> Result<BuildAnswer, NoMemory>
    requires ready { IsReady M.meaning host.old.core.now (map (λ b. B.tells b) host.old.builders.now) × (host.old.first ≤ length host.old.core.now.history) }
    requires first { host.old.first ≡ 0 }
    requires began { map (λ b. B.tells b) host.old.began.now.value ≡ map (λ b. B.tells b) host.old.builders.now }
    ensures same_core { host.new.core.ghost_name ≡ host.old.core.ghost_name }
    ensures same_builders { host.new.builders.ghost_name ≡ host.old.builders.ghost_name }
    ensures answered { IfOk result (λ answer. (first : ℕ) × (began : List Told)
        × IsAnswered M.meaning kind (option_copied project.entry) (book_of host.old.core.now 1 0 (map (λ b. B.tells b) host.old.builders.now) (map (λ b. B.tells b) host.old.builders.now)) answer
        (book_of host.new.core.now 1 first began (map (λ b. B.tells b) host.new.builders.now))) }
    ensures unanswered { OnErr result ((first : ℕ) × (began : List Told)
        × IsUnanswered M.meaning kind (option_copied project.entry) (book_of host.old.core.now 1 0 (map (λ b. B.tells b) host.old.builders.now) (map (λ b. B.tells b) host.old.builders.now))
        (book_of host.new.core.now 1 first began (map (λ b. B.tells b) host.new.builders.now))) }
    ensures goes { Goes host.old.core.now host.new.core.now }
    ensures builders { StayBuilders M.meaning (map (λ b. B.tells b) host.old.builders.now) (map (λ b. B.tells b) host.new.builders.now) }
{
    run(host, kind, project)
}

/// The worker makes a build over what it is lent.
fn hosted<B: Builder, M: Meanings>(
    core: &mut Core<LayerTree>,
    builders: &mut Builders<B>,
    alloc: Global,
    kind: BuildKind,
    project: Option<&Name>,
) -> Result<BuildAnswer, NoMemory>
    requires { IsReady M.meaning core.old (map (λ b. B.tells b) builders.old) }
    ensures answered { IfOk result (λ answer. (first : ℕ) × (began : List Told)
        × IsAnswered M.meaning kind (option_copied project.entry) (book_of core.old 1 0 (map (λ b. B.tells b) builders.old) (map (λ b. B.tells b) builders.old)) answer
        (book_of core.new 1 first began (map (λ b. B.tells b) builders.new))) }
    ensures unanswered { OnErr result ((first : ℕ) × (began : List Told)
        × IsUnanswered M.meaning kind (option_copied project.entry) (book_of core.old 1 0 (map (λ b. B.tells b) builders.old) (map (λ b. B.tells b) builders.old))
        (book_of core.new 1 first began (map (λ b. B.tells b) builders.new))) }
    ensures goes { Goes core.old core.new }
    ensures builders { StayBuilders M.meaning (map (λ b. B.tells b) builders.old) (map (λ b. B.tells b) builders.new) }
{
    let mut began = Snapshot::of(&*builders);
    let mut host = WorkerHost::<'_, B, M> {
        core,
        builders,
        alloc,
        first: 0,
        began: &mut began,
        meanings: PhantomData,
    };
    let answer = made(&mut host, kind, project);
    let WorkerHost {
        core: _,
        builders: _,
        alloc: _,
        first: _,
        began: _,
        meanings: _,
    } = host;
    answer
}

/// The worker makes a build: of the project of this name, or of the whole workspace. A build of the kind `Clean` cleans.
/// Answers as `build_all` and `build_project` of build_run do (`IWorkspace.build`, `IProject.build`).
pub fn build<B: Builder, M: Meanings>(
    core: &mut Core<LayerTree>,
    builders: &mut Builders<B>,
    alloc: Global,
    kind: BuildKind,
    project: Option<&Name>,
) -> Result<BuildAnswer, NoMemory>
    requires { IsReady M.meaning core.old (map (λ b. B.tells b) builders.old) }
    // the entries are those of a build that was answered so, or the first of one where memory wanted
    ensures made { OnOk result (Grew (IsBuild M.meaning 1 kind (option_copied project.entry)) core.old.history core.new.history) }
    ensures cut { OnErr result (Grew (Cut (IsBuild M.meaning 1 kind (option_copied project.entry))) core.old.history core.new.history) }
    ensures answered { IfOk result (λ answer. (first : ℕ) × (began : List Told)
        × IsAnswered M.meaning kind (option_copied project.entry) (book_of core.old 1 0 (map (λ b. B.tells b) builders.old) (map (λ b. B.tells b) builders.old)) answer
        (book_of core.new 1 first began (map (λ b. B.tells b) builders.new))) }
    ensures home { OnOk result (core.old.state.manager.passes.services ≡ None → core.new.state.manager.passes.services ≡ None) }
    ensures goes { Goes core.old core.new }
    ensures serves { Serves M.meaning core.old core.new (map (λ b. B.tells b) builders.old) (map (λ b. B.tells b) builders.new) }
{
    settle(core);
    let answer = hosted::<B, M>(core, builders, alloc, kind, project);
    settle(core);
    answer
}
