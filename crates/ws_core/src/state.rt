//! The state of a workspace.
ghost use Rattle.std.specs.Prelude.{◌≡◌, IfOk};
ghost use Rattle.std.specs.List.{AllByRecursion};
ghost use Rattle.delta_kind.specs.Deltas.{delta};
ghost use Rattle.op_kind.specs.Resources.{resources};
ghost use Rattle.ws_elem.specs.Trees.{fresh_tree};
ghost use Rattle.ws_durable.specs.Saved.{saved};
ghost use Rattle.built_read.specs.Records.{HasCommand};
ghost use Rattle.ws_core.specs.Durables.{durable_of, kept_since};
ghost use Rattle.ws_core.specs.Histories.{fresh_for};
ghost use Rattle.ws_core.specs.Opened.{opened_of};

use crate::opening::content_of;
use crate::{JobManager, NoMemory};
use delta_kind::Delta;
use elem_tree::LayerTree;
use op_kind::Side;
use save_round::KeptState;
use service_desk::{BuilderNames, Desk};
use std::alloc::Global;
use std::marker::Model;
use tree_memory::Remembers;
use ws_content::Content;
use ws_durable::Durable;

/// The state of a workspace over a tree that remembers. A contract sees the record of its resources, the trees that are
/// remembered, the jobs and passes, and the builders' names with the command under way and what the services were taken for.
#[derive(Drop)]
pub struct State<T: Remembers + Drop> {
    pub(crate) content: Content<T>,
    pub(crate) manager: JobManager,
    pub(crate) desk: Desk,
}

impl<T: Remembers + Drop> Model for State<T> {
    ghost use Rattle.ws_elem.specs.contracts.element.Element as element;
    ghost use Rattle.proj_desc.specs.contracts.command.Command as command;
    ghost use Rattle.job_manager.specs.contracts.manager.JobManager as job_manager;
    ghost use Rattle.service_desk.specs.contracts.desk.Desk as desk_row;
    ghost use Rattle.ws_core.specs.States.{Moment};
    ghost use Rattle.ws_core.specs.Inside.Codes.{moment_code};
    ghost use Rattle.ws_core.specs.Inside.Parts.{moment};

    ghost Value = { Moment };

    ghost coded = { moment_code element.the_row.coded command.the_row.coded job_manager.the_row.coded desk_row.the_row.coded };

    ghost view = { λ s. moment s.content s.manager s.desk };
}

impl State<LayerTree> {
    /// The workspace as it is opened from what was kept: pass 0 is there, no job, and these builders. No save is under way.
    pub fn opened(
        alloc: Global,
        durable: Durable,
        builders: BuilderNames,
    ) -> Result<State<LayerTree>, NoMemory>
        requires { AllByRecursion HasCommand durable.built }
        ensures { IfOk result (λ state. state ≡ opened_of (saved durable) builders) }
    {
        let manager = JobManager::first(alloc)?;
        Ok(State {
            content: content_of(alloc, durable)?,
            manager,
            desk: Desk::of(builders),
        })
    }
}

impl<T: Remembers + Drop> State<T> {
    /// The fresh workspace over this tree, which has the root alone, as node 1: pass 0 is there, no job, and these builders.
    pub fn fresh(alloc: Global, tree: T, builders: BuilderNames) -> Result<State<T>, NoMemory>
        requires { T.tree tree ≡ fresh_tree }
        ensures { IfOk result (λ state. state ≡ fresh_for builders) }
    {
        let manager = JobManager::first(alloc)?;
        Ok(State {
            content: Content::of(alloc, tree, Side::fresh(alloc))?,
            manager,
            desk: Desk::of(builders),
        })
    }

    /// The tree.
    pub fn tree(&self) -> &T
        ensures { T.tree result.now ≡ self.now.resources.tree }
    {
        self.content.tree()
    }

    /// What stands beside the tree: the members of closed projects, the counters and the partners.
    pub fn side(&self) -> &Side
        ensures { resources self.now.resources.tree result.now ≡ self.now.resources }
    {
        self.content.side()
    }

    /// The jobs, and the passes with what each has.
    pub fn manager(&self) -> &JobManager
        ensures { result.now ≡ self.now.manager }
    {
        &self.manager
    }

    /// What of the state lasts over a save, as a value of its own that shares the texts. Costs a put for each element of the
    /// tree, and a copy of each tree that was built last or is kept.
    pub fn durable(&self, alloc: Global) -> Result<Durable, NoMemory>
        ensures { IfOk result (λ d. saved d ≡ durable_of self.now) }
    {
        self.content.durable(alloc)
    }

    /// What participants keep, in the order of their names, each with what changed since then where it asked for that. Costs
    /// what was recorded since then, and no walk of a tree.
    pub fn kept_states(&self, alloc: Global) -> Result<Vec<KeptState>, NoMemory>
        ensures { IfOk result (λ kept. kept.items ≡ kept_since self.now) }
    {
        self.content.kept_states(alloc)
    }

    /// What changed since the workspace was opened. Costs what was recorded since then, and no walk of a tree.
    pub fn since_start(&self, alloc: Global) -> Result<Delta, NoMemory>
        ensures { IfOk result (λ d. d ≡ delta self.now.remembered.start self.now.resources.tree) }
    {
        self.content.since_start(alloc)
    }
}
