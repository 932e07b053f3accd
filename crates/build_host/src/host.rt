//! The worker as the host of builds.
ghost use Rattle.std.specs.Prelude.{◌≡◌, ◌≤◌, length, map};
ghost use Rattle.build_core.specs.Histories.{book_of};
ghost use Rattle.build_host.specs.Hosts.{Goes, IsReady, StayBuilders};

use crate::NoMemory;
use crate::opening::{close, open};
use crate::serving::{clear, commit, hand};
use crate::steps::check_in;
use build_run::{Given, Host, Started, Taken};
use builder_api::{
    BuildFault, BuildKind, BuildOutcome, Builder, Builders, Edits, Handed, Meanings,
};
use elem_tree::LayerTree;
use proj_desc::Command;
use res_path::Name;
use std::alloc::Global;
use std::marker::PhantomData;
use std::snapshot::Snapshot;
use ws_core::Core;

/// The one worker of a run as the host of builds: the core of its workspace and its builders, of which those for whose
/// names there is a meaning have that.
pub struct WorkerHost<'a, B: Builder, M: Meanings> {
    pub core: &'a mut Core<LayerTree>,
    pub builders: &'a mut Builders<B>,
    pub alloc: Global,
    /// How many entries there were when the build command began.
    pub first: usize,
    /// The builders as they were then.
    pub began: &'a mut Snapshot<Builders<B>>,
    pub meanings: PhantomData<M>,
}

impl<'a, B: Builder, M: Meanings> Host for WorkerHost<'a, B, M> {
    ghost use Rattle.std.specs.Prelude.{◌≡◌, ◌≤◌, length, map, refl};
    ghost use Rattle.std.proofs.Common.{◌∙◌};
    ghost use Rattle.build_core.specs.Histories.{book_of};
    ghost use Rattle.build_host.specs.Hosts.{Goes, IsReady, StayBuilders};
    ghost use Rattle.build_host.specs.Laws.{goes_itself, goes_on, builders_stay, builders_on, ready_on};

    type Told = M;

    ghost book = { λ h. book_of h.core.now 1 h.first (map (λ b. B.tells b) h.began.now.value) (map (λ b. B.tells b) h.builders.now) };

    ghost ends = { λ entries done outcome. Unit {0} };

    ghost ready = { λ h. IsReady M.meaning h.core.now (map (λ b. B.tells b) h.builders.now) × (h.first ≤ length h.core.now.history) };

    ghost stays = { λ a b. (b.core.ghost_name ≡ a.core.ghost_name) × (b.builders.ghost_name ≡ a.builders.ghost_name) × Goes a.core.now b.core.now
        × StayBuilders M.meaning (map (λ x. B.tells x) a.builders.now) (map (λ x. B.tells x) b.builders.now)
        × (a.first ≤ length a.core.now.history → b.first ≤ length b.core.now.history) };

    ghost stays_itself = { λ a. (refl, refl, goes_itself a.core.now, builders_stay M.meaning (map (λ x. B.tells x) a.builders.now), λ h. h) };

    ghost stays_on = { λ a b c p q. (
      q.0 ∙ p.0,
      q.1 ∙ p.1,
      goes_on a.core.now b.core.now c.core.now p.2 q.2,
      builders_on M.meaning (map (λ x. B.tells x) a.builders.now) (map (λ x. B.tells x) b.builders.now) (map (λ x. B.tells x) c.builders.now) p.3 q.3,
      λ h. q.4 (p.4 h),
    ) };

    ghost stays_ready = { λ a b p h. (ready_on M.meaning a.core.now b.core.now (map (λ x. B.tells x) a.builders.now) (map (λ x. B.tells x) b.builders.now) p.2 p.3 h.0, p.4 h.1) };

    fn start(&mut self, kind: BuildKind, project: Option<&Name>) -> Result<Started, NoMemory> {
        self.first = self.core.history().len();
        *self.began = Snapshot::of(&*self.builders);
        open(self.core, self.alloc, kind, project)
    }

    fn handed(
        &mut self,
        project: &Name,
        index: u16,
        command: &Command,
        kind: BuildKind,
    ) -> Result<Given, NoMemory> {
        hand(self.core, self.alloc, project, index, command, kind)
    }

    fn run(
        &mut self,
        _project: &Name,
        _index: u16,
        command: &Command,
        handed: &Handed,
    ) -> Result<Edits, BuildFault> {
        match self.builders.build_first(command, handed) {
            Some(answer) => answer,
            None => unreachable!(),
        }
    }

    fn commit(&mut self, edits: Edits) -> Result<Taken, NoMemory> {
        commit(self.core, self.alloc, edits)
    }

    fn clean(
        &mut self,
        project: &Name,
        index: u16,
        command: &Command,
    ) -> Result<Option<u8>, NoMemory> {
        let refused = clear(self.core, self.alloc, project, index)?;
        if refused.is_none() {
            self.builders.clean_first(command.builder.text());
        }
        Ok(refused)
    }

    fn finish(&mut self, outcome: BuildOutcome) -> Result<(), NoMemory> {
        check_in(self.core, self.alloc, outcome);
        close(self.core, self.alloc)
    }
}
