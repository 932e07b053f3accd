//! A pass as the host of a save.
ghost use Rattle.std.specs.Prelude.{◌≡◌, true};
ghost use Rattle.save_history.specs.Points.{IsAsked};
ghost use Rattle.ws_core.specs.Durables.{durable_of};
ghost use Rattle.save_history.specs.Kept.{IsKept, IsTried, points_at};
ghost use Rattle.save_host.specs.Inside.Hosts.{IsReady, book_of};

use crate::NoMemory;
use crate::durable::kept_now;
use crate::keeper::Keeper;
use crate::steps::{begin, check_in, keep};
use elem_tree::LayerTree;
use save_kind::{PartStates, SaveAnswer, SaveKind};
use save_run::{Host, WriteFault};
use std::alloc::Global;
use std::snapshot::Snapshot;
use ws_core::Core;
use ws_outside::Disk;

/// A write of a save, with its result.
#[derive(Clone, Copy, Debug, PartialEq, Eq)]
pub struct Try {
    pub kind: SaveKind,
    pub result: Result<(), WriteFault>,
}

/// A pass as the host of one save: the core of its workspace and the store of the run.
pub struct SaveHost<'a, D: Disk> {
    pub core: &'a mut Core<LayerTree>,
    pub keeper: &'a mut Keeper<D>,
    pub alloc: Global,
    pub pass: u64,
    /// The core as it was when the save was asked for.
    pub began: &'a mut Snapshot<Core<LayerTree>>,
    /// The write, once it was tried.
    pub written: Option<Try>,
}

impl<'a, D: Disk> Host for SaveHost<'a, D> {
    ghost use Rattle.std.specs.Prelude.{◌≡◌, refl};
    ghost use Rattle.std.proofs.Common.{◌∙◌};
    ghost use Rattle.save_host.specs.Inside.Hosts.{IsReady, book_of};

    ghost book = { λ h. book_of h.began.now.value h.core.now h.written };

    ghost ready = { λ h. IsReady D.moment D.left_since D.may_leave D.faults h.pass h.began.now.value h.core.now h.keeper.now h.written };

    ghost stays = { λ a b. (b.core.ghost_name ≡ a.core.ghost_name) × (b.keeper.ghost_name ≡ a.keeper.ghost_name) × (b.began.now ≡ a.began.now) × (b.pass ≡ a.pass) × (b.keeper.now.began ≡ a.keeper.now.began)
        × (IsReady D.moment D.left_since D.may_leave D.faults a.pass a.began.now.value a.core.now a.keeper.now a.written
        → IsReady D.moment D.left_since D.may_leave D.faults b.pass b.began.now.value b.core.now b.keeper.now b.written) };

    ghost stays_itself = { λ a. (refl, refl, refl, refl, refl, λ h. h) };

    ghost stays_on = { λ a b c p q. (q.0 ∙ p.0, q.1 ∙ p.1, q.2 ∙ p.2, q.3 ∙ p.3, q.4 ∙ p.4, λ h. q.5 (p.5 h)) };

    ghost stays_ready = { λ a b p h. p.5 h };

    fn start(&mut self, kind: SaveKind) -> Result<Option<u8>, NoMemory> {
        begin(self.core, self.alloc, self.pass, kind)
    }

    fn keep(&mut self, states: PartStates) -> Result<(), NoMemory> {
        keep(self.core, self.alloc, self.pass, states)
    }

    fn write(&mut self, kind: SaveKind) -> Result<(), WriteFault> {
        let result = write(self.core, self.keeper, self.alloc, kind);
        self.written = Some(Try { kind, result });
        result
    }

    fn finish(&mut self, answer: SaveAnswer) {
        check_in(self.core, self.alloc, self.pass, answer)
    }
}

/// What is kept of the workspace as it is is written as a save of the kind.
fn write<D: Disk>(
    core: &Core<LayerTree>,
    keeper: &mut Keeper<D>,
    alloc: Global,
    kind: SaveKind,
) -> Result<(), WriteFault>
    ensures began { keeper.new.began ≡ keeper.old.began }
    ensures tried { IsAsked (points_at core.now keeper.old) (durable_of core.now.state) → IsKept D.moment D.left_since D.may_leave D.faults core.now keeper.old
        → IsTried D.moment D.left_since D.may_leave D.faults result core.now keeper.new }
{
    match kept_now(core, alloc) {
        Ok(now) => keeper.write(alloc, kind, &now),
        Err(_) => Err(WriteFault::Memory),
    }
}
