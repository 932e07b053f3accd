//! A workspace is opened over a disk.
ghost use Rattle.std.specs.Prelude.{◌≡◌, ◌⊎◌, [], map, false, IfOk, IfErr, IfSome, MatchResult};
ghost use Rattle.ws_outside.specs.Disk.{LeavesOnly};
ghost use Rattle.disk_area.specs.declared.damage.Damage.{Damage};
ghost use Rattle.ws_durable.specs.Saved.{Saved, saved};
ghost use Rattle.save_format.specs.Valid.{Valid};
ghost use Rattle.save_store.specs.declared.faults.OpenFault.TheVariants.{Memory};
ghost use Rattle.save_store.specs.Damages.{FaultOf, IsDamaged, IsUndamaged, TellsDamage};
ghost use Rattle.save_store.specs.States.{Holds};
ghost use Rattle.save_store.specs.Stored.{IsStored};
ghost use Rattle.job_manager.specs.Managers.{first_manager};
ghost use Rattle.save_round.specs.Restoring.{HasStoppedRestoring, WereRestored};
ghost use Rattle.save_history.specs.Kept.{IsKept, disk_of};
ghost use Rattle.ws_core.specs.Durables.{kept_since};
ghost use Rattle.ws_core.specs.Opened.{opened_of};
ghost use Rattle.ws_opening.specs.Restored.{HasStoppedOpening, restored_of};

use crate::opened::{Opened, workspace};
use crate::restoring::{Restored, give_back};
use builder_api::{Builder, Builders};
use elem_tree::LayerTree;
use save_host::Keeper;
use save_round::{Participant, Participants};
use save_store::{OpenFault, Store};
use std::alloc::Global;
use ws_core::Core;
use ws_durable::Durable;
use ws_outside::Disk;

/// A workspace that was just opened, in which nothing was done, with what belongs to it.
#[derive(Drop)]
pub struct Fresh<D: Disk, B: Builder, P: Participant> {
    pub core: Core<LayerTree>,
    /// The store that it was opened from, over the disk.
    pub keeper: Keeper<D>,
    pub builders: Builders<B>,
    /// They got back what they kept.
    pub participants: Participants<P>,
    /// What they got back, in their order.
    pub restored: Vec<Restored>,
}

/// Opens a workspace over what the two areas of a disk hold, with these builders and participants; the fresh workspace where
/// no area is open. The areas are brought to the device, and hold what they held. Each participant that is the first of its
/// name gets back what it kept, once, in their order, and no builder is called.
///
/// With a fault all is handed back. Damaged comes exactly where the areas have that damage, Disk exactly where the disk's count
/// of faults rose in this call, and Memory where memory wanted. Then the builders are as they were, and so are the
/// participants; but where one of them wanted memory for what it got back, those before it have got theirs. Costs the bytes
/// that are read, and a walk of each tree that is remembered.
pub fn open<D: Disk, B: Builder, P: Participant>(
    alloc: Global,
    disk: D,
    builders: Builders<B>,
    participants: Participants<P>,
) -> Result<Fresh<D, B, P>, (OpenFault, D, Builders<B>, Participants<P>)>
    ensures held { IfOk result (λ f. IfSome (D.seen disk) (λ both. Holds both (saved f.keeper.began.last))) }
    ensures only { IfSome (D.seen disk) (λ both. (d : Saved) → Holds both d → MatchResult result (λ f. d ≡ saved f.keeper.began.last) (λ e. IsUndamaged e.0)) }
    ensures valid { IfOk result (λ f. Valid (saved f.keeper.began.last)) }
    ensures opened { IfOk result (λ f. f.core.opened ≡ opened_of (saved f.keeper.began.last) (map (λ b. b.named) (map (λ b. B.tells b) builders))) }
    ensures first { IfOk result (λ f. f.core.opened.manager ≡ first_manager) }
    ensures state { IfOk result (λ f. f.core.state ≡ f.core.opened) }
    ensures history { IfOk result (λ f. f.core.history ≡ []) }
    ensures kept { IfOk result (λ f. IsKept D.moment D.left_since D.may_leave D.faults f.core f.keeper) }
    ensures unused { IfOk result (λ f. f.keeper.store ≡ f.keeper.began) }
    ensures sound { IfOk result (λ f. f.keeper.failed ≡ false) }
    ensures builders { MatchResult result (λ f. f.builders ≡ builders) (λ e. e.2 ≡ builders) }
    ensures participants { IfOk result (λ f. WereRestored (kept_since f.core.opened) (map (λ p. P.tells p) participants) (map (λ p. P.tells p) f.participants)) }
    ensures restored { IfOk result (λ f. f.restored.items ≡ restored_of (kept_since f.core.opened) (map (λ p. P.tells p) participants)) }
    ensures stopped { IfErr result (λ e. (e.3 ≡ participants) ⊎ ((e.0 ≡ Memory) × HasStoppedOpening (D.seen disk) (map (λ b. b.named) (map (λ b. B.tells b) builders)) (map (λ p. P.tells p) participants) (map (λ p. P.tells p) e.3))) }
    ensures damaged { IfErr result (λ e. IfSome (D.seen disk) (λ both. TellsDamage (IsDamaged both) e.0)) }
    ensures spoilt { IfSome (D.seen disk) (λ both. (d : Damage) → IsDamaged both d → MatchResult result (λ _. ⊥) (λ e. TellsDamage (λ x. x ≡ d) e.0)) }
    ensures cause { MatchResult result (λ f. D.faults (disk_of f.keeper) ≡ D.faults disk) (λ e. FaultOf (D.faults disk) (D.faults e.1) e.0) }
    ensures seen { MatchResult result (λ f. D.seen (disk_of f.keeper) ≡ D.seen disk) (λ e. D.seen e.1 ≡ D.seen disk) }
    ensures any_moment { MatchResult result (λ f. LeavesOnly D.moment D.left_since D.may_leave disk (disk_of f.keeper) (D.may_leave disk)) (λ e. LeavesOnly D.moment D.left_since D.may_leave disk e.1 (D.may_leave disk)) }
{
    match Store::open(alloc, disk) {
        Ok((store, durable)) => over(alloc, store, durable, builders, participants),
        Err((fault, disk)) => Err((fault, disk, builders, participants)),
    }
}

/// Opens a workspace over a store that was just opened to this state.
fn over<D: Disk, B: Builder, P: Participant>(
    alloc: Global,
    store: Store<D>,
    durable: Durable,
    builders: Builders<B>,
    participants: Participants<P>,
) -> Result<Fresh<D, B, P>, (OpenFault, D, Builders<B>, Participants<P>)>
    requires valid { Valid (saved durable) }
    requires last { store.last ≡ durable }
    requires stored { IsStored D.may_leave [] store }
    ensures keeper { IfOk result (λ f. f.keeper ≡ record { began = store; store = store; failed = false }) }
    ensures opened { IfOk result (λ f. f.core.opened ≡ opened_of (saved f.keeper.began.last) (map (λ b. b.named) (map (λ b. B.tells b) builders))) }
    ensures first { IfOk result (λ f. f.core.opened.manager ≡ first_manager) }
    ensures state { IfOk result (λ f. f.core.state ≡ f.core.opened) }
    ensures history { IfOk result (λ f. f.core.history ≡ []) }
    ensures kept { IfOk result (λ f. IsKept D.moment D.left_since D.may_leave D.faults f.core f.keeper) }
    ensures builders { MatchResult result (λ f. f.builders ≡ builders) (λ e. e.2 ≡ builders) }
    ensures participants { IfOk result (λ f. WereRestored (kept_since f.core.opened) (map (λ p. P.tells p) participants) (map (λ p. P.tells p) f.participants)) }
    ensures restored { IfOk result (λ f. f.restored.items ≡ restored_of (kept_since f.core.opened) (map (λ p. P.tells p) participants)) }
    ensures wanted { IfErr result (λ e. (e.0 ≡ Memory) × (e.1 ≡ store.areas.disk)) }
    ensures stopped { IfErr result (λ e. (e.3 ≡ participants) ⊎ HasStoppedRestoring (kept_since (opened_of (saved store.last) (map (λ b. b.named) (map (λ b. B.tells b) builders)))) (map (λ p. P.tells p) participants) (map (λ p. P.tells p) e.3)) }
{
    match workspace(alloc, durable, &builders) {
        Ok(opened) => begun(alloc, store, opened, builders, participants),
        Err(_) => Err((OpenFault::Memory, store.into_disk(), builders, participants)),
    }
}

/// Participants get back what they kept in the workspace that was opened over the store.
fn begun<D: Disk, B: Builder, P: Participant>(
    alloc: Global,
    store: Store<D>,
    opened: Opened,
    builders: Builders<B>,
    participants: Participants<P>,
) -> Result<Fresh<D, B, P>, (OpenFault, D, Builders<B>, Participants<P>)>
    requires opened { opened.core.opened ≡ opened_of (saved store.last) (map (λ b. b.named) (map (λ b. B.tells b) builders)) }
    requires state { opened.core.state ≡ opened.core.opened }
    requires history { opened.core.history ≡ [] }
    requires states { opened.states.items ≡ kept_since opened.core.opened }
    requires stored { IsStored D.may_leave [] store }
    ensures keeper { IfOk result (λ f. f.keeper ≡ record { began = store; store = store; failed = false }) }
    ensures opened { IfOk result (λ f. f.core.opened ≡ opened_of (saved f.keeper.began.last) (map (λ b. b.named) (map (λ b. B.tells b) builders))) }
    ensures first { IfOk result (λ f. f.core.opened.manager ≡ first_manager) }
    ensures state { IfOk result (λ f. f.core.state ≡ f.core.opened) }
    ensures history { IfOk result (λ f. f.core.history ≡ []) }
    ensures kept { IfOk result (λ f. IsKept D.moment D.left_since D.may_leave D.faults f.core f.keeper) }
    ensures builders { MatchResult result (λ f. f.builders ≡ builders) (λ e. e.2 ≡ builders) }
    ensures participants { IfOk result (λ f. WereRestored (kept_since f.core.opened) (map (λ p. P.tells p) participants) (map (λ p. P.tells p) f.participants)) }
    ensures restored { IfOk result (λ f. f.restored.items ≡ restored_of (kept_since f.core.opened) (map (λ p. P.tells p) participants)) }
    ensures wanted { IfErr result (λ e. (e.0 ≡ Memory) × (e.1 ≡ store.areas.disk)) }
    ensures stopped { IfErr result (λ e. (e.3 ≡ participants) ⊎ HasStoppedRestoring (kept_since (opened_of (saved store.last) (map (λ b. b.named) (map (λ b. B.tells b) builders)))) (map (λ p. P.tells p) participants) (map (λ p. P.tells p) e.3)) }
{
    let Opened {
        core,
        kept: _,
        states,
    } = opened;
    let mut participants = participants;
    match give_back(alloc, &mut participants, states.as_slice()) {
        Ok(restored) => Ok(Fresh {
            core,
            keeper: Keeper::of(store),
            builders,
            participants,
            restored,
        }),
        Err(_) => {
            drop(core);
            Err((OpenFault::Memory, store.into_disk(), builders, participants))
        }
    }
}
