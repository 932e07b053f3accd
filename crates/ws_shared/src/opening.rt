//! A workspace is opened over what a disk's two areas hold.
ghost use Rattle.std.specs.Prelude.{◌≡◌, ◌⊎◌, [], List, map, IfErr, IfOk, IfSome, MatchResult};
ghost use Rattle.ws_outside.specs.Disk.{LeavesOnly};
ghost use Rattle.disk_area.specs.declared.damage.Damage.{Damage};
ghost use Rattle.ws_durable.specs.Saved.{Saved, saved};
ghost use Rattle.save_format.specs.Valid.{Valid};
ghost use Rattle.save_round.specs.Restoring.{WereRestored};
ghost use Rattle.save_store.specs.Damages.{FaultOf, IsDamaged, IsUndamaged, TellsDamage};
ghost use Rattle.save_store.specs.States.{Holds};
ghost use Rattle.save_history.specs.Kept.{IsKept, disk_of};
ghost use Rattle.job_manager.specs.Managers.{first_manager};
ghost use Rattle.ws_core.specs.Durables.{kept_since};
ghost use Rattle.ws_core.specs.Opened.{opened_of};
ghost use Rattle.ws_core.specs.Sessions.{IsConsistent};
ghost use Rattle.pass_turns.specs.Turns.{knows};
ghost use Rattle.ws_opening.specs.Restored.{restored_of};
ghost use Rattle.ws_locked.specs.Halls.{state_in};
ghost use Rattle.ws_locked.specs.Opened.{Opened};
ghost use Rattle.ws_shared.specs.Calls.{IsOf, opening_of};
ghost use Rattle.ws_shared.specs.Opening.{HaveGot};

use crate::workspace::{Pass, Workspace};
use crate::{Services, Vow};
use builder_api::{Builder, Builders};
use save_round::{Participant, Participants};
use save_store::OpenFault;
use std::alloc::Global;
use ws_opening::{Fresh, Restored, open};
use ws_outside::Disk;

/// A workspace over one that was just opened, with its first pass, and what participants got back. Where memory wants all is
/// handed back.
fn over<D: Disk, B: Builder, P: Participant, V: Vow>(
    alloc: Global,
    fresh: Fresh<D, B, P>,
) -> Result<
    (Workspace<D, B, P, V>, Pass<D, B, P, V>, Vec<Restored>),
    (OpenFault, D, Builders<B>, Participants<P>),
>
    requires history { fresh.core.history ≡ [] }
    requires first { fresh.core.opened.manager ≡ first_manager }
    requires kept { IsKept D.moment D.left_since D.may_leave D.faults fresh.core fresh.keeper }
    requires vowed { (o : Opened) → o.builders ≡ map (λ b. B.tells b) fresh.builders → V.fits o (map (λ b. B.tells b) fresh.builders) [] }
    ensures of { IfOk result (λ r. IsOf r.0 r.1) }
    ensures pass { IfOk result (λ r. knows r.1 ≡ record { number = 0; seen = []; mine = []; lost = [] }) }
    ensures opening { IfOk result (λ r. let o = opening_of r.0 in (o.core.value ≡ fresh.core) × (o.keeper.value ≡ fresh.keeper) × (o.builders.value ≡ fresh.builders) × (o.participants.value ≡ fresh.participants)) }
    ensures sound { IfOk result (λ r. IsConsistent (state_in (opening_of r.0))) }
    ensures first { IfOk result (λ r. (state_in (opening_of r.0)).manager ≡ first_manager) }
    ensures restored { IfOk result (λ r. r.2 ≡ fresh.restored) }
    ensures err { IfErr result (λ e. (e.0 ≡ OpenFault.Memory) × (e.1 ≡ disk_of fresh.keeper) × (e.2 ≡ fresh.builders) × (e.3 ≡ fresh.participants)) }
{
    let _ = fresh.core.state();
    let Fresh {
        core,
        keeper,
        builders,
        participants,
        restored,
    } = fresh;
    let services = Services {
        keeper,
        builders,
        participants,
    };
    match Workspace::of(alloc, core, services) {
        Ok((workspace, pass)) => Ok((workspace, pass, restored)),
        Err((_, core, services)) => {
            drop(core);
            drop(restored);
            let Services {
                keeper,
                builders,
                participants,
            } = services;
            Err((
                OpenFault::Memory,
                keeper.into_disk(),
                builders,
                participants,
            ))
        }
    }
}

impl<D: Disk, B: Builder, P: Participant, V: Vow> Workspace<D, B, P, V> {
    /// The workspace that the two areas of the disk hold, with these builders, its first pass, which has the number 0, and what
    /// participants got back (`ISavedState`): the first one of each name under which something is kept got that. The state that
    /// is opened is consistent, no job is there, and pass 0 alone has entered.
    ///
    /// Refused with Disk where the disk's count of faults rose, with the first damage of the areas, and with Memory; then all
    /// is handed back. The areas hold what they held, and a crash leaves of them what it could have left before. Participants
    /// are as they were, but where memory wanted once they got what they kept: then those before the one that wanted, or all,
    /// have got it.
    pub fn open(
        alloc: Global,
        disk: D,
        builders: Builders<B>,
        participants: Participants<P>,
    ) -> Result<
        (Workspace<D, B, P, V>, Pass<D, B, P, V>, Vec<Restored>),
        (OpenFault, D, Builders<B>, Participants<P>),
    >
        requires vowed { (o : Opened) → o.builders ≡ map (λ b. B.tells b) builders → V.fits o (map (λ b. B.tells b) builders) [] }
        ensures of { IfOk result (λ r. IsOf r.0 r.1) }
        ensures pass { IfOk result (λ r. knows r.1 ≡ record { number = 0; seen = []; mine = []; lost = [] }) }
        ensures held { IfOk result (λ r. IfSome (D.seen disk) (λ both. Holds both (saved (opening_of r.0).keeper.value.began.last))) }
        ensures only { IfSome (D.seen disk) (λ both. (d : Saved) → Holds both d → MatchResult result (λ r. d ≡ saved (opening_of r.0).keeper.value.began.last) (λ e. IsUndamaged e.0)) }
        ensures valid { IfOk result (λ r. Valid (saved (opening_of r.0).keeper.value.began.last)) }
        ensures opened { IfOk result (λ r. state_in (opening_of r.0) ≡ opened_of (saved (opening_of r.0).keeper.value.began.last) (map (λ b. b.named) (map (λ b. B.tells b) builders))) }
        ensures sound { IfOk result (λ r. IsConsistent (state_in (opening_of r.0))) }
        ensures first { IfOk result (λ r. (state_in (opening_of r.0)).manager ≡ first_manager) }
        ensures builders { MatchResult result (λ r. (opening_of r.0).builders.value ≡ builders) (λ e. e.2 ≡ builders) }
        ensures participants { IfOk result (λ r. WereRestored (kept_since (state_in (opening_of r.0))) (map (λ p. P.tells p) participants) (map (λ p. P.tells p) (opening_of r.0).participants.value)) }
        ensures restored { IfOk result (λ r. r.2.items ≡ restored_of (kept_since (state_in (opening_of r.0))) (map (λ p. P.tells p) participants)) }
        ensures stopped { IfErr result (λ e. (e.3 ≡ participants) ⊎ HaveGot (D.seen disk) (map (λ b. b.named) (map (λ b. B.tells b) builders)) e.0 (map (λ p. P.tells p) participants) (map (λ p. P.tells p) e.3)) }
        ensures damaged { IfErr result (λ e. IfSome (D.seen disk) (λ both. TellsDamage (IsDamaged both) e.0)) }
        ensures spoilt { IfSome (D.seen disk) (λ both. (d : Damage) → IsDamaged both d → MatchResult result (λ _. ⊥) (λ e. TellsDamage (λ x. x ≡ d) e.0)) }
        ensures cause { MatchResult result (λ r. D.faults (disk_of (opening_of r.0).keeper.value) ≡ D.faults disk) (λ e. FaultOf (D.faults disk) (D.faults e.1) e.0) }
        ensures seen { MatchResult result (λ r. D.seen (disk_of (opening_of r.0).keeper.value) ≡ D.seen disk) (λ e. D.seen e.1 ≡ D.seen disk) }
        ensures any_moment { MatchResult result (λ r. LeavesOnly D.moment D.left_since D.may_leave disk (disk_of (opening_of r.0).keeper.value) (D.may_leave disk)) (λ e. LeavesOnly D.moment D.left_since D.may_leave disk e.1 (D.may_leave disk)) }
    {
        match open(alloc, disk, builders, participants) {
            Ok(fresh) => over(alloc, fresh),
            Err(refused) => Err(refused),
        }
    }
}
