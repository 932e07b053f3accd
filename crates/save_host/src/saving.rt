//! A save command.
ghost use Rattle.std.specs.Prelude.{◌≡◌, [], true, List, map, None, IfOk, OnErr};
ghost use Rattle.save_round.specs.Told.{Told};
ghost use Rattle.ws_core.specs.Histories.{has_entered};
ghost use Rattle.save_history.specs.Rounds.{HadSaves, rounds_of};
ghost use Rattle.save_history.specs.Causes.{MayBeAnswered};
ghost use Rattle.save_history.specs.Kept.{IsKept, points_at};
ghost use Rattle.save_history.specs.Stages.{HasSaved};
ghost use Rattle.save_host.specs.Inside.Answers.{Answers, IsUnanswered};
ghost use Rattle.save_host.specs.Inside.Hosts.{IsReady, book_of};

use crate::NoMemory;
use crate::host::SaveHost;
use crate::keeper::Keeper;
use elem_tree::LayerTree;
use save_kind::SaveKind;
use save_round::{Participant, Participants};
use save_run::{Saved, save as save_over};
use std::alloc::Global;
use std::snapshot::Snapshot;
use ws_core::Core;
use ws_outside::Disk;

/// The pass makes a save as a host that has done nothing for it.
fn made<'a, D: Disk, P: Participant>(
    alloc: Global,
    host: &mut SaveHost<'a, D>,
    parts: &mut Participants<P>,
    kind: SaveKind,
) -> Result<Saved, NoMemory>
    requires ready { IsReady D.moment D.left_since D.may_leave D.faults host.old.pass host.old.began.now.value host.old.core.now host.old.keeper.now host.old.written }
    requires fresh { book_of host.old.began.now.value host.old.core.now host.old.written ≡ [] }
    ensures same_core { host.new.core.ghost_name ≡ host.old.core.ghost_name }
    ensures same_keeper { host.new.keeper.ghost_name ≡ host.old.keeper.ghost_name }
    ensures began { host.new.keeper.now.began ≡ host.old.keeper.now.began }
    ensures answered { IfOk result (λ saved. Answers D.moment D.left_since D.may_leave D.faults host.old.pass kind saved host.old.began.now.value host.new.core.now host.new.keeper.now
        (map (λ p. P.tells p) parts.old) (map (λ p. P.tells p) parts.new)) }
    ensures unanswered { OnErr result (IsUnanswered D.moment D.left_since D.may_leave D.faults host.old.began.now.value host.new.core.now host.new.keeper.now
        (map (λ p. P.tells p) parts.old) (map (λ p. P.tells p) parts.new)) }
{
    save_over(alloc, host, parts, kind)
}

/// The pass makes a save over what it is lent.
fn hosted<D: Disk, P: Participant>(
    alloc: Global,
    core: &mut Core<LayerTree>,
    keeper: &mut Keeper<D>,
    parts: &mut Participants<P>,
    pass: u64,
    kind: SaveKind,
) -> Result<Saved, NoMemory>
    requires entered { has_entered pass core.old.state ≡ true }
    requires kept { IsKept D.moment D.left_since D.may_leave D.faults core.old keeper.old }
    ensures began { keeper.new.began ≡ keeper.old.began }
    ensures answered { IfOk result (λ saved. Answers D.moment D.left_since D.may_leave D.faults pass kind saved core.old core.new keeper.new
        (map (λ p. P.tells p) parts.old) (map (λ p. P.tells p) parts.new)) }
    ensures unanswered { OnErr result (IsUnanswered D.moment D.left_since D.may_leave D.faults core.old core.new keeper.new
        (map (λ p. P.tells p) parts.old) (map (λ p. P.tells p) parts.new)) }
{
    let mut began = Snapshot::of(&*core);
    let mut host = SaveHost {
        core,
        keeper,
        alloc,
        pass,
        began: &mut began,
        written: None,
    };
    let answer = made(alloc, &mut host, parts, kind);
    let SaveHost {
        core: _,
        keeper: _,
        alloc: _,
        pass: _,
        began: _,
        written: _,
    } = host;
    answer
}

/// A pass makes a save of the kind, of the whole workspace or of what changed since the last one (`IWorkspace.save`). Answers
/// as `save` of save_run does. SaveTooLarge comes only where each image of what is to be written passes 1,073,741,824 bytes
/// with its header and its gate, and SaveNumbers only where the save number that was the greatest as the store was opened and
/// one for each save that was begun since pass 2^63 - 1.
///
/// At every moment each crash image of the areas holds a point of the history, and after it the point of the save that was
/// acknowledged last or of one that was begun after it.
pub fn save<D: Disk, P: Participant>(
    alloc: Global,
    core: &mut Core<LayerTree>,
    keeper: &mut Keeper<D>,
    parts: &mut Participants<P>,
    pass: u64,
    kind: SaveKind,
) -> Result<Saved, NoMemory>
    requires entered { has_entered pass core.old.state ≡ true }
    requires home { (rounds_of core.old.history).under ≡ None }
    requires kept { IsKept D.moment D.left_since D.may_leave D.faults core.old keeper.old }
    // the history grew by the entries of a save that was answered so, and all else is as before
    ensures saved { IfOk result (λ saved. HasSaved pass kind saved core.old core.new) }
    ensures same { OnErr result (core.new ≡ core.old) }
    ensures entered { has_entered pass core.new.state ≡ true }
    ensures home { (rounds_of core.new.history).under ≡ None }
    // it ended as too large, or for want of a number, only where that is so
    ensures reason { IfOk result (λ saved. MayBeAnswered saved (points_at core.new keeper.new) keeper.new.began.areas.top) }
    // the store is as save_history says, since it was opened
    ensures began { keeper.new.began ≡ keeper.old.began }
    ensures kept { IsKept D.moment D.left_since D.may_leave D.faults core.new keeper.new }
    // participants had the calls of this save, and no others
    ensures had { (first : List Told) → HadSaves (rounds_of core.old.history).ended first (map (λ p. P.tells p) parts.old)
        → HadSaves (rounds_of core.new.history).ended first (map (λ p. P.tells p) parts.new) }
{
    hosted(alloc, core, keeper, parts, pass, kind)
}
