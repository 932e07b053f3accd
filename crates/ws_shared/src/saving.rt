//! A save of a pass, beside what other passes do.
ghost use Rattle.std.specs.Prelude.{◌≡◌, true, false, List, map, None, Some};
ghost use Rattle.std.specs.Option.{ForSome};
ghost use Rattle.core_event.specs.declared.entry.Entry.{Entry};
ghost use Rattle.ws_durable.specs.Saved.{saved};
ghost use Rattle.save_format.specs.Valid.{Valid};
ghost use Rattle.save_store.specs.Stored.{IsNarrow};
ghost use Rattle.ws_core.specs.Sessions.{Session};
ghost use Rattle.save_history.specs.Points.{IsAsked};
ghost use Rattle.save_history.specs.Kept.{IsKept, IsTried, points_at};
ghost use Rattle.ws_core.specs.States.{Moment};
ghost use Rattle.ws_core.specs.Histories.{Legal, replay};
ghost use Rattle.save_history.specs.Stages.{IsUnderWay};
ghost use Rattle.ws_turn.specs.Lists.{StartsWith, of};
ghost use Rattle.pass_turns.specs.Turns.{Knows, TookTurn};
ghost use Rattle.ws_locked.specs.Moved.{WereKept};
ghost use Rattle.ws_shared.specs.Calls.{pass_of};
ghost use Rattle.ws_shared.specs.Inside.Hosts.{IsAt, IsThrough};

use crate::workspace::{Pass, Workspace};
use crate::{NoMemory, Services, Vow};
use builder_api::Builder;
use core_event::{Outcomes, Purpose};
use save_host::Keeper;
use save_kind::{PartStates, SaveAnswer, SaveKind};
use save_round::{Participant, Participants};
use save_run::{Host, WriteFault, save_begun};
use std::alloc::{AllocError, Global};
use std::snapshot::Snapshot;
use std::sync::Wait;
use ws_durable::Durable;
use ws_locked::Keep;
use ws_outside::Disk;

/// A write of a save, with its result.
#[derive(Clone, Copy, Debug, PartialEq, Eq)]
pub struct Try {
    pub kind: SaveKind,
    pub result: Result<(), WriteFault>,
}

/// A pass that has the services for a save, and may keep states in it in a turn of its own.
trait Keeps {
    // where it is a pass
    type Room;

    ghost is_of: { Self.Room → Self → Type 0 };

    // what contracts see of it
    ghost knows: { Self → Knows Entry };

    // the state that was opened there
    ghost opened: { Self.Room → Moment };

    /// In its next turn the states are kept, and this is what lasts over the save of what is there then, unless memory wants
    /// for that.
    fn keep<R: Wait>(
        &mut self,
        rt: &R,
        room: &Self::Room,
        alloc: Global,
        states: PartStates,
    ) -> Result<Option<Durable>, NoMemory>
        requires of { is_of room.now self.old }
        requires under_way { (h : List Entry) → StartsWith h (knows self.old).seen → of pass_of (knows self.old).number h ≡ (knows self.old).mine → Legal (opened room.now) h → IsUnderWay (knows self.old).number false (replay (opened room.now) h) }
        ensures of { is_of room.now self.new }
        ensures kept { TookTurn pass_of Legal (λ s n. WereKept states s n) (opened room.now) result (knows self.old) (knows self.new) };
}

impl<D: Disk, B: Builder, P: Participant, V: Vow> Keeps for Pass<D, B, P, V> {
    ghost use Rattle.pass_turns.specs.Turns.{knows};
    ghost use Rattle.ws_locked.specs.Halls.{state_in};
    ghost use Rattle.ws_shared.specs.Calls.{IsOf, opening_of};

    type Room = Workspace<D, B, P, V>;

    ghost is_of = { λ w p. IsOf w p };

    ghost knows = { λ p. knows p };

    ghost opened = { λ w. state_in (opening_of w) };

    fn keep<R: Wait>(
        &mut self,
        rt: &R,
        room: &Workspace<D, B, P, V>,
        alloc: Global,
        states: PartStates,
    ) -> Result<Option<Durable>, NoMemory> {
        let mut deed = Keep {
            states: Some(states),
        };
        let answer = room.room.turn(rt, alloc, self, &mut deed);
        drop(deed);
        answer
    }
}

/// A pass as the host of a save that it began, where other passes go on.
struct SharedHost<'a, R: Wait, D: Disk, T: Keeps> {
    rt: &'a R,
    room: &'a T::Room,
    alloc: Global,
    pass: &'a mut T,
    keeper: &'a mut Keeper<D>,
    /// The pass as it was when the save had begun.
    began: &'a mut Snapshot<T>,
    kind: SaveKind,
    /// Whether it is noted that the save began.
    noted: bool,
    /// The states, once they are kept.
    kept: &'a mut Option<Snapshot<PartStates>>,
    /// What is to be written, where memory didn't want for it.
    now: &'a mut Option<Durable>,
    /// The write, once it was tried.
    written: Option<Try>,
    /// How the save is to end, once that is known.
    ended: &'a mut Option<SaveAnswer>,
}

impl<'a, R: Wait, D: Disk, T: Keeps> Host for SharedHost<'a, R, D, T> {
    ghost use Rattle.std.specs.Prelude.{◌≡◌, refl};
    ghost use Rattle.std.specs.Option.{option_map};
    ghost use Rattle.std.proofs.Common.{◌∙◌};
    ghost use Rattle.ws_shared.specs.Inside.Hosts.{IsAt, IsFresh, book_of};

    ghost book = { λ h. book_of h.noted h.kind (option_map (λ s. s.value) h.kept.now) h.written h.ended.now };

    ghost ready = { λ h. T.is_of h.room.now h.pass.now × IsAt D.moment D.left_since D.may_leave D.faults (T.opened h.room.now)
        (T.knows h.began.now.value) (T.knows h.pass.now) h.keeper.now h.kind (option_map (λ s. s.value) h.kept.now) h.now.now h.written h.ended.now × IsFresh h.noted (option_map (λ s. s.value) h.kept.now) h.written h.ended.now };

    ghost stays = { λ a b. (b.pass.ghost_name ≡ a.pass.ghost_name) × (b.keeper.ghost_name ≡ a.keeper.ghost_name) × (b.began.now ≡ a.began.now) × (b.room.now ≡ a.room.now) × (b.kind ≡ a.kind) × (b.keeper.now.began ≡ a.keeper.now.began)
        × (b.ended.ghost_name ≡ a.ended.ghost_name)
        × (T.is_of a.room.now a.pass.now × IsAt D.moment D.left_since D.may_leave D.faults (T.opened a.room.now)
        (T.knows a.began.now.value) (T.knows a.pass.now) a.keeper.now a.kind (option_map (λ s. s.value) a.kept.now) a.now.now a.written a.ended.now × IsFresh a.noted (option_map (λ s. s.value) a.kept.now) a.written a.ended.now
        → T.is_of b.room.now b.pass.now × IsAt D.moment D.left_since D.may_leave D.faults (T.opened b.room.now)
        (T.knows b.began.now.value) (T.knows b.pass.now) b.keeper.now b.kind (option_map (λ s. s.value) b.kept.now) b.now.now b.written b.ended.now × IsFresh b.noted (option_map (λ s. s.value) b.kept.now) b.written b.ended.now) };

    ghost stays_itself = { λ a. (refl, refl, refl, refl, refl, refl, refl, λ h. h) };

    ghost stays_on = { λ a b c p q. (q.0 ∙ p.0, q.1 ∙ p.1, q.2 ∙ p.2, q.3 ∙ p.3, q.4 ∙ p.4, q.5 ∙ p.5, q.6 ∙ p.6, λ h. q.7 (p.7 h)) };

    ghost stays_ready = { λ a b p h. p.7 h };

    fn start(&mut self, kind: SaveKind) -> Result<Option<u8>, NoMemory> {
        // It began where the services were taken for it; a save of another kind can't begin here.
        if kind != self.kind {
            return Err(AllocError);
        }
        self.noted = true;
        Ok(None)
    }

    fn keep(&mut self, states: PartStates) -> Result<(), NoMemory> {
        let kept = Snapshot::of(&states);
        match self.pass.keep(self.rt, self.room, self.alloc, states) {
            Ok(now) => {
                *self.now = now;
                *self.kept = Some(kept);
                Ok(())
            }
            Err(error) => Err(error),
        }
    }

    fn write(&mut self, kind: SaveKind) -> Result<(), WriteFault> {
        let result = write(self.keeper, self.alloc, kind, self.now);
        self.written = Some(Try { kind, result });
        result
    }

    fn finish(&mut self, answer: SaveAnswer) {
        *self.ended = Some(answer);
    }
}

/// Writes what is to be written as a save of the kind; where that isn't there, memory wanted for it.
fn write<D: Disk>(
    keeper: &mut Keeper<D>,
    alloc: Global,
    kind: SaveKind,
    now: &Option<Durable>,
) -> Result<(), WriteFault>
    requires valid { ForSome now.now (λ d. IsNarrow d → Valid (saved d)) }
    ensures began { keeper.new.began ≡ keeper.old.began }
    ensures tried { (x : Session) → ForSome now.now (λ d. IsAsked (points_at x keeper.old) (saved d)) → IsKept D.moment D.left_since D.may_leave D.faults x keeper.old
        → IsTried D.moment D.left_since D.may_leave D.faults result x keeper.new }
{
    match now {
        Some(now) => keeper.write(alloc, kind, now),
        None => Err(WriteFault::Memory),
    }
}

/// Goes on with the save of the host, which has done nothing for it but begin it.
fn made<'a, R: Wait, D: Disk, T: Keeps, P: Participant>(
    alloc: Global,
    host: &mut SharedHost<'a, R, D, T>,
    parts: &mut Participants<P>,
) -> SaveAnswer
    requires of { T.is_of host.old.room.now host.old.pass.now }
    requires at { IsAt D.moment D.left_since D.may_leave D.faults (T.opened host.old.room.now) (T.knows host.old.began.now.value) (T.knows host.old.pass.now) host.old.keeper.now host.old.kind None None None None }
    requires noted { host.old.noted ≡ true }
    requires kept { host.old.kept.now ≡ None }
    requires now { host.old.now.now ≡ None }
    requires written { host.old.written ≡ None }
    requires ended { host.old.ended.now ≡ None }
    ensures same_pass { host.new.pass.ghost_name ≡ host.old.pass.ghost_name }
    ensures same_keeper { host.new.keeper.ghost_name ≡ host.old.keeper.ghost_name }
    ensures began { host.new.keeper.now.began ≡ host.old.keeper.now.began }
    ensures of { T.is_of host.old.room.now host.new.pass.now }
    ensures through { IsThrough D.moment D.left_since D.may_leave D.faults (T.opened host.old.room.now) (T.knows host.old.began.now.value) (T.knows host.new.pass.now) host.new.keeper.now host.old.kind result
        (map (λ p. P.tells p) parts.old) (map (λ p. P.tells p) parts.new) }
    ensures same_answer { host.new.ended.ghost_name ≡ host.old.ended.ghost_name }
    ensures answer { host.new.ended.now ≡ Some result }
{
    let kind = host.kind;
    save_begun(alloc, host, parts, kind)
}

impl<D: Disk, B: Builder, P: Participant, V: Vow> Workspace<D, B, P, V> {
    ghost use Rattle.std.specs.Prelude.{◌≡◌, [], map, None, Some, IfErr, IfOk};
    ghost use Rattle.pass_turns.specs.Turns.{knows};
    ghost use Rattle.ws_locked.specs.Halls.{opened_by, state_in, told_by, trio_of};
    ghost use Rattle.ws_locked.specs.Fits.{Fits};
    ghost use Rattle.ws_shared.specs.Calls.{IsOf, opening_of};
    ghost use Rattle.ws_shared.specs.Saves.{WasSaved};
    ghost use Rattle.ws_shared.specs.Inside.Hosts.{HasBegun, HasEndedSo};

    /// The pass makes a save of the kind, of the whole workspace or of what changed since the last one (`IWorkspace.save`),
    /// once no other pass has the services. Other passes go on meanwhile: what is written is what lasts of the workspace at
    /// the entry by which the participants' states are kept, and it is written while no pass waits for it. Answers how the save
    /// ended, as `save` of save_run does; `NoMemory` where memory wants before it began. SaveTooLarge comes only where each
    /// image of what is to be written passes 1,073,741,824 bytes with its header and its gate, and SaveNumbers only where the
    /// save number that was the greatest as the workspace was opened and one for each save since then that kept states pass
    /// 2^63 - 1. A pass that has the services itself waits for ever.
    pub fn save<R: Wait>(
        &self,
        rt: &R,
        alloc: Global,
        pass: &mut Pass<D, B, P, V>,
        kind: SaveKind,
    ) -> Result<SaveAnswer, NoMemory>
        requires { IsOf self.now pass.old }
        ensures of { IsOf self.now pass.new }
        ensures saved { WasSaved kind (opening_of self.now) result (knows pass.old) (knows pass.new) }
    {
        let (_, services) = self.checkout(rt, alloc, pass, Purpose::Save(kind))?;
        match services {
            Some(services) => Ok(self.save_with(rt, alloc, pass, services, kind)),
            None => unreachable!(),
        }
    }

    /// The pass makes the save for which it took the services, and gives them back.
    fn save_with<R: Wait>(
        &self,
        rt: &R,
        alloc: Global,
        pass: &mut Pass<D, B, P, V>,
        services: Services<D, B, P>,
        kind: SaveKind,
    ) -> SaveAnswer
        requires of { IsOf self.now pass.old }
        requires begun { HasBegun kind (opening_of self.now) (knows pass.old) }
        requires fits { let o = opening_of self.now in Fits D.moment D.left_since D.may_leave D.faults V.fits (opened_by B.tells P.tells o) o.keeper.value (knows pass.old).seen (told_by B.tells P.tells (trio_of services)) }
        ensures of { IsOf self.now pass.new }
        ensures ended { HasEndedSo kind (opening_of self.now) result (knows pass.old) (knows pass.new) }
    {
        let Services {
            mut keeper,
            builders,
            mut participants,
        } = services;
        let (answer, outcome) = self.hosted(rt, alloc, pass, &mut keeper, &mut participants, kind);
        let services = Services {
            keeper,
            builders,
            participants,
        };
        match self.check_in(rt, alloc, pass, services, Outcomes::Save(outcome)) {
            Ok(_) => answer,
            Err(_) => unreachable!(),
        }
    }

    /// The pass goes on with the save that it began, over what it is lent. Answers twice how it is to end.
    fn hosted<R: Wait>(
        &self,
        rt: &R,
        alloc: Global,
        pass: &mut Pass<D, B, P, V>,
        keeper: &mut Keeper<D>,
        parts: &mut Participants<P>,
        kind: SaveKind,
    ) -> (SaveAnswer, SaveAnswer)
        requires of { IsOf self.now pass.old }
        requires at { IsAt D.moment D.left_since D.may_leave D.faults (state_in (opening_of self.now)) (knows pass.old) (knows pass.old) keeper.old kind None None None None }
        ensures of { IsOf self.now pass.new }
        ensures began { keeper.new.began ≡ keeper.old.began }
        ensures same { result.1 ≡ result.0 }
        ensures through { IsThrough D.moment D.left_since D.may_leave D.faults (state_in (opening_of self.now)) (knows pass.old) (knows pass.new) keeper.new kind result.0
            (map (λ p. P.tells p) parts.old) (map (λ p. P.tells p) parts.new) }
    {
        let mut began = Snapshot::of(&*pass);
        let mut kept = None;
        let mut now = None;
        let mut ended = None;
        let mut host = SharedHost {
            rt,
            room: self,
            alloc,
            pass,
            keeper,
            began: &mut began,
            kind,
            noted: true,
            kept: &mut kept,
            now: &mut now,
            written: None,
            ended: &mut ended,
        };
        let answer = made(alloc, &mut host, parts);
        let SharedHost {
            rt: _,
            room: _,
            alloc: _,
            pass: _,
            keeper: _,
            began: _,
            kind: _,
            noted: _,
            kept: _,
            now: _,
            written: _,
            ended: _,
        } = host;
        drop(kept);
        drop(now);
        match ended {
            Some(outcome) => (answer, outcome),
            None => unreachable!(),
        }
    }
}
