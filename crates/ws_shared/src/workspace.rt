//! A workspace that many threads share.
ghost use Rattle.std.specs.Prelude.{◌≡◌, [], drop, false, is_none, List, map, Some, true, IfErr, IfOk, OnErr, OnOk};
ghost use Rattle.std.specs.List.{AllByRecursion};
ghost use Rattle.core_event.specs.declared.entry.Entry.{Entry};
ghost use Rattle.job_manager.specs.Managers.{first_manager};
ghost use Rattle.ws_core.specs.Histories.{notices};
ghost use Rattle.save_history.specs.Kept.{IsKept};
ghost use Rattle.pass_history.specs.Served.{who_serves};
ghost use Rattle.ws_turn.specs.Lists.{StartsWith, longer};
ghost use Rattle.pass_turns.specs.Turns.{CameTo, EndsWith, knows, Pairs, IsFaithful, LetIn, LetNobodyIn, StaysThere, TookIn, TookTurn};
ghost use Rattle.pass_history.specs.There.{gives, HasLeft, LetsIn, WasBusy};
ghost use Rattle.ws_shared.specs.Jobs.{job_event};
ghost use Rattle.ws_locked.specs.Asked.{HasCounted, WasCommitted, is_plain};

use crate::job::JobEvent;
use crate::{CheckInError, JoinError, Locked, NoMemory, Services, Vow};
use builder_api::{BuildKind, Builder, Edits};
use core_event::{Event, Outcomes, Purpose, Reply, ServiceEvent, WsRule};
use delta_kind::Delta;
use elem_tree::LayerTree;
use op_kind::Op;
use pass_turns::Room;
use res_path::Name;
use save_round::Participant;
use std::alloc::Global;
use std::sync::Wait;
use ws_core::{Core, JobCount};
use ws_locked::{Ask, Await, Commit, Count, Give, Given, Take, Tell, Wish};
use ws_outside::Disk;

/// A thread's token at a workspace. Contracts see its number, the entries that it has seen, those of its own number, and the
/// numbers that it gave in vain.
pub type Pass<D, B, P, V> = pass_turns::Pass<Locked<D, B, P, V>>;

/// What is left of a workspace that was closed.
#[derive(Drop)]
pub struct Closed<D: Disk, B: Builder, P: Participant> {
    pub core: Core<LayerTree>,
    pub services: Services<D, B, P>,
}

/// An open workspace that many threads share, each with a pass.
#[derive(Drop)]
pub struct Workspace<D: Disk, B: Builder, P: Participant, V: Vow> {
    pub(crate) room: Room<Locked<D, B, P, V>>,
}

impl<D: Disk, B: Builder, P: Participant, V: Vow> Workspace<D, B, P, V> {
    ghost use Rattle.ws_shared.specs.Calls.{Asked, IsOf, Stood, legal_from, opening_of, pass_of};
    ghost use Rattle.ws_locked.specs.Fits.{Fits};
    ghost use Rattle.ws_locked.specs.Halls.{opened_by, state_in, told_by, trio_of};
    ghost use Rattle.ws_locked.specs.Moved.{ComesHome, WasAwaited, WasBrought, WasLent};

    /// A workspace that was just opened, in which nothing was done, with its services, and its first pass, which has the number
    /// 0. Where memory wants all is handed back.
    pub fn of(
        alloc: Global,
        core: Core<LayerTree>,
        services: Services<D, B, P>,
    ) -> Result<
        (Workspace<D, B, P, V>, Pass<D, B, P, V>),
        (NoMemory, Core<LayerTree>, Services<D, B, P>),
    >
        requires nothing_done { core.history ≡ [] }
        requires first { core.opened.manager ≡ first_manager }
        requires kept { IsKept D.moment D.left_since D.may_leave D.faults core services.keeper }
        requires vowed { V.fits (record { state = core.opened; builders = map (λ b. B.tells b) services.builders; participants = map (λ p. P.tells p) services.participants }) (map (λ b. B.tells b) services.builders) [] }
        ensures of { IfOk result (λ r. IsOf r.0 r.1) }
        ensures opening { IfOk result (λ r. let o = opening_of r.0 in (o.core.value ≡ core) × (o.keeper.value ≡ services.keeper) × (o.builders.value ≡ services.builders) × (o.participants.value ≡ services.participants)) }
        ensures pass { IfOk result (λ r. knows r.1 ≡ record { number = 0; seen = []; mine = []; lost = [] }) }
        ensures err { IfErr result (λ e. (e.1 ≡ core) × (trio_of e.2 ≡ trio_of services)) }
    {
        match Locked::of(alloc, core, services) {
            Ok(locked) => Workspace::over(alloc, locked),
            Err(refused) => Err(refused),
        }
    }

    /// A workspace over what its lock is to keep, in which nothing was done, with its first pass. Where memory wants what was
    /// to be kept is handed back.
    fn over(
        alloc: Global,
        locked: Locked<D, B, P, V>,
    ) -> Result<
        (Workspace<D, B, P, V>, Pass<D, B, P, V>),
        (NoMemory, Core<LayerTree>, Services<D, B, P>),
    >
        requires nothing_done { locked.core.history ≡ [] }
        requires first { (state_in locked.opening).manager ≡ first_manager }
        ensures of { IfOk result (λ r. IsOf r.0 r.1) }
        ensures opening { IfOk result (λ r. opening_of r.0 ≡ locked.opening) }
        ensures pass { IfOk result (λ r. knows r.1 ≡ record { number = 0; seen = []; mine = []; lost = [] }) }
        ensures err { IfErr result (λ e. (e.1 ≡ locked.core) × (Some (trio_of e.2) ≡ locked.services)) }
    {
        match Room::new(alloc, locked) {
            Ok((room, pass)) => Ok((Workspace { room }, pass)),
            Err((error, locked)) => {
                let (core, services) = locked.into_home();
                Err((error, core, services))
            }
        }
    }

    /// Ends the workspace, where no pass has the services: gives its core, whose history begins with what the pass and each of
    /// the others had seen, and the services, which fit it. Where a pass has the services nothing ends. The others, and the
    /// pass, have seen that history then.
    pub fn close<R: Wait>(
        self,
        rt: &R,
        pass: Pass<D, B, P, V>,
        others: &mut Vec<Pass<D, B, P, V>>,
    ) -> Result<Closed<D, B, P>, (Workspace<D, B, P, V>, Pass<D, B, P, V>)>
        requires of { IsOf self pass }
        requires others { AllByRecursion (λ p. IsOf self p) others.old.items }
        ensures ok { IfOk result (λ w. EndsWith pass_of legal_from (opening_of self) w.core.history (knows pass)) }
        ensures told { IfOk result (λ w. Pairs (λ p q. CameTo pass_of w.core.history (knows p) (knows q)) others.old.items others.new.items) }
        ensures fits { IfOk result (λ w. let o = opening_of self in Fits D.moment D.left_since D.may_leave D.faults V.fits (opened_by B.tells P.tells o) o.keeper.value w.core.history (told_by B.tells P.tells (trio_of w.services))) }
        ensures refused { IfErr result (λ e. (h : List Entry) × legal_from (opening_of self) h × (is_none (who_serves (state_in (opening_of self)) h) ≡ false) × CameTo pass_of h (knows pass) (knows e.1)
            × Pairs (λ p q. IsOf self q × CameTo pass_of h (knows p) (knows q)) others.old.items others.new.items) }
        ensures same { IfErr result (λ e. (e.0 ≡ self) × IsOf e.0 e.1) }
    {
        match self.room.close(rt, pass, others) {
            Ok(locked) => {
                let (core, services) = locked.into_home();
                Ok(Closed { core, services })
            }
            Err((room, pass)) => Err((Workspace { room }, pass)),
        }
    }

    /// Does an event of the pass that enters or leaves nobody and leaves the services where they are, in the pass's next turn.
    fn ask<R: Wait>(
        &self,
        rt: &R,
        alloc: Global,
        pass: &mut Pass<D, B, P, V>,
        event: Event,
    ) -> Result<Reply, NoMemory>
        requires of { IsOf self.now pass.old }
        requires plain { is_plain event ≡ true }
        ensures of { IsOf self.now pass.new }
        ensures asked { Asked (opening_of self.now) event result (knows pass.old) (knows pass.new) }
    {
        let mut deed = Ask { event: Some(event) };
        let answer = self.room.turn(rt, alloc, pass, &mut deed);
        drop(deed);
        answer
    }

    /// The pass is to have the rule until it ends it, and doesn't wait: refused where another pass's rule is in the way.
    pub fn try_begin_rule<R: Wait>(
        &self,
        rt: &R,
        alloc: Global,
        pass: &mut Pass<D, B, P, V>,
        rule: WsRule,
    ) -> Result<Reply, NoMemory>
        requires { IsOf self.now pass.old }
        ensures of { IsOf self.now pass.new }
        ensures asked { Asked (opening_of self.now) (Event.TryBegin rule) result (knows pass.old) (knows pass.new) }
    {
        self.ask(rt, alloc, pass, Event::TryBegin(rule))
    }

    /// The pass gives back the rule that it began last. It never wants memory where it is that one.
    pub fn end_rule<R: Wait>(
        &self,
        rt: &R,
        alloc: Global,
        pass: &mut Pass<D, B, P, V>,
        rule: WsRule,
    ) -> Result<Reply, NoMemory>
        requires { IsOf self.now pass.old }
        ensures of { IsOf self.now pass.new }
        ensures asked { Asked (opening_of self.now) (Event.End rule) result (knows pass.old) (knows pass.new) }
    {
        self.ask(rt, alloc, pass, Event::End(rule))
    }

    /// All rules of the pass are the other's from now on.
    pub fn transfer<R: Wait>(
        &self,
        rt: &R,
        alloc: Global,
        pass: &mut Pass<D, B, P, V>,
        to: u64,
    ) -> Result<Reply, NoMemory>
        requires { IsOf self.now pass.old }
        ensures of { IsOf self.now pass.new }
        ensures asked { Asked (opening_of self.now) (Event.Transfer to) result (knows pass.old) (knows pass.new) }
    {
        self.ask(rt, alloc, pass, Event::Transfer(to))
    }

    /// A batch begins: until it ends nothing is told but at checkpoints.
    pub fn batch<R: Wait>(
        &self,
        rt: &R,
        alloc: Global,
        pass: &mut Pass<D, B, P, V>,
    ) -> Result<Reply, NoMemory>
        requires { IsOf self.now pass.old }
        ensures of { IsOf self.now pass.new }
        ensures asked { Asked (opening_of self.now) Event.Batch result (knows pass.old) (knows pass.new) }
    {
        self.ask(rt, alloc, pass, Event::Batch)
    }

    /// The pass's newest batch ends.
    pub fn end_batch<R: Wait>(
        &self,
        rt: &R,
        alloc: Global,
        pass: &mut Pass<D, B, P, V>,
    ) -> Result<Reply, NoMemory>
        requires { IsOf self.now pass.old }
        ensures of { IsOf self.now pass.new }
        ensures asked { Asked (opening_of self.now) Event.EndBatch result (knows pass.old) (knows pass.new) }
    {
        self.ask(rt, alloc, pass, Event::EndBatch)
    }

    /// What changed is to be told.
    pub fn checkpoint<R: Wait>(
        &self,
        rt: &R,
        alloc: Global,
        pass: &mut Pass<D, B, P, V>,
    ) -> Result<Reply, NoMemory>
        requires { IsOf self.now pass.old }
        ensures of { IsOf self.now pass.new }
        ensures asked { Asked (opening_of self.now) Event.Checkpoint result (knows pass.old) (knows pass.new) }
    {
        self.ask(rt, alloc, pass, Event::Checkpoint)
    }

    /// Does an event of the pass that enters or leaves nobody and leaves the services where they are, in the first of the
    /// pass's turns in which no rule of another pass is in its way. Until then it leaves no entry.
    fn wait_for<R: Wait>(
        &self,
        rt: &R,
        alloc: Global,
        pass: &mut Pass<D, B, P, V>,
        event: Event,
    ) -> Result<Reply, NoMemory>
        requires of { IsOf self.now pass.old }
        requires plain { is_plain event ≡ true }
        ensures of { IsOf self.now pass.new }
        ensures stood { Stood (opening_of self.now) event result (knows pass.old) (knows pass.new) }
    {
        let mut wish = Wish { event };
        let answer = self.room.wait(rt, alloc, pass, &mut wish);
        drop(wish);
        answer
    }

    /// Does an operation, once no rule of another pass is in its way.
    pub fn act<R: Wait>(
        &self,
        rt: &R,
        alloc: Global,
        pass: &mut Pass<D, B, P, V>,
        op: Op,
    ) -> Result<Reply, NoMemory>
        requires { IsOf self.now pass.old }
        ensures of { IsOf self.now pass.new }
        ensures stood { Stood (opening_of self.now) (Event.Operation op) result (knows pass.old) (knows pass.new) }
    {
        self.wait_for(rt, alloc, pass, Event::Operation(op))
    }

    /// The pass is to have the rule until it ends it, once no rule of another pass is in its way.
    pub fn begin_rule<R: Wait>(
        &self,
        rt: &R,
        alloc: Global,
        pass: &mut Pass<D, B, P, V>,
        rule: WsRule,
    ) -> Result<Reply, NoMemory>
        requires { IsOf self.now pass.old }
        ensures of { IsOf self.now pass.new }
        ensures stood { Stood (opening_of self.now) (Event.Begin rule) result (knows pass.old) (knows pass.new) }
    {
        self.wait_for(rt, alloc, pass, Event::Begin(rule))
    }

    /// Does what the pass asks of a job. Where no job is there to take, nothing is written.
    pub fn job<R: Wait>(
        &self,
        rt: &R,
        alloc: Global,
        pass: &mut Pass<D, B, P, V>,
        event: JobEvent,
    ) -> Result<Reply, NoMemory>
        requires { IsOf self.now pass.old }
        ensures of { IsOf self.now pass.new }
        ensures asked { Asked (opening_of self.now) (job_event event) result (knows pass.old) (knows pass.new) }
    {
        let event = event.into_event();
        self.ask(rt, alloc, pass, event)
    }

    /// Lets a new pass in, whose number no pass has had, and which has seen what the pass has seen then. Where memory wants
    /// none is let in, but the entry that gives the number may stand.
    pub fn split<R: Wait>(
        &self,
        rt: &R,
        alloc: Global,
        pass: &mut Pass<D, B, P, V>,
    ) -> Result<Pass<D, B, P, V>, NoMemory>
        requires { IsOf self.now pass.old }
        ensures of { IsOf self.now pass.new × IfOk result (IsOf self.now) }
        ensures ok { IfOk result (λ new. LetIn pass_of gives LetsIn legal_from (opening_of self.now) (knows pass.old) (knows pass.new) (knows new)) }
        ensures err { OnErr result (LetNobodyIn pass_of gives LetsIn legal_from (opening_of self.now) (knows pass.old) (knows pass.new)) }
    {
        self.room.split(rt, alloc, pass)
    }

    /// Takes in another pass, which leaves: the pass has then seen what each of the two had seen. Where the other is busy, or
    /// memory wants, it is handed back, and the pass stays as it was.
    pub fn join<R: Wait>(
        &self,
        rt: &R,
        alloc: Global,
        pass: &mut Pass<D, B, P, V>,
        other: Pass<D, B, P, V>,
    ) -> Result<(), (JoinError, Pass<D, B, P, V>)>
        requires { IsOf self.now pass.old × IsOf self.now other }
        ensures of { IsOf self.now pass.new × IfErr result (λ e. IsOf self.now e.1) }
        ensures ok { OnOk result (TookIn pass_of HasLeft legal_from (opening_of self.now) (knows pass.old) (knows other) (knows pass.new)) }
        ensures same { OnErr result (knows pass.new ≡ knows pass.old) }
        ensures err { IfErr result (λ e. StaysThere pass_of gives WasBusy legal_from (opening_of self.now) e.0 (knows other) (knows e.1)) }
    {
        self.room.join(rt, alloc, pass, other)
    }

    /// The pass has then seen what each of the two had seen; the other stays as it is. It waits for nobody, and takes no
    /// memory.
    pub fn meet(&self, pass: &mut Pass<D, B, P, V>, other: &mut Pass<D, B, P, V>)
        requires { IsOf self.now pass.old × IsOf self.now other.old }
        ensures of { IsOf self.now pass.new × IsOf self.now other.new }
        ensures pass { knows pass.new ≡ record (knows pass.old) { seen = longer (knows pass.old).seen (knows other.old).seen } }
        ensures begins { StartsWith (knows pass.new).seen (knows pass.old).seen × StartsWith (knows pass.new).seen (knows other.old).seen }
        ensures faithful { IsFaithful pass_of (knows pass.new) }
        ensures other { knows other.new ≡ knows other.old }
    {
        self.room.meet(pass, other);
    }

    /// The pass is to have the services for this, and doesn't wait: refused where another pass has them. What it gets fits all
    /// that it has seen then.
    pub fn try_checkout<R: Wait>(
        &self,
        rt: &R,
        alloc: Global,
        pass: &mut Pass<D, B, P, V>,
        why: Purpose,
    ) -> Result<(Reply, Option<Services<D, B, P>>), NoMemory>
        requires { IsOf self.now pass.old }
        ensures of { IsOf self.now pass.new }
        ensures lent { TookTurn pass_of legal_from (λ o n. WasLent (λ h s. Fits D.moment D.left_since D.may_leave D.faults V.fits (opened_by B.tells P.tells o) o.keeper.value h (told_by B.tells P.tells (trio_of s))) (state_in o) n why)
            (opening_of self.now) result (knows pass.old) (knows pass.new) }
    {
        let mut deed = Take { purpose: Some(why) };
        let answer = self.room.turn(rt, alloc, pass, &mut deed);
        drop(deed);
        answer
    }

    /// The pass gives the services back, and tells how it went. They are to fit what it has seen with the entry by which it
    /// gives them back. Where it hasn't them, or not for this, they are handed back, and so they are where memory wants,
    /// which it doesn't where the pass may give them back so.
    pub fn check_in<R: Wait>(
        &self,
        rt: &R,
        alloc: Global,
        pass: &mut Pass<D, B, P, V>,
        services: Services<D, B, P>,
        outcome: Outcomes,
    ) -> Result<Reply, (CheckInError, Services<D, B, P>)>
        requires of { IsOf self.now pass.old }
        requires fits { let o = opening_of self.now in ComesHome (λ h. Fits D.moment D.left_since D.may_leave D.faults V.fits (opened_by B.tells P.tells o) o.keeper.value h (told_by B.tells P.tells (trio_of services))) (knows pass.old).number outcome (knows pass.old).seen }
        ensures of { IsOf self.now pass.new }
        ensures brought { TookTurn pass_of legal_from (λ o n. WasBrought (state_in o) n outcome services) (opening_of self.now) result (knows pass.old) (knows pass.new) }
    {
        let _ = pass.at();
        let mut deed = Give {
            given: Some(Given { services, outcome }),
        };
        let answer = self.room.turn(rt, alloc, pass, &mut deed);
        drop(deed);
        answer
    }

    /// The pass is to have the services for this, once no other pass has them. Until then it leaves no entry. What it gets fits
    /// all that it has seen then. That a pass has them is never why it is refused; one that has them itself waits for ever.
    pub fn checkout<R: Wait>(
        &self,
        rt: &R,
        alloc: Global,
        pass: &mut Pass<D, B, P, V>,
        why: Purpose,
    ) -> Result<(Reply, Option<Services<D, B, P>>), NoMemory>
        requires { IsOf self.now pass.old }
        ensures of { IsOf self.now pass.new }
        ensures lent { TookTurn pass_of legal_from (λ o n. WasAwaited (λ h s. Fits D.moment D.left_since D.may_leave D.faults V.fits (opened_by B.tells P.tells o) o.keeper.value h (told_by B.tells P.tells (trio_of s))) (state_in o) n why)
            (opening_of self.now) result (knows pass.old) (knows pass.new) }
    {
        let mut wish = Await { purpose: why };
        let answer = self.room.wait(rt, alloc, pass, &mut wish);
        drop(wish);
        answer
    }

    /// What is due is handed for the command of this number, from 0, of the project: it stands in the reply's answer. The
    /// command is under way from now on.
    pub fn build_begin<R: Wait>(
        &self,
        rt: &R,
        alloc: Global,
        pass: &mut Pass<D, B, P, V>,
        project: Name,
        index: u16,
        kind: BuildKind,
    ) -> Result<Reply, NoMemory>
        requires { IsOf self.now pass.old }
        ensures of { IsOf self.now pass.new }
        ensures asked { Asked (opening_of self.now) (Event.Service (ServiceEvent.Handed project index kind)) result (knows pass.old) (knows pass.new) }
    {
        self.ask(
            rt,
            alloc,
            pass,
            Event::Service(ServiceEvent::Handed(project, index, kind)),
        )
    }

    /// The edits are made below the output of the command under way, and its problems are told. Where the pass's last entry is
    /// that by which something was handed to it for the command, that is still so: nothing but markers changed since,
    /// whatever other passes did.
    pub fn build_commit<R: Wait>(
        &self,
        rt: &R,
        alloc: Global,
        pass: &mut Pass<D, B, P, V>,
        edits: Edits,
    ) -> Result<Reply, NoMemory>
        requires { IsOf self.now pass.old }
        ensures of { IsOf self.now pass.new }
        ensures committed { TookTurn pass_of legal_from (λ o. WasCommitted edits (state_in o)) (opening_of self.now) result (knows pass.old) (knows pass.new) }
    {
        let mut deed = Commit { edits: Some(edits) };
        let answer = self.room.turn(rt, alloc, pass, &mut deed);
        drop(deed);
        answer
    }

    /// What the command of this number, from 0, of the project has made goes, and what is remembered of it.
    pub fn build_clean<R: Wait>(
        &self,
        rt: &R,
        alloc: Global,
        pass: &mut Pass<D, B, P, V>,
        project: Name,
        index: u16,
    ) -> Result<Reply, NoMemory>
        requires { IsOf self.now pass.old }
        ensures of { IsOf self.now pass.new }
        ensures asked { Asked (opening_of self.now) (Event.Service (ServiceEvent.Clean project index)) result (knows pass.old) (knows pass.new) }
    {
        self.ask(
            rt,
            alloc,
            pass,
            Event::Service(ServiceEvent::Clean(project, index)),
        )
    }

    /// How many jobs wait or are run, and how many were finished, at the end of a history that begins with what the pass had
    /// seen, and which it has seen then.
    pub fn jobs<R: Wait>(&self, rt: &R, alloc: Global, pass: &mut Pass<D, B, P, V>) -> JobCount
        requires { IsOf self.now pass.old }
        ensures of { IsOf self.now pass.new }
        ensures counted { TookTurn pass_of legal_from (λ o. HasCounted (state_in o)) (opening_of self.now) result (knows pass.old) (knows pass.new) }
    {
        let mut deed = Count;
        self.room.turn(rt, alloc, pass, &mut deed)
    }

    /// What was told in a history that begins with what the pass had seen, and which it has seen then, but for so many of the
    /// first notices.
    pub fn notices<R: Wait>(
        &self,
        rt: &R,
        alloc: Global,
        pass: &mut Pass<D, B, P, V>,
        from: usize,
    ) -> Result<Vec<Delta>, NoMemory>
        requires { IsOf self.now pass.old }
        ensures of { IsOf self.now pass.new }
        ensures told { TookTurn pass_of legal_from (λ o n found added answer. (added ≡ []) × IfOk answer (λ told. told.items ≡ drop from (notices (state_in o) found))) (opening_of self.now) result (knows pass.old) (knows pass.new) }
    {
        let mut deed = Tell { from };
        self.room.turn(rt, alloc, pass, &mut deed)
    }
}
