//! The services go out to a pass, and come home.
ghost use Rattle.std.specs.Prelude.{◌≡◌, ◌≢◌, ◌++◌, ◌∷◌, [], ℕ, List, Some, true, false, is_some, IfErr, IfOk, IfSome, IsOk, OnErr};
ghost use Rattle.core_event.specs.declared.entry.Entry.{Entry};
ghost use Rattle.pass_history.specs.Served.{was_done, who_serves};
ghost use Rattle.pass_history.specs.There.{is_there};
ghost use Rattle.ws_locked.specs.Moved.{checkin, error_of};
ghost use Rattle.ws_core.specs.Ends.{ChecksIn};
ghost use Rattle.ws_core.specs.Histories.{replay};
ghost use Rattle.ws_locked.specs.Inside.Waiting.{has_rule};

use crate::vow::Vow;
use crate::{Locked, Services};
use builder_api::Builder;
use core_event::{Answer, Event, Outcomes, Purpose, Refusal, Reply, ServiceEvent};
use elem_tree::LayerTree;
use op_rule::contains_at;
use res_path::{NoMemory, Path};
use save_host::{keep, kept_now};
use save_kind::PartStates;
use save_round::Participant;
use std::alloc::Global;
use ws_core::Core;
use ws_durable::Durable;
use ws_outside::Disk;

/// Why services aren't taken back.
#[derive(Clone, Copy, Debug, PartialEq, Eq)]
pub enum CheckInError {
    /// The pass hasn't them, but this one has, if one has; or they were taken for something else. That it was asked is
    /// written.
    NotServices(Option<u64>),
    /// Memory wanted, and nothing was done.
    Memory,
}

/// Whether the reply tells that the event was done.
fn was_done(reply: &Reply) -> bool
    ensures { result ≡ was_done reply.now.answer }
{
    match reply.answer {
        Answer::Refused(_) => false,
        Answer::Done
        | Answer::Id(_)
        | Answer::Count(_)
        | Answer::None
        | Answer::Job(_)
        | Answer::Seen(_)
        | Answer::Plan(_)
        | Answer::Handed(_)
        | Answer::Committed { .. } => true,
    }
}

/// Why the services weren't taken back.
fn error_of(reply: &Reply) -> CheckInError
    ensures { result ≡ error_of reply.now.answer }
{
    match &reply.answer {
        Answer::Refused(refusal) => error_in(refusal.value()),
        _ => CheckInError::NotServices(None),
    }
}

fn error_in(refusal: &Refusal) -> CheckInError
    ensures { result ≡ error_of (Answer.Refused refusal.now) }
{
    match refusal {
        Refusal::NotServices(holder) => CheckInError::NotServices(*holder),
        _ => CheckInError::NotServices(None),
    }
}

impl<D: Disk, B: Builder, P: Participant, V: Vow> Locked<D, B, P, V> {
    ghost use Rattle.ws_locked.specs.Fits.{Fits};
    ghost use Rattle.ws_locked.specs.Halls.{opened_by, opened_in, told_by, trio_of};
    ghost use Rattle.core_event.specs.declared.reply.Answer.TheVariants.{Refused};
    ghost use Rattle.core_event.specs.declared.reply.Refusal.TheVariants.{ServicesOut};
    ghost use Rattle.save_history.specs.Rounds.{rounds_of};
    ghost use Rattle.save_history.specs.Stages.{IsUnderWay};
    ghost use Rattle.ws_core.specs.Steps.{step};
    ghost use Rattle.ws_locked.specs.Moved.{ComesHome, WasGiven, WasHandedBack, WasTaken, WereKept, checkout, round_for};

    /// Whether a pass that asks for the services for this has to wait: another pass has them, and nothing else is in the way
    /// but what may be in the project's. It takes no memory.
    pub(crate) fn must_wait(&self, pass: u64, purpose: &Purpose) -> bool
        ensures { result ≡ false → (holder : ℕ) → (step (replay (opened_in self.now) self.now.core.history) pass (checkout purpose.now)).1.answer ≢ Refused (ServicesOut holder) }
    {
        let _ = self.hold.core.state();
        let has_rule = may_take(&self.hold.core, pass, purpose);
        if has_rule {
            self.hold.services.is_none()
        } else {
            false
        }
    }

    /// The services go out to the pass for this, where they are home and it may have them.
    pub(crate) fn check_out(
        &mut self,
        alloc: Global,
        pass: u64,
        purpose: Purpose,
    ) -> Result<(Reply, Option<Services<D, B, P>>), NoMemory>
        requires there { is_there (opened_in self.old) self.old.core.history pass ≡ true }
        ensures opening { self.new.opening ≡ self.old.opening }
        ensures taken { IfOk result (λ r. WasTaken (opened_in self.old) pass purpose self.old.core.history self.new.core.history r.0) }
        ensures told { IfOk result (λ r. is_some r.1 ≡ was_done r.0.answer) }
        ensures fits { IfOk result (λ r. IfSome r.1 (λ s. Fits D.moment D.left_since D.may_leave D.faults V.fits (opened_by B.tells P.tells self.old.opening) self.old.opening.keeper.value self.new.core.history (told_by B.tells P.tells (trio_of s)))) }
        ensures round { IfOk result (λ r. IfSome r.1 (λ s. (rounds_of self.new.core.history).under ≡ round_for purpose)) }
        ensures err { OnErr result (self.new.core.history ≡ self.old.core.history) }
    {
        let _ = self.hold.core.state();
        let event = Event::Service(ServiceEvent::Checkout(purpose));
        let reply = self.hold.core.step(alloc, pass, event)?;
        if was_done(&reply) {
            let out = self.hold.services.take();
            return Ok((reply, out));
        }
        Ok((reply, None))
    }

    /// The states are kept in the save of the pass that is under way, and this is what lasts over the save of what is there
    /// then, where memory doesn't want for it.
    pub(crate) fn keep_states(
        &mut self,
        alloc: Global,
        pass: u64,
        states: PartStates,
    ) -> Result<Option<Durable>, NoMemory>
        requires there { is_there (opened_in self.old) self.old.core.history pass ≡ true }
        requires under_way { IsUnderWay pass false (replay (opened_in self.old) self.old.core.history) }
        ensures opening { self.new.opening ≡ self.old.opening }
        ensures kept { (added : List Entry) × (self.new.core.history ≡ self.old.core.history ++ added) × WereKept states (opened_in self.old) pass self.old.core.history added result }
    {
        let _ = self.hold.core.state();
        keep(&mut self.hold.core, alloc, pass, states)?;
        match kept_now(&self.hold.core, alloc) {
            Ok(now) => Ok(Some(now)),
            Err(_) => Ok(None),
        }
    }

    /// The services come home from the pass, which had them, and the outcome is told. Where the pass hasn't them, or not for
    /// this, they are handed back; so they are where memory wants, which it doesn't where the pass may give them back so.
    pub(crate) fn check_in(
        &mut self,
        alloc: Global,
        pass: u64,
        services: Services<D, B, P>,
        outcome: Outcomes,
    ) -> Result<Reply, (CheckInError, Services<D, B, P>)>
        requires there { is_there (opened_in self.old) self.old.core.history pass ≡ true }
        requires fits { who_serves (opened_in self.old) self.old.core.history ≡ Some pass
            → ComesHome (λ h. Fits D.moment D.left_since D.may_leave D.faults V.fits (opened_by B.tells P.tells self.old.opening) self.old.opening.keeper.value h (told_by B.tells P.tells (trio_of services))) pass outcome self.old.core.history }
        ensures opening { self.new.opening ≡ self.old.opening }
        ensures ok { IfOk result (λ reply. WasGiven (opened_in self.old) pass outcome self.old.core.history self.new.core.history reply) }
        ensures err { IfErr result (λ e. (e.1 ≡ services) × WasHandedBack (opened_in self.old) pass outcome self.old.core.history self.new.core.history e.0) }
        ensures never { ChecksIn (replay (opened_in self.old) self.old.core.history) pass (checkin outcome) → IsOk result }
    {
        let _ = self.hold.core.state();
        let event = Event::Service(ServiceEvent::CheckIn(outcome));
        let Ok(reply) = self.hold.core.step(alloc, pass, event) else {
            return Err((CheckInError::Memory, services));
        };
        if was_done(&reply) {
            self.hold.services = Some(services);
            return Ok(reply);
        }
        Err((error_of(&reply), services))
    }
}

/// Whether the pass has the rule that it needs to have the services for this.
fn may_take(core: &Core<LayerTree>, pass: u64, purpose: &Purpose) -> bool
    ensures { result ≡ has_rule core.now.state.manager.passes.rules pass purpose.now }
{
    match purpose {
        Purpose::Build(_, _) => match core.outer(pass) {
            Some(rule) => contains_at(rule, &Path::root()),
            None => false,
        },
        Purpose::Save(_) => true,
    }
}
