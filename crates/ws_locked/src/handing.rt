//! The services, in one turn of a pass.
use crate::moving::CheckInError;
use crate::vow::Vow;
use crate::{Locked, Services};
use builder_api::Builder;
use core_event::{Outcomes, Purpose, Reply};
use pass_turns::{Attempt, Deed};
use res_path::NoMemory;
use save_kind::PartStates;
use save_round::Participant;
use std::alloc::Global;
use ws_durable::Durable;
use ws_outside::Disk;

/// The services are to go out to the pass for this.
#[derive(Drop)]
pub struct Take {
    pub purpose: Option<Purpose>,
}

impl<D: Disk, B: Builder, P: Participant, V: Vow> Deed<Locked<D, B, P, V>> for Take {
    ghost use Rattle.std.specs.Prelude.{◌≡◌, Some};
    ghost use Rattle.core_event.specs.declared.service.Purpose.{Purpose};
    ghost use Rattle.ws_locked.specs.Fits.{Fits};
    ghost use Rattle.ws_locked.specs.Halls.{opened_by, told_by, trio_of};
    ghost use Rattle.ws_locked.specs.Moved.{WasLent};

    type Answer = Result<(Reply, Option<Services<D, B, P>>), NoMemory>;

    ghost may = { λ a o n found. (p : Purpose) × (a.purpose ≡ Some p) };

    ghost did = { λ a b o n found added answer. (p : Purpose) → a.purpose ≡ Some p
        → WasLent (λ h s. Fits D.moment D.left_since D.may_leave D.faults V.fits (opened_by B.tells P.tells o) o.keeper.value h (told_by B.tells P.tells (trio_of s))) o.core.value.opened n p found added answer };

    fn make(
        &mut self,
        alloc: Global,
        machine: &mut Locked<D, B, P, V>,
        pass: u64,
    ) -> Result<(Reply, Option<Services<D, B, P>>), NoMemory> {
        match self.purpose.take() {
            Some(purpose) => machine.check_out(alloc, pass, purpose),
            None => unreachable!(),
        }
    }
}

/// The services are to go out to the pass for this, once no other pass has them.
#[derive(Drop)]
pub struct Await {
    pub purpose: Purpose,
}

impl<D: Disk, B: Builder, P: Participant, V: Vow> Attempt<Locked<D, B, P, V>> for Await {
    ghost use Rattle.ws_locked.specs.Fits.{Fits};
    ghost use Rattle.ws_locked.specs.Halls.{opened_by, told_by, trio_of};
    ghost use Rattle.ws_locked.specs.Moved.{WasAwaited};

    type Answer = Result<(Reply, Option<Services<D, B, P>>), NoMemory>;

    ghost may = { λ a o n found. Unit {0} };

    ghost did = { λ a o n found added answer. WasAwaited (λ h s. Fits D.moment D.left_since D.may_leave D.faults V.fits (opened_by B.tells P.tells o) o.keeper.value h (told_by B.tells P.tells (trio_of s))) o.core.value.opened n a.purpose found added answer };

    fn attempt(
        &mut self,
        alloc: Global,
        machine: &mut Locked<D, B, P, V>,
        pass: u64,
    ) -> Option<Result<(Reply, Option<Services<D, B, P>>), NoMemory>> {
        if machine.must_wait(pass, &self.purpose) {
            return None;
        }
        match self.purpose.copy() {
            Ok(purpose) => Some(machine.check_out(alloc, pass, purpose)),
            Err(error) => Some(Err(error)),
        }
    }
}

/// The states of participants are to be kept in the pass's save, and what lasts over it to be told.
#[derive(Drop)]
pub struct Keep {
    pub states: Option<PartStates>,
}

impl<D: Disk, B: Builder, P: Participant, V: Vow> Deed<Locked<D, B, P, V>> for Keep {
    ghost use Rattle.std.specs.Prelude.{◌≡◌, ℕ, List, Some, false};
    ghost use Rattle.save_kind.specs.declared.state.PartState.{PartState};
    ghost use Rattle.save_history.specs.Stages.{IsUnderWay};
    ghost use Rattle.ws_core.specs.Histories.{replay};
    ghost use Rattle.ws_locked.specs.Moved.{WereKept};

    type Answer = Result<Option<Durable>, NoMemory>;

    ghost may = { λ a o n found. (states : List (List ℕ × PartState)) × (a.states ≡ Some states) × IsUnderWay n false (replay o.core.value.opened found) };

    ghost did = { λ a b o n found added answer. (states : List (List ℕ × PartState)) → a.states ≡ Some states → WereKept states o.core.value.opened n found added answer };

    fn make(
        &mut self,
        alloc: Global,
        machine: &mut Locked<D, B, P, V>,
        pass: u64,
    ) -> Result<Option<Durable>, NoMemory> {
        match self.states.take() {
            Some(states) => machine.keep_states(alloc, pass, states),
            None => unreachable!(),
        }
    }
}

/// What a pass gives back: the services, and how it went.
#[derive(Drop)]
pub struct Given<D: Disk, B: Builder, P: Participant> {
    pub services: Services<D, B, P>,
    pub outcome: Outcomes,
}

/// The services are to come home from the pass.
#[derive(Drop)]
pub struct Give<D: Disk, B: Builder, P: Participant> {
    pub given: Option<Given<D, B, P>>,
}

impl<D: Disk, B: Builder, P: Participant, V: Vow> Deed<Locked<D, B, P, V>> for Give<D, B, P> {
    ghost use Rattle.std.specs.Prelude.{◌≡◌, Some};
    ghost use Rattle.pass_history.specs.Served.{who_serves};
    ghost use Rattle.ws_locked.specs.declared.handing.Given.{Given};
    ghost use Rattle.ws_locked.specs.Fits.{Fits};
    ghost use Rattle.ws_locked.specs.Halls.{opened_by, told_by, trio_of};
    ghost use Rattle.ws_locked.specs.Moved.{ComesHome, WasBrought};

    type Answer = Result<Reply, (CheckInError, Services<D, B, P>)>;

    ghost may = { λ a o n found. (g : Given D B P) × (a.given ≡ Some g) × (who_serves o.core.value.opened found ≡ Some n
        → ComesHome (λ h. Fits D.moment D.left_since D.may_leave D.faults V.fits (opened_by B.tells P.tells o) o.keeper.value h (told_by B.tells P.tells (trio_of g.services))) n g.outcome found) };

    ghost did = { λ a b o n found added answer. (g : Given D B P) → a.given ≡ Some g → WasBrought o.core.value.opened n g.outcome g.services found added answer };

    fn make(
        &mut self,
        alloc: Global,
        machine: &mut Locked<D, B, P, V>,
        pass: u64,
    ) -> Result<Reply, (CheckInError, Services<D, B, P>)> {
        match self.given.take() {
            Some(given) => machine.check_in(alloc, pass, given.services, given.outcome),
            None => unreachable!(),
        }
    }
}
