//! An event of a pass, in one turn.
ghost use Rattle.std.specs.Prelude.{◌≡◌, None, Ok, Some, true, IfNone, IfSome};

use crate::Locked;
use crate::vow::Vow;
use builder_api::{Builder, Edits};
use core_event::{Event, Reply, ServiceEvent};
use delta_kind::Delta;
use pass_turns::{Attempt, Deed};
use res_path::NoMemory;
use save_round::Participant;
use std::alloc::Global;
use std::sync::atomic::{AtomicBool, Ordering};
use ws_core::JobCount;
use ws_outside::Disk;

/// An event to be done in the pass's next turn, whatever it is answered.
#[derive(Drop)]
pub struct Ask {
    pub event: Option<Event>,
}

impl<D: Disk, B: Builder, P: Participant, V: Vow> Deed<Locked<D, B, P, V>> for Ask {
    ghost use Rattle.std.specs.Prelude.{◌≡◌, Some, true};
    ghost use Rattle.core_event.specs.declared.event.Event.{Event};
    ghost use Rattle.ws_locked.specs.Asked.{is_plain, WasAsked};

    type Answer = Result<Reply, NoMemory>;

    ghost may = { λ a o n found. (e : Event) × (a.event ≡ Some e) × (is_plain e ≡ true) };

    ghost did = { λ a b o n found added answer. (e : Event) → a.event ≡ Some e → WasAsked e o.core.value.opened n found added answer };

    fn make(
        &mut self,
        alloc: Global,
        machine: &mut Locked<D, B, P, V>,
        pass: u64,
    ) -> Result<Reply, NoMemory> {
        match self.event.take() {
            Some(event) => machine.ask(alloc, pass, event),
            None => unreachable!(),
        }
    }
}

/// The edits are to be committed for the command under way.
#[derive(Drop)]
pub struct Commit {
    pub edits: Option<Edits>,
}

impl<D: Disk, B: Builder, P: Participant, V: Vow> Deed<Locked<D, B, P, V>> for Commit {
    ghost use Rattle.std.specs.Prelude.{◌≡◌, Some};
    ghost use Rattle.builder_api.specs.declared.edits.Edits.{Edits};
    ghost use Rattle.ws_locked.specs.Asked.{WasCommitted};

    type Answer = Result<Reply, NoMemory>;

    ghost may = { λ a o n found. (e : Edits) × (a.edits ≡ Some e) };

    ghost did = { λ a b o n found added answer. (e : Edits) → a.edits ≡ Some e → WasCommitted e o.core.value.opened n found added answer };

    fn make(
        &mut self,
        alloc: Global,
        machine: &mut Locked<D, B, P, V>,
        pass: u64,
    ) -> Result<Reply, NoMemory> {
        machine.stands();
        match self.edits.take() {
            Some(edits) => { machine.ask(alloc, pass, Event::Service(ServiceEvent::Commit(edits))) }
            None => unreachable!(),
        }
    }
}

/// An event to be done in one of the pass's turns: in a turn in which it only finds that it must wait nothing is done.
#[derive(Drop)]
pub struct Wish {
    pub event: Event,
}

impl<D: Disk, B: Builder, P: Participant, V: Vow> Attempt<Locked<D, B, P, V>> for Wish {
    ghost use Rattle.std.specs.Prelude.{◌≡◌, true};
    ghost use Rattle.ws_locked.specs.Asked.{HasStood, is_plain};

    type Answer = Result<Reply, NoMemory>;

    ghost may = { λ a o n found. is_plain a.event ≡ true };

    ghost did = { λ a o n found added answer. HasStood a.event o.core.value.opened n found added answer };

    fn attempt(
        &mut self,
        alloc: Global,
        machine: &mut Locked<D, B, P, V>,
        pass: u64,
    ) -> Option<Result<Reply, NoMemory>> {
        if !machine.may_go(pass, &self.event) {
            return None;
        }
        match machine.try_event(alloc, pass, &self.event) {
            Ok(Some(reply)) => Some(Ok(reply)),
            Ok(None) => None,
            Err(error) => Some(Err(error)),
        }
    }
}

/// The same, of who gives up where the event must wait and the flag is set: then nothing is done, and the answer has no reply.
#[derive(Drop)]
pub struct WishUnless<'a> {
    pub event: Event,
    pub stop: &'a AtomicBool,
}

impl<'a, D: Disk, B: Builder, P: Participant, V: Vow> Attempt<Locked<D, B, P, V>>
    for WishUnless<'a> {
    ghost use Rattle.std.specs.Prelude.{◌≡◌, true};
    ghost use Rattle.ws_locked.specs.Asked.{WasTried, is_plain};

    type Answer = Result<Option<Reply>, NoMemory>;

    ghost may = { λ a o n found. is_plain a.event ≡ true };

    ghost did = { λ a o n found added answer. WasTried a.event o.core.value.opened n found added answer };

    fn attempt(
        &mut self,
        alloc: Global,
        machine: &mut Locked<D, B, P, V>,
        pass: u64,
    ) -> Option<Result<Option<Reply>, NoMemory>> {
        let stopped = self.stop.load(Ordering::SeqCst);
        if !stopped && !machine.may_go(pass, &self.event) {
            return None;
        }
        answer_to(machine.try_event(alloc, pass, &self.event), stopped)
    }
}

/// The answer of who tried an event: none where it must wait, unless it gives up.
fn answer_to(
    tried: Result<Option<Reply>, NoMemory>,
    gives_up: bool,
) -> Option<Result<Option<Reply>, NoMemory>>
    ensures answer { IfSome result (λ answer. answer ≡ tried) }
    ensures waits { IfNone result (tried ≡ Ok None) }
{
    if !gives_up && must_wait(&tried) {
        return None;
    }
    Some(tried)
}

/// Whether the event that was tried only found that it must wait.
fn must_wait(tried: &Result<Option<Reply>, NoMemory>) -> bool
    ensures { result ≡ true → tried.now ≡ Ok None }
{
    matches!(tried, Ok(None))
}

/// The jobs are to be counted.
#[derive(Drop)]
pub struct Count;

impl<D: Disk, B: Builder, P: Participant, V: Vow> Deed<Locked<D, B, P, V>> for Count {
    ghost use Rattle.ws_locked.specs.Asked.{HasCounted};

    type Answer = JobCount;

    ghost may = { λ a o n found. Unit {0} };

    ghost did = { λ a b o n found added answer. HasCounted o.core.value.opened n found added answer };

    fn make(&mut self, alloc: Global, machine: &mut Locked<D, B, P, V>, pass: u64) -> JobCount {
        let _ = (alloc, pass);
        machine.jobs()
    }
}

/// What the history tells is asked, but for so many of its first notices.
#[derive(Drop)]
pub struct Tell {
    pub from: usize,
}

impl<D: Disk, B: Builder, P: Participant, V: Vow> Deed<Locked<D, B, P, V>> for Tell {
    ghost use Rattle.std.specs.Prelude.{◌≡◌, [], drop, IfOk};
    ghost use Rattle.ws_core.specs.Histories.{notices};

    type Answer = Result<Vec<Delta>, NoMemory>;

    ghost may = { λ a o n found. Unit {0} };

    ghost did = { λ a b o n found added answer. (added ≡ []) × IfOk answer (λ told. told.items ≡ drop a.from (notices o.core.value.opened found)) };

    fn make(
        &mut self,
        alloc: Global,
        machine: &mut Locked<D, B, P, V>,
        pass: u64,
    ) -> Result<Vec<Delta>, NoMemory> {
        let _ = pass;
        machine.notices(alloc, self.from)
    }
}
