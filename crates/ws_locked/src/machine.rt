//! What the lock keeps, as a machine that passes share.
ghost use Rattle.std.specs.Prelude.{◌≡◌, ◌≢◌, IfErr, OnOk};

use crate::vow::Vow;
use crate::{Locked, Opening};
use builder_api::Builder;
use core_event::{Answer, Entry, Event, Reply};
use pass_turns::{LeaveError, Logged, Machine};
use res_path::NoMemory;
use save_round::Participant;
use std::alloc::Global;
use ws_outside::Disk;

impl<D: Disk, B: Builder, P: Participant, V: Vow> Logged for Locked<D, B, P, V> {
    ghost use Rattle.pass_history.specs.There.{gives};

    type Entry = Entry;

    type Base = Opening<D, B, P>;

    ghost base = { λ l. l.opening };

    ghost list = { λ l. l.core.history };

    ghost by = { λ x. x.pass };

    ghost gives = { gives };

    fn entries(&self) -> u64 {
        self.hold.core.history().len() as u64
    }
}

impl<D: Disk, B: Builder, P: Participant, V: Vow> Machine for Locked<D, B, P, V> {
    ghost use Rattle.std.specs.Prelude.{is_none};
    ghost use Rattle.ws_core.specs.Histories.{Legal};
    ghost use Rattle.pass_history.specs.Served.{who_serves};
    ghost use Rattle.pass_history.specs.There.{HasLeft, is_there, LetsIn, WasBusy};
    ghost use Rattle.pass_history.proofs.Staying.{stays};

    ghost legal = { λ o h. Legal o.core.value.opened h };

    ghost is_there = { λ o h n. is_there o.core.value.opened h n };

    ghost lets_in = { LetsIn };

    ghost left = { HasLeft };

    ghost asked = { WasBusy };

    ghost may_close = { λ o h. is_none (who_serves o.core.value.opened h) };

    fn may_close(&self) -> bool {
        let _ = self.hold.core.state();
        self.hold.services.is_some()
    }

    fn settle(&self) {
        let _ = self.hold.core.history();
    }

    fn enter(&mut self, alloc: Global, pass: u64) -> Result<u64, NoMemory> {
        self.stands();
        let reply = self.ask(alloc, pass, Event::Enter)?;
        match reply.answer {
            Answer::Id(number) => Ok(number),
            _ => unreachable!(),
        }
    }

    fn leave(&mut self, alloc: Global, pass: u64) -> Result<(), LeaveError> {
        match self.ask(alloc, pass, Event::Leave) {
            Ok(reply) => has_left(&reply),
            Err(_) => Err(LeaveError::Memory),
        }
    }

    ghost stays = { λ o h x n there other. stays o.core.value.opened h x n there other };
}

/// Whether the reply tells that the pass has left, or that it is busy.
fn has_left(reply: &Reply) -> Result<(), LeaveError>
    ensures ok { OnOk result (reply.now.answer ≡ Answer.Done) }
    ensures err { IfErr result (λ e. (e ≡ LeaveError.Busy) × (reply.now.answer ≢ Answer.Done)) }
{
    match reply.answer {
        Answer::Done => Ok(()),
        _ => Err(LeaveError::Busy),
    }
}
