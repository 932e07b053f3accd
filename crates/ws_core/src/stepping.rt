//! One step of a state.
ghost use Rattle.std.specs.Prelude.{◌≡◌, ◌&&◌, not, true, false, Some, IfOk, IsOk, OnErr, None as nothing};
ghost use Rattle.std.specs.Option.{option_map};
ghost use Rattle.op_kind.specs.Refusals as ops;
ghost use Rattle.op_rule.specs.Rules.{operation_rule};
ghost use Rattle.core_event.specs.declared.event.Event.TheVariants.{Operation, Service};
ghost use Rattle.core_event.specs.declared.reply.Answer.TheVariants.{Refused};
ghost use Rattle.core_event.specs.declared.reply.Refusal.TheVariants as refusals;
ghost use Rattle.core_event.specs.Events.{is_checkpoint, is_read, operation_of, service_of};
ghost use Rattle.core_event.specs.Twice.{doubled, twice};
ghost use Rattle.job_manager.specs.Admission.{admission};
ghost use Rattle.job_manager.specs.Ends.{EndsLast};
ghost use Rattle.job_manager.specs.Batches.{closes, IsRun};
ghost use Rattle.job_manager.specs.Refusals.{refusal};
ghost use Rattle.pass_table.specs.Passes.{is_quiet};
ghost use Rattle.ws_core.specs.Ends.{ChecksIn};
ghost use Rattle.ws_core.specs.Histories.{has_entered};
ghost use Rattle.ws_core.specs.Sessions.{IsConsistent};
ghost use Rattle.ws_core.specs.Inside.Parts.{desk_after, is_refused};
ghost use Rattle.ws_core.specs.Steps.{step};

use crate::{Answer, Event, NoMemory, Refusal, Reply, State, Twice};
use core_event::{done_twice, is_read, refused_twice, untold};
use job_manager::closes;
use op_kind::Op;
use pass_table::Passes;
use sched_rules::WsAtom;
use service_desk::Desk;
use std::alloc::Global;
use tree_memory::Remembers;

impl<T: Remembers + Drop> State<T> {
    /// Does the event of the pass, or refuses it with the first cause in the order of its list, and tells what changed
    /// where it is a telling place: each checkpoint, and each other event that leaves no batch open. A refused event
    /// changes nothing. Gives the reply, with a copy where one is wanted. Where memory wants, the state stays as it was; it
    /// never wants where the pass ends the rule that it began last, and where it has the services and gives them back as it
    /// may.
    ///
    /// An operation costs what `ws_ops::apply` does, a commit what `output_commit::commit_edits` does, and a telling place
    /// what was recorded since the one before.
    pub fn step(
        &mut self,
        alloc: Global,
        pass: u64,
        event: &Event,
        wants_copy: bool,
    ) -> Result<Twice<Reply>, NoMemory>
        requires sound { IsConsistent self.old }
        requires entered { has_entered pass self.old ≡ true }
        ensures ok { IfOk result (λ r. (self.new, r) ≡ doubled wants_copy (step self.old pass event.now)) }
        ensures sound { IsConsistent self.new }
        ensures err { OnErr result (self.new ≡ self.old) }
        ensures never { EndsLast self.old.manager.passes.rules pass event.now → IsOk result }
        ensures checks_in { ChecksIn self.old pass event.now → IsOk result }
    {
        self.advance(alloc, pass, event, wants_copy)
    }

    fn advance(
        &mut self,
        alloc: Global,
        pass: u64,
        event: &Event,
        wants_copy: bool,
    ) -> Result<Twice<Reply>, NoMemory>
        requires quiet { is_quiet self.old.manager.passes ≡ true → self.old.remembered.told ≡ self.old.resources.tree }
        requires entered { has_entered pass self.old ≡ true }
        ensures ok { IfOk result (λ r. (self.new, r) ≡ doubled wants_copy (step self.old pass event.now)) }
        ensures err { OnErr result (self.new ≡ self.old) }
        ensures never { EndsLast self.old.manager.passes.rules pass event.now → IsOk result }
        ensures checks_in { ChecksIn self.old pass event.now → IsOk result }
    {
        if let Some(op) = event.operation() {
            return self.operate(alloc, pass, op, wants_copy);
        }
        match event.service() {
            Some(service) => self.serve(alloc, pass, service, wants_copy),
            None => self.manage(alloc, pass, event, wants_copy),
        }
    }

    /// Does an operation, or refuses it.
    fn operate(
        &mut self,
        alloc: Global,
        pass: u64,
        op: &Op,
        wants_copy: bool,
    ) -> Result<Twice<Reply>, NoMemory>
        requires quiet { is_quiet self.old.manager.passes ≡ true → self.old.remembered.told ≡ self.old.resources.tree }
        ensures ok { IfOk result (λ r. (self.new, r) ≡ doubled wants_copy (step self.old pass (Operation op.now))) }
        ensures err { OnErr result (self.new ≡ self.old) }
    {
        match self.manager.operation_admission(alloc, pass, op)? {
            Some(refusal) => refuse(alloc, refusal, wants_copy),
            None => self.operate_admitted(alloc, pass, op, wants_copy),
        }
    }

    /// Does an operation that is admitted, or refuses it for a cause of its own.
    fn operate_admitted(
        &mut self,
        alloc: Global,
        pass: u64,
        op: &Op,
        wants_copy: bool,
    ) -> Result<Twice<Reply>, NoMemory>
        requires quiet { is_quiet self.old.manager.passes ≡ true → self.old.remembered.told ≡ self.old.resources.tree }
        requires admitted { admission self.old.manager.passes.rules pass (operation_rule op.now) ≡ nothing }
        ensures ok { IfOk result (λ r. (self.new, r) ≡ doubled wants_copy (step self.old pass (Operation op.now))) }
        ensures err { OnErr result (self.new ≡ self.old) }
    {
        let tells = tells_after(&self.manager.passes, op);
        let replied = self.content.operate(alloc, op, tells, wants_copy)?;
        leave_desk(&mut self.desk, op, &replied);
        Ok(replied)
    }

    /// Does an event of passes, jobs, rules or batches, or refuses it.
    fn manage(
        &mut self,
        alloc: Global,
        pass: u64,
        event: &Event,
        wants_copy: bool,
    ) -> Result<Twice<Reply>, NoMemory>
        requires quiet { is_quiet self.old.manager.passes ≡ true → self.old.remembered.told ≡ self.old.resources.tree }
        requires entered { has_entered pass self.old ≡ true }
        requires managed { operation_of event.now ≡ nothing }
        requires plain { service_of event.now ≡ nothing }
        ensures ok { IfOk result (λ r. (self.new, r) ≡ doubled wants_copy (step self.old pass event.now)) }
        ensures err { OnErr result (self.new ≡ self.old) }
        ensures never { EndsLast self.old.manager.passes.rules pass event.now → IsOk result }
    {
        if self.manager.passes.is_quiet() {
            return self.manage_quiet(alloc, pass, event, wants_copy);
        }
        if event.is_checkpoint() {
            return self.check(alloc, pass, event, wants_copy);
        }
        if closes(event) {
            return self.close(alloc, pass, event, wants_copy);
        }
        self.manage_open(alloc, pass, event, wants_copy)
    }

    /// The same, where no batch is open.
    fn manage_quiet(
        &mut self,
        alloc: Global,
        pass: u64,
        event: &Event,
        wants_copy: bool,
    ) -> Result<Twice<Reply>, NoMemory>
        requires told { self.old.remembered.told ≡ self.old.resources.tree }
        requires entered { has_entered pass self.old ≡ true }
        requires managed { operation_of event.now ≡ nothing }
        requires plain { service_of event.now ≡ nothing }
        ensures ok { IfOk result (λ r. (self.new, r) ≡ doubled wants_copy (step self.old pass event.now)) }
        ensures err { OnErr result (self.new ≡ self.old) }
        ensures never { EndsLast self.old.manager.passes.rules pass event.now → IsOk result }
    {
        let answer = self.manager.act(alloc, pass, event, wants_copy)?;
        Ok(untold(answer))
    }

    /// The same, where a batch is open, of an event that closes none and is no checkpoint.
    fn manage_open(
        &mut self,
        alloc: Global,
        pass: u64,
        event: &Event,
        wants_copy: bool,
    ) -> Result<Twice<Reply>, NoMemory>
        requires busy { is_quiet self.old.manager.passes ≡ false }
        requires other { is_checkpoint event.now ≡ false }
        requires closes { closes event.now ≡ false }
        requires entered { has_entered pass self.old ≡ true }
        requires managed { operation_of event.now ≡ nothing }
        requires plain { service_of event.now ≡ nothing }
        ensures ok { IfOk result (λ r. (self.new, r) ≡ doubled wants_copy (step self.old pass event.now)) }
        ensures err { OnErr result (self.new ≡ self.old) }
        ensures never { EndsLast self.old.manager.passes.rules pass event.now → IsOk result }
    {
        let answer = self.manager.act(alloc, pass, event, wants_copy)?;
        Ok(untold(answer))
    }

    /// Tells what changed, at a checkpoint.
    fn check(
        &mut self,
        alloc: Global,
        pass: u64,
        event: &Event,
        wants_copy: bool,
    ) -> Result<Twice<Reply>, NoMemory>
        requires { is_checkpoint event.now ≡ true }
        ensures ok { IfOk result (λ r. (self.new, r) ≡ doubled wants_copy (step self.old pass event.now)) }
        ensures err { OnErr result (self.new ≡ self.old) }
    {
        let _ = pass;
        self.content.tell(alloc, Answer::Done, wants_copy)
    }

    /// Does an event that closes batches, or refuses it, where a batch is open.
    fn close(
        &mut self,
        alloc: Global,
        pass: u64,
        event: &Event,
        wants_copy: bool,
    ) -> Result<Twice<Reply>, NoMemory>
        requires busy { is_quiet self.old.manager.passes ≡ false }
        requires closes { closes event.now ≡ true }
        ensures ok { IfOk result (λ r. (self.new, r) ≡ doubled wants_copy (step self.old pass event.now)) }
        ensures err { OnErr result (self.new ≡ self.old) }
    {
        match self.manager.closing_refusal(pass, event)? {
            Some(refusal) => refuse(alloc, refusal, wants_copy),
            None => self.close_allowed(alloc, pass, event, wants_copy),
        }
    }

    /// Does an event that closes batches, and tells where none is open any more.
    fn close_allowed(
        &mut self,
        alloc: Global,
        pass: u64,
        event: &Event,
        wants_copy: bool,
    ) -> Result<Twice<Reply>, NoMemory>
        requires closes { closes event.now ≡ true }
        requires allowed { refusal self.old.manager pass event.now ≡ nothing }
        requires runs { IsRun self.old.manager pass }
        ensures ok { IfOk result (λ r. (self.new, r) ≡ doubled wants_copy (step self.old pass event.now)) }
        ensures err { OnErr result (self.new ≡ self.old) }
    {
        if !self.manager.will_be_quiet(pass, event) {
            self.manager.close(pass, event);
            return Ok(untold(done_twice(wants_copy)));
        }
        let replied = self.content.tell(alloc, Answer::Done, wants_copy)?;
        self.manager.close(pass, event);
        Ok(replied)
    }
}

/// Whether it is a telling place after the operation. What only reads leaves nothing to be told.
fn tells_after(passes: &Passes<WsAtom>, op: &Op) -> bool
    ensures { result ≡ (is_quiet passes.now && not (is_read op.now)) }
{
    passes.is_quiet() && !is_read(op)
}

/// The operation was done, unless it was refused.
fn leave_desk(desk: &mut Desk, op: &Op, replied: &Twice<Reply>)
    ensures { desk.new ≡ desk_after desk.old op.now replied.now.value.answer }
{
    if !is_refused(replied) {
        desk.leave(op);
    }
}

/// Whether the reply tells that the event is refused.
fn is_refused(replied: &Twice<Reply>) -> bool
    ensures { result ≡ is_refused replied.now.value.answer }
{
    matches!(replied.value.answer, Answer::Refused(_))
}

/// The reply to an event that is refused, which tells nothing.
pub(crate) fn refuse(
    alloc: Global,
    refusal: Refusal,
    wants_copy: bool,
) -> Result<Twice<Reply>, NoMemory>
    ensures { IfOk result (λ r. r ≡ twice wants_copy (record { answer = Refused refusal; notice = nothing })) }
{
    let answer = refused_twice(alloc, refusal, wants_copy)?;
    Ok(untold(answer))
}
