//! The events that concern passes, their rules and their batches.
ghost use Rattle.std.specs.Prelude.{◌≡◌, true, false, Some, IfOk, IsOk, OnOk, OnErr};
ghost use Rattle.rule_table.specs.Tables.{last_rule};
ghost use Rattle.core_event.specs.declared.event.Event.TheVariants.{Leave, Begin, End, Transfer, Batch, EndBatch};
ghost use Rattle.pass_table.specs.Passes.{has_pass, is_quiet};
ghost use Rattle.pass_table.specs.Rows.{entered};
ghost use Rattle.core_event.specs.Twice.{twice, doubled};
ghost use Rattle.job_manager.specs.Effects.{outcome};

use crate::{JobManager, NoMemory};
use core_event::{Answer, Refusal, Twice, WsRule, done_twice, id_twice, refused_twice};
use pass_table::TransferError;
use rule_table::{BeginError, EndError};
use std::alloc::{AllocError, Global};

impl JobManager {
    /// A new pass enters.
    pub(crate) fn enter(&mut self, wants_copy: bool) -> Result<Twice<Answer>, NoMemory>
        ensures state { OnOk result (self.new ≡ record self.old { passes = entered self.old.passes }) }
        ensures number { IfOk result (λ answer. answer ≡ twice wants_copy (Answer.Id self.old.passes.next)) }
        ensures err { OnErr result (self.new ≡ self.old) }
        ensures quiet { is_quiet self.new.passes ≡ is_quiet self.old.passes }
    {
        let number = self.passes.enter()?;
        Ok(id_twice(number, wants_copy))
    }

    /// The pass leaves. Refused where it has a rule, an open batch or a job.
    pub(crate) fn leave(
        &mut self,
        alloc: Global,
        pass: u64,
        wants_copy: bool,
    ) -> Result<Twice<Answer>, NoMemory>
        ensures ok { IfOk result (λ answer. (self.new, answer) ≡ doubled wants_copy (outcome self.old pass Leave)) }
        ensures err { OnErr result (self.new ≡ self.old) }
        ensures quiet { is_quiet self.new.passes ≡ is_quiet self.old.passes }
    {
        match self.passes.leave(pass) {
            Ok(()) => Ok(done_twice(wants_copy)),
            Err(_) => refused_twice(alloc, Refusal::PassBusy, wants_copy),
        }
    }

    /// The pass has one more rule, where that is admitted.
    pub(crate) fn begin(
        &mut self,
        alloc: Global,
        pass: u64,
        rule: &WsRule,
        wants_copy: bool,
    ) -> Result<Twice<Answer>, NoMemory>
        ensures ok { IfOk result (λ answer. (self.new, answer) ≡ doubled wants_copy (outcome self.old pass (Begin rule.now))) }
        ensures err { OnErr result (self.new ≡ self.old) }
        ensures quiet { is_quiet self.new.passes ≡ is_quiet self.old.passes }
    {
        let rule = rule.copy()?;
        match self.passes.begin(pass, rule) {
            Ok(()) => Ok(done_twice(wants_copy)),
            Err(BeginError::NotContained { outer }) => {
                refused_twice(alloc, Refusal::NotContained(outer), wants_copy)
            }
            Err(BeginError::Conflict { holder, rule }) => {
                refused_twice(alloc, Refusal::Conflict(holder, rule), wants_copy)
            }
            Err(BeginError::Memory) => Err(AllocError),
        }
    }

    /// The rule that the pass began last is over, where it is this one.
    pub(crate) fn end(
        &mut self,
        alloc: Global,
        pass: u64,
        rule: &WsRule,
        wants_copy: bool,
    ) -> Result<Twice<Answer>, NoMemory>
        ensures ok { IfOk result (λ answer. (self.new, answer) ≡ doubled wants_copy (outcome self.old pass (End rule.now))) }
        ensures err { OnErr result (self.new ≡ self.old) }
        ensures never { last_rule pass self.old.passes.rules ≡ Some rule.now → IsOk result }
        ensures quiet { is_quiet self.new.passes ≡ is_quiet self.old.passes }
    {
        match self.passes.end(pass, rule) {
            Ok(()) => Ok(done_twice(wants_copy)),
            Err(EndError::NotLast { held }) => refused_twice(
                alloc,
                Refusal::NotLast(held),
                wants_copy,
            ),
            Err(EndError::HoldsNothing) => refused_twice(alloc, Refusal::HoldsNothing, wants_copy),
            Err(EndError::TargetHolds) => unreachable!(),
        }
    }

    /// All rules of the pass are the other's.
    pub(crate) fn transfer(
        &mut self,
        alloc: Global,
        pass: u64,
        to: u64,
        wants_copy: bool,
    ) -> Result<Twice<Answer>, NoMemory>
        ensures ok { IfOk result (λ answer. (self.new, answer) ≡ doubled wants_copy (outcome self.old pass (Transfer to))) }
        ensures err { OnErr result (self.new ≡ self.old) }
        ensures quiet { is_quiet self.new.passes ≡ is_quiet self.old.passes }
    {
        match self.passes.transfer(pass, to) {
            Ok(()) => Ok(done_twice(wants_copy)),
            Err(TransferError::NoPass) => refused_twice(alloc, Refusal::NoPass, wants_copy),
            Err(TransferError::HoldsNothing) => refused_twice(
                alloc,
                Refusal::HoldsNothing,
                wants_copy,
            ),
            Err(TransferError::TargetHolds) => refused_twice(
                alloc,
                Refusal::TargetHolds,
                wants_copy,
            ),
        }
    }

    /// The pass has one more open batch.
    pub(crate) fn begin_batch(
        &mut self,
        pass: u64,
        wants_copy: bool,
    ) -> Result<Twice<Answer>, NoMemory>
        requires { has_pass self.old.passes pass ≡ true }
        ensures ok { IfOk result (λ answer. (self.new, answer) ≡ doubled wants_copy (outcome self.old pass Batch)) }
        ensures err { OnErr result (self.new ≡ self.old) }
        ensures quiet { OnOk result (is_quiet self.new.passes ≡ false) }
    {
        self.passes.begin_batch(pass)?;
        Ok(done_twice(wants_copy))
    }

    /// The pass's newest batch is over, if it has one.
    pub(crate) fn end_batch(
        &mut self,
        alloc: Global,
        pass: u64,
        wants_copy: bool,
    ) -> Result<Twice<Answer>, NoMemory>
        ensures ok { IfOk result (λ answer. (self.new, answer) ≡ doubled wants_copy (outcome self.old pass EndBatch)) }
        ensures err { OnErr result (self.new ≡ self.old) }
    {
        match self.passes.end_batch(pass) {
            Ok(()) => Ok(done_twice(wants_copy)),
            Err(_) => refused_twice(alloc, Refusal::NoBatch, wants_copy),
        }
    }
}
