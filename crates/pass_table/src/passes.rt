//! Passes, with the rules that they hold.
ghost use Rattle.std.specs.Prelude.{◌≡◌, ◌≢◌, ◌==◌, ◌||◌, ◌<◌, ◌+◌, ◌-◌, ◌^◌, if◌then◌else◌, not, ℕ, List, true, false, Err, Some, None, IsTrue, IsSome, IfOk, IfErr, IfSome, IfNone, OnOk, OnErr, OnSome, is_some};
ghost use Rattle.std.specs.Option.{option_copied};
ghost use Rattle.std.specs.FinMap as map;
ghost use Rattle.rule_table.specs.Tables.{IsApart, admits, is_free, last_rule, outer_rule};
ghost use Rattle.rule_table.specs.Refusals.{RefusesBegin, RefusesEnd};
ghost use Rattle.rule_table.specs.declared.error.BeginError.{BeginError};
ghost use Rattle.rule_table.specs.declared.error.BeginError.TheVariants.{Conflict, Memory};
ghost use Rattle.pass_table.specs.Passes.{first_pass, has_pass, job_of, batches_of, is_busy, is_quiet, serves};
ghost use Rattle.pass_table.specs.Rows.{RefusesTransfer, begun, checked_in, checked_out, ended, entered, finished, in_batch, left, out_of_batch, running, transferred};

use crate::table::Table;
use crate::{NoMemory, Pass, TransferError};
use res_path::Name;
use rule_table::{BeginError, EndError, RuleTable};
use sched_rules::{Atom, Rule};
use std::alloc::{AllocError, Global};
use std::marker::Model;

/// The greatest number of a pass.
const MAX_NUMBER: u64 = (1 << 63) - 1;

/// The pass has a rule, a job, an open batch or the services.
#[derive(Clone, Copy, Debug, PartialEq, Eq)]
pub struct PassBusy;

/// The pass has no open batch.
#[derive(Clone, Copy, Debug, PartialEq, Eq)]
pub struct NoBatch;

/// The passes that have entered a workspace and haven't left it. A contract sees the number that the next one gets, what
/// each has by its number, the rules that they hold in the order in which they were begun, and which pass has the services.
///
/// Within a pass each rule is within the ones below it, and no rules of two passes conflict. Where a call is refused, or
/// wants memory, the passes are as before.
#[derive(Debug, Drop)]
pub struct Passes<A: Atom> {
    next: u64,
    there: Table,
    rules: RuleTable<A>,
    // The pass that has the services.
    services: Option<u64>,
    // How many passes have an open batch.
    in_batch: u64,
}

impl<A: Atom> Model for Passes<A> {
    ghost use Rattle.pass_table.specs.Passes.{Passes};
    ghost use Rattle.pass_table.specs.Inside.Codes.{passes_code};
    ghost use Rattle.pass_table.specs.Inside.Kept.{IsKept};

    ghost Value = { Passes A };

    ghost coded = { passes_code A.code };

    ghost view = { λ p. record { next = p.next; there = p.there; rules = p.rules; services = p.services } };

    ghost invariant = { λ p. IsKept p.there p.next p.in_batch };
}

impl<A: Atom> Passes<A> {
    /// Pass 0 alone, without a rule, a job or an open batch.
    pub fn first(alloc: Global) -> Result<Passes<A>, NoMemory>
        ensures { IfOk result (λ passes. passes ≡ first_pass) }
    {
        let mut there = Table::empty(alloc);
        there.put(0, Pass::idle())?;
        Ok(Passes {
            next: 1,
            there,
            rules: RuleTable::empty(alloc),
            services: None,
            in_batch: 0,
        })
    }

    /// The number that the next pass gets.
    pub fn next(&self) -> u64
        ensures { result ≡ self.now.next }
    {
        self.next
    }

    /// Whether the pass has entered and hasn't left.
    pub fn has(&self, pass: u64) -> bool
        ensures { result ≡ has_pass self.now pass }
    {
        self.there.get(pass).is_some()
    }

    /// The name of the job that the pass runs, if it runs one.
    pub fn job(&self, pass: u64) -> Option<&Name>
        ensures { option_copied result ≡ job_of self.now pass }
    {
        match self.there.get(pass) {
            Some(pass) => pass.job.as_ref(),
            None => None,
        }
    }

    /// How many batches the pass has open.
    pub fn batches(&self, pass: u64) -> u64
        ensures { result ≡ batches_of self.now pass }
    {
        match self.there.get(pass) {
            Some(pass) => pass.batches,
            None => 0,
        }
    }

    /// The rules that the passes hold.
    pub fn rules(&self) -> &RuleTable<A>
        ensures { result.now ≡ self.now.rules }
    {
        &self.rules
    }

    /// The pass that has the services; none where no pass has them.
    pub fn services(&self) -> Option<u64>
        ensures { result ≡ self.now.services }
    {
        self.services
    }

    /// Whether the pass has the services.
    pub fn serves(&self, pass: u64) -> bool
        ensures { result ≡ serves self.now pass }
    {
        self.services == Some(pass)
    }

    /// Whether the pass has a rule, a job, an open batch or the services. Costs a look at the held rules.
    pub fn is_busy(&self, pass: u64) -> bool
        ensures { result ≡ is_busy self.now pass }
    {
        self.rules.last(pass).is_some()
            || self.job(pass).is_some()
            || self.batches(pass) != 0
            || self.serves(pass)
    }

    /// Whether no pass has an open batch.
    pub fn is_quiet(&self) -> bool
        ensures { result ≡ is_quiet self.now }
    {
        self.in_batch == 0
    }

    /// Whether no pass has an open batch once the newest of this pass has ended, which has one.
    pub fn is_last_batch(&self, pass: u64) -> bool
        requires { batches_of self.now pass ≢ 0 }
        ensures { result ≡ is_quiet (out_of_batch self.now pass) }
    {
        let batches = self.batches(pass);
        without_last(self.in_batch, batches) == 0
    }

    /// Whether no pass but this one has an open batch.
    pub fn is_quiet_beside(&self, pass: u64) -> bool
        ensures { result ≡ is_quiet (finished self.now pass) }
    {
        let batches = self.batches(pass);
        without_all(self.in_batch, batches) == 0
    }

    /// One more pass, without a rule, a job or an open batch. Gives its number, which no pass has or had. It is want of
    /// memory, too, where the number would pass 2^63 - 1.
    pub fn enter(&mut self) -> Result<u64, NoMemory>
        ensures ok { OnOk result (self.new ≡ entered self.old) }
        ensures number { IfOk result (λ number. number ≡ self.old.next) }
        ensures fresh { IfOk result (λ number. has_pass self.old number ≡ false) }
        ensures quiet { is_quiet self.new ≡ is_quiet self.old }
        ensures err { OnErr result (self.new ≡ self.old) }
    {
        let number = self.next;
        if number > MAX_NUMBER {
            return Err(AllocError);
        }
        self.there.put(number, Pass::idle())?;
        self.next = number + 1;
        Ok(number)
    }

    /// The pass has the services from now on. Takes no memory.
    pub fn check_out(&mut self, pass: u64)
        ensures { self.new ≡ checked_out self.old pass }
    {
        self.services = Some(pass);
    }

    /// No pass has the services any more. Takes no memory.
    pub fn check_in(&mut self)
        ensures { self.new ≡ checked_in self.old }
    {
        self.services = None;
    }

    /// The pass is gone. Refused where it has a rule, a job, an open batch or the services. Takes no memory.
    pub fn leave(&mut self, pass: u64) -> Result<(), PassBusy>
        ensures ok { OnOk result (self.new ≡ left self.old pass) }
        ensures idle { OnOk result (is_busy self.old pass ≡ false) }
        ensures busy { OnErr result (is_busy self.old pass ≡ true) }
        ensures quiet { is_quiet self.new ≡ is_quiet self.old }
        ensures same { OnErr result (self.new ≡ self.old) }
    {
        if self.is_busy(pass) {
            return Err(PassBusy);
        }
        self.there.remove(pass);
        Ok(())
    }

    /// Puts the rule on top of those of the pass, with the refusals of `RuleTable::begin`.
    pub fn begin(&mut self, pass: u64, rule: Rule<A>) -> Result<(), BeginError<A>>
        ensures ok { OnOk result (self.new ≡ begun self.old pass rule) }
        ensures admitted { OnOk result (IsTrue (admits A.contains A.conflicts self.old.rules pass rule)) }
        ensures refused { IfErr result (λ e. RefusesBegin A.contains A.conflicts self.old.rules pass rule e) }
        ensures same { OnErr result (self.new ≡ self.old) }
        ensures apart { IsApart A.contains A.conflicts self.new.rules }
    {
        self.rules.begin(pass, rule)
    }

    /// Takes the rule from the top of those of the pass, with the refusals of `RuleTable::end`. Takes no memory.
    pub fn end(&mut self, pass: u64, rule: &Rule<A>) -> Result<(), EndError>
        ensures ok { OnOk result (self.new ≡ ended self.old pass) }
        ensures last { OnOk result (last_rule pass self.old.rules ≡ Some rule.now) }
        ensures refused { IfErr result (λ e. RefusesEnd self.old.rules pass rule.now e) }
        ensures same { OnErr result (self.new ≡ self.old) }
        ensures apart { IsApart A.contains A.conflicts self.new.rules }
    {
        self.rules.end(pass, rule)
    }

    /// Hands all rules of the pass to another. Refused with `NoPass` where there is no such pass, else with
    /// `HoldsNothing` where the pass has no rule, else with `TargetHolds` where the other has one. Takes no memory.
    pub fn transfer(&mut self, pass: u64, to: u64) -> Result<(), TransferError>
        ensures ok { OnOk result (self.new ≡ transferred self.old pass to) }
        ensures there { OnOk result (has_pass self.old to ≡ true) }
        ensures holds { OnOk result (IsSome (last_rule pass self.old.rules) × (last_rule to self.old.rules ≡ None)) }
        ensures refused { IfErr result (λ e. RefusesTransfer self.old pass to e) }
        ensures same { OnErr result (self.new ≡ self.old) }
        ensures apart { OnOk result (IsApart A.contains A.conflicts self.new.rules) }
    {
        if !self.has(to) {
            return Err(TransferError::NoPass);
        }
        match self.rules.transfer(pass, to) {
            Ok(()) => Ok(()),
            Err(EndError::TargetHolds) => Err(TransferError::TargetHolds),
            Err(EndError::HoldsNothing | EndError::NotLast { .. }) => Err(
                TransferError::HoldsNothing,
            ),
        }
    }

    /// The pass has one more batch open. It is want of memory where it has 2^64 - 1 already. Takes no memory.
    pub fn begin_batch(&mut self, pass: u64) -> Result<(), NoMemory>
        requires { IsSome (map.get self.old.there pass) }
        ensures ok { OnOk result (self.new ≡ in_batch self.old pass) }
        ensures full { OnErr result (batches_of self.old pass ≡ 2 ^ 64 - 1) }
        ensures quiet { OnOk result (is_quiet self.new ≡ false) }
        ensures err { OnErr result (self.new ≡ self.old) }
    {
        let batches = self.batches(pass);
        let Some(more) = batches.checked_add(1) else {
            return Err(AllocError);
        };
        self.in_batch = with_one(self.in_batch, batches);
        self.there.set_batches(pass, more);
        Ok(())
    }

    /// The newest batch of the pass ends. Refused where it has none open. Takes no memory.
    pub fn end_batch(&mut self, pass: u64) -> Result<(), NoBatch>
        ensures ok { OnOk result (self.new ≡ out_of_batch self.old pass) }
        ensures some { OnOk result (batches_of self.old pass ≢ 0) }
        ensures none { OnErr result (batches_of self.old pass ≡ 0) }
        ensures same { OnErr result (self.new ≡ self.old) }
    {
        let batches = self.batches(pass);
        if batches == 0 {
            return Err(NoBatch);
        }
        self.in_batch = without_last(self.in_batch, batches);
        self.there.set_batches(pass, batches - 1);
        Ok(())
    }

    /// The pass, which is not busy, runs the job of this name, whose rule conflicts with none that is held, and holds the
    /// rule.
    pub fn run(&mut self, pass: u64, name: Name, rule: Rule<A>) -> Result<(), NoMemory>
        requires there { IsSome (map.get self.old.there pass) }
        requires idle { is_busy self.old pass ≡ false }
        requires free { is_free A.conflicts self.old.rules rule ≡ true }
        ensures ok { OnOk result (self.new ≡ running self.old pass name rule) }
        ensures quiet { is_quiet self.new ≡ is_quiet self.old }
        ensures err { OnErr result (self.new ≡ self.old) }
        ensures apart { IsApart A.contains A.conflicts self.new.rules }
    {
        match self.rules.begin(pass, rule) {
            Ok(()) => {
                self.there.set_job(pass, Some(name));
                Ok(())
            }
            Err(_) => {
                drop(name);
                Err(AllocError)
            }
        }
    }

    /// The job that the pass runs is over: the pass has neither a rule nor an open batch any more. Gives the job's name;
    /// none where the pass runs no job, and then all is as before. Takes no memory.
    pub fn finish(&mut self, pass: u64) -> Option<Name>
        ensures job { result ≡ job_of self.old pass }
        ensures finished { OnSome result (self.new ≡ finished self.old pass) }
        ensures none { IfNone result (self.new ≡ self.old) }
        ensures apart { OnSome result (IsApart A.contains A.conflicts self.new.rules) }
    {
        if self.job(pass).is_none() {
            return None;
        }
        let was = self.there.reset(pass);
        self.in_batch = without_all(self.in_batch, was.batches);
        self.rules.drop_all(pass);
        was.job
    }

    /// Equal passes, whose names share their texts.
    pub fn copy(&self) -> Result<Passes<A>, NoMemory>
        ensures { IfOk result (λ copy. copy ≡ self.now) }
    {
        Ok(Passes {
            next: self.next,
            there: self.there.copy()?,
            rules: self.rules.copy()?,
            services: self.services,
            in_batch: self.in_batch,
        })
    }
}

/// How many passes have an open batch, where one that has so many gets one more.
fn with_one(in_batch: u64, batches: u64) -> u64
    requires { in_batch < 2 ^ 63 + 1 }
    ensures { result ≡ (if batches == 0 then in_batch + 1 else in_batch) }
{
    if batches == 0 { in_batch + 1 } else { in_batch }
}

/// How many passes have an open batch, where one of them that has so many loses one.
fn without_last(in_batch: u64, batches: u64) -> u64
    requires { 0 < in_batch }
    ensures { result ≡ (if batches == 1 then in_batch - 1 else in_batch) }
{
    if batches == 1 { in_batch - 1 } else { in_batch }
}

/// How many passes have an open batch, where one that has so many loses them.
fn without_all(in_batch: u64, batches: u64) -> u64
    requires { (batches == 0) ≡ false → 0 < in_batch }
    ensures { result ≡ (if batches == 0 then in_batch else in_batch - 1) }
{
    if batches == 0 { in_batch } else { in_batch - 1 }
}
