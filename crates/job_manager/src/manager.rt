//! Jobs and passes.
ghost use Rattle.std.specs.Prelude.{◌≡◌, false, IfOk};
ghost use Rattle.std.specs.Option.{option_map_or};
ghost use Rattle.sched_rules.specs.Atoms.{atom_contains};
ghost use Rattle.sched_rules.specs.Rules.{rule_contains};
ghost use Rattle.rule_table.specs.Tables.{outer_rule};
ghost use Rattle.op_rule.specs.Rules.{operation_rule};
ghost use Rattle.job_manager.specs.Managers.{first_manager};
ghost use Rattle.job_manager.specs.Admission.{admission};

use crate::NoMemory;
use core_event::{Refusal, WsRule};
use job_queue::JobQueue;
use op_kind::Op;
use op_rule::{contains_operation, operation_rule};
use pass_table::Passes;
use rule_table::BeginError;
use sched_rules::WsAtom;
use std::alloc::{AllocError, Global};

/// The jobs of a workspace, and the passes that work on it with what each has.
#[derive(Debug, Drop)]
pub struct JobManager {
    pub jobs: JobQueue<WsAtom>,
    pub passes: Passes<WsAtom>,
}

impl JobManager {
    /// What there is when a workspace is opened: no job was ever scheduled, and pass 0 is there.
    pub fn first(alloc: Global) -> Result<JobManager, NoMemory>
        ensures { IfOk result (λ manager. manager ≡ first_manager) }
    {
        Ok(JobManager {
            jobs: JobQueue::empty(alloc),
            passes: Passes::first(alloc)?,
        })
    }

    /// Why the pass may not do the operation under the rules that are held, if it may not: its topmost rule that isn't
    /// null doesn't contain the operation's rule, or, where it has none such, another pass has a rule that conflicts. The
    /// operation's rule is made only where the pass has no such topmost rule, or it is refused.
    pub fn operation_admission(
        &self,
        alloc: Global,
        pass: u64,
        op: &Op,
    ) -> Result<Option<Refusal>, NoMemory>
        ensures { IfOk result (λ r. r ≡ admission self.now.passes.rules pass (operation_rule op.now)) }
    {
        if self.contains_operation(pass, op) {
            return Ok(None);
        }
        let rule = operation_rule(alloc, op)?;
        self.rule_admission(pass, &rule)
    }

    /// Whether the topmost rule of the pass that isn't null contains that of the operation.
    fn contains_operation(&self, pass: u64, op: &Op) -> bool
        ensures { result ≡ option_map_or (λ outer. rule_contains atom_contains outer (operation_rule op.now))
            (outer_rule pass self.now.passes.rules) false }
    {
        match self.passes.rules().outer(pass) {
            None => false,
            Some(outer) => contains_operation(outer, op),
        }
    }

    /// Why the pass may not have the rule, if it may not.
    fn rule_admission(&self, pass: u64, rule: &WsRule) -> Result<Option<Refusal>, NoMemory>
        ensures { IfOk result (λ r. r ≡ admission self.now.passes.rules pass rule.now) }
    {
        match self.passes.rules().admit(pass, rule) {
            Ok(()) => Ok(None),
            Err(BeginError::NotContained { outer }) => Ok(Some(Refusal::NotContained(outer))),
            Err(BeginError::Conflict { holder, rule }) => Ok(Some(Refusal::Conflict(holder, rule))),
            Err(BeginError::Memory) => Err(AllocError),
        }
    }

    /// Equal jobs and passes, which share their texts.
    pub fn copy(&self) -> Result<JobManager, NoMemory>
        ensures { IfOk result (λ copy. copy ≡ self.now) }
    {
        let passes = self.passes.copy()?;
        Ok(JobManager {
            jobs: self.jobs.copy()?,
            passes,
        })
    }
}
