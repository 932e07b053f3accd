//! The rule of an operation.
ghost use Rattle.std.specs.Prelude.{◌≡◌, IfOk};
ghost use Rattle.sched_rules.specs.Atoms.{atom_cmp, atom_contains};
ghost use Rattle.sched_rules.specs.Rules.{combined};
ghost use Rattle.op_rule.specs.Rules.{operation_rule, at, up};

use op_kind::Op;
use res_path::{NoMemory, Path};
use sched_rules::{Rule, WsAtom};
use std::alloc::Global;

/// The rule by which the operation is admitted, as the platform's `IResourceRuleFactory` tells it: what is made, removed
/// or moved has the rule of what is above it, a project its own; other changes have the rule of the resource; and what
/// only reads, or concerns markers or the partners, has the null rule.
pub fn operation_rule(alloc: Global, op: &Op) -> Result<Rule<WsAtom>, NoMemory>
    ensures { IfOk result (λ rule. rule ≡ operation_rule op.now) }
{
    match op {
        Op::CreateFile(path, _)
        | Op::CreateFolder(path)
        | Op::CreateProject(path)
        | Op::Delete(path)
        | Op::Copy(_, path) => rule_above(alloc, path),
        Op::Write(path, _)
        | Op::Touch(path)
        | Op::Derived(path, _)
        | Op::Open(path)
        | Op::Close(path)
        | Op::Describe(path, _)
        | Op::Forget(path)
        | Op::Sync(path, _, _)
        | Op::Flush(path, _, _) => rule_at(alloc, path),
        Op::Move(from, to) => rule_above_both(alloc, from, to),
        Op::Mark(_, _, _)
        | Op::Attr(_, _, _, _)
        | Op::Unmark(_, _)
        | Op::ClearMarks(_, _, _)
        | Op::Partner(_)
        | Op::Read(_, _) => Ok(Rule::null(alloc)),
    }
}

/// The rule of what is at the path and below it.
fn rule_at(alloc: Global, path: &Path) -> Result<Rule<WsAtom>, NoMemory>
    ensures { IfOk result (λ rule. rule ≡ at path.now) }
{
    Rule::of(alloc, WsAtom::Path(path.copy()?))
}

/// The rule of what is above the path.
fn rule_above(alloc: Global, path: &Path) -> Result<Rule<WsAtom>, NoMemory>
    ensures { IfOk result (λ rule. rule ≡ at (up path.now)) }
{
    Rule::of(alloc, WsAtom::Path(up(path)?))
}

/// The rule of what is above the one path and of what is above the other.
fn rule_above_both(alloc: Global, from: &Path, to: &Path) -> Result<Rule<WsAtom>, NoMemory>
    ensures { IfOk result (λ rule. rule ≡ combined atom_cmp atom_contains (at (up from.now)) (at (up to.now))) }
{
    Rule::combine(alloc, &rule_above(alloc, from)?, &rule_above(alloc, to)?)
}

/// What is above the path; a project and the root have nothing above them but themselves.
fn up(path: &Path) -> Result<Path, NoMemory>
    ensures { IfOk result (λ above. above ≡ up path.now) }
{
    if path.depth() == 1 {
        return path.copy();
    }
    match path.parent()? {
        None => Ok(Path::root()),
        Some(parent) => Ok(parent),
    }
}
