//! Whether a rule contains that of an operation, told without making that.
ghost use Rattle.std.specs.Prelude.{◌≡◌, ◌&&◌, ◌||◌, nat_le, nat_lt};
ghost use Rattle.res_path.specs.Paths.{is_prefix};
ghost use Rattle.sched_rules.specs.Atoms.{atom_cmp, atom_contains};
ghost use Rattle.sched_rules.specs.Rules.{combined, covers, rule_contains};
ghost use Rattle.sched_rules.specs.declared.ws_atom.WsAtom.TheVariants as atoms;
ghost use Rattle.op_rule.specs.Rules.{operation_rule, at, up};

use op_kind::Op;
use res_path::Path;
use sched_rules::{Rule, WsAtom};

/// Whether the rule contains that of the operation. Costs a test or two for each atom of the rule, and no memory.
pub fn contains_operation(rule: &Rule<WsAtom>, op: &Op) -> bool
    ensures { result ≡ rule_contains atom_contains rule.now (operation_rule op.now) }
{
    match op {
        Op::CreateFile(path, _)
        | Op::CreateFolder(path)
        | Op::CreateProject(path)
        | Op::Delete(path)
        | Op::Copy(_, path) => contains_above(rule, path),
        Op::Write(path, _)
        | Op::Touch(path)
        | Op::Derived(path, _)
        | Op::Open(path)
        | Op::Close(path)
        | Op::Describe(path, _)
        | Op::Forget(path)
        | Op::Sync(path, _, _)
        | Op::Flush(path, _, _) => contains_at(rule, path),
        Op::Move(from, to) => contains_both(rule, from, to),
        Op::Mark(_, _, _)
        | Op::Attr(_, _, _, _)
        | Op::Unmark(_, _)
        | Op::ClearMarks(_, _, _)
        | Op::Partner(_)
        | Op::Read(_, _) => true,
    }
}

/// Whether the rule contains that of the path.
pub fn contains_at(rule: &Rule<WsAtom>, path: &Path) -> bool
    ensures { result ≡ rule_contains atom_contains rule.now (at path.now) }
{
    some_is_above(rule.atoms(), path)
}

/// Whether one of the atoms contains the path.
fn some_is_above(all: &[WsAtom], path: &Path) -> bool
    ensures { result ≡ covers atom_contains all.now (atoms.Path path.now) }
{
    all.iter().any(|atom| atom_is_above(atom, path))
}

/// Whether the atom contains the path.
fn atom_is_above(atom: &WsAtom, path: &Path) -> bool
    ensures { result ≡ atom_contains atom.now (atoms.Path path.now) }
{
    match atom {
        WsAtom::Path(outer) => outer.is_prefix_of(path),
        WsAtom::Mutex(_) | WsAtom::Lines { .. } => false,
    }
}

/// Whether the rule contains that of what is above the path.
fn contains_above(rule: &Rule<WsAtom>, path: &Path) -> bool
    ensures { result ≡ rule_contains atom_contains rule.now (at (up path.now)) }
{
    some_is_strictly_above(rule.atoms(), path)
}

/// Whether the rule contains that of what is above the one path, and that of what is above the other.
fn contains_both(rule: &Rule<WsAtom>, from: &Path, to: &Path) -> bool
    ensures { result ≡ rule_contains atom_contains rule.now
        (combined atom_cmp atom_contains (at (up from.now)) (at (up to.now))) }
{
    both(contains_above(rule, from), contains_above(rule, to))
}

fn both(one: bool, other: bool) -> bool
    ensures { result ≡ (one && other) }
{
    one && other
}

/// Whether one of the atoms contains what is above the path.
fn some_is_strictly_above(all: &[WsAtom], path: &Path) -> bool
    ensures { result ≡ covers atom_contains all.now (atoms.Path (up path.now)) }
{
    all.iter().any(|atom| atom_is_strictly_above(atom, path))
}

/// Whether the atom contains what is above the path.
fn atom_is_strictly_above(atom: &WsAtom, path: &Path) -> bool
    ensures { result ≡ atom_contains atom.now (atoms.Path (up path.now)) }
{
    match atom {
        WsAtom::Path(outer) => is_strictly_above(outer, path),
        WsAtom::Mutex(_) | WsAtom::Lines { .. } => false,
    }
}

/// Whether one path is what is above the other, or above that.
fn is_strictly_above(outer: &Path, path: &Path) -> bool
    ensures { result ≡ is_prefix outer.now (up path.now) }
{
    both(
        outer.is_prefix_of(path),
        is_higher(outer.depth(), path.depth()),
    )
}

/// Whether a prefix with so many names is what is above a path with so many, or above that.
fn is_higher(outer: usize, path: usize) -> bool
    ensures { result ≡ (nat_le path 1 || nat_lt outer path) }
{
    path <= 1 || outer < path
}
