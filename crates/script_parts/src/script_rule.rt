//! Rules as scripts name them.
ghost use Rattle.std.specs.Prelude.{◌≡◌, false, IsTrue, [], IfOk, MatchOption};
ghost use Rattle.script_parts.specs.RuleLines.{has_lines, can_be_named};

use crate::NoMemory;
use sched_rules::{Rule, WsAtom};
use std::alloc::Global;
use std::marker::Model;

/// A rule that a script can name: each of its ranges of lines has a line. A contract sees the list of the atoms.
#[derive(Drop)]
pub struct ScriptRule {
    rule: Rule<WsAtom>,
}

impl Model for ScriptRule {
    ghost use Rattle.std.specs.Prelude.{List, IsTrue};
    ghost use Rattle.sched_rules.specs.declared.ws_atom.WsAtom.{WsAtom};
    ghost use Rattle.script_parts.specs.RuleLines.{can_be_named};

    ghost Value = { List WsAtom };

    ghost view = { λ r. r.rule };

    ghost invariant = { λ r. IsTrue (can_be_named r.rule) };
}

impl ScriptRule {
    /// The null rule. It takes no memory.
    pub fn null(alloc: Global) -> ScriptRule
        ensures { result ≡ [] }
    {
        ScriptRule::named(Rule::null(alloc))
    }

    /// This rule, or none where one of its ranges of lines ends before it begins: no text spells such a rule.
    pub fn of(rule: Rule<WsAtom>) -> Option<ScriptRule>
        ensures { MatchOption result (can_be_named rule ≡ false) (λ named. (named ≡ rule) × IsTrue (can_be_named rule)) }
    {
        if all_have_lines(rule.atoms()) {
            Some(ScriptRule::named(rule))
        } else {
            None
        }
    }

    /// This rule, each of whose ranges of lines has a line.
    pub(crate) fn named(rule: Rule<WsAtom>) -> ScriptRule
        requires { IsTrue (can_be_named rule) }
        ensures { result ≡ rule }
    {
        ScriptRule { rule }
    }

    /// The rule.
    pub fn as_rule(&self) -> &Rule<WsAtom>
        ensures rule { result.now ≡ self.now }
        ensures lines { IsTrue (can_be_named self.now) }
    {
        &self.rule
    }

    /// The rule, taken.
    pub fn into_rule(self) -> Rule<WsAtom>
        ensures rule { result ≡ self }
        ensures lines { IsTrue (can_be_named self) }
    {
        let ScriptRule { rule } = self;
        rule
    }

    /// An equal rule, which shares its texts.
    pub fn copy(&self) -> Result<ScriptRule, NoMemory>
        ensures { IfOk result (λ copy. copy ≡ self.now) }
    {
        Ok(ScriptRule::named(self.rule.copy()?))
    }
}

/// Whether each of the atoms that is a range of lines has a line.
fn all_have_lines(atoms: &[WsAtom]) -> bool
    ensures { result ≡ can_be_named atoms.now }
{
    atoms.iter().all(|atom| has_lines(atom))
}

/// Whether the atom, where it is a range of lines, has a line.
fn has_lines(atom: &WsAtom) -> bool
    ensures { result ≡ has_lines atom.now }
{
    match atom {
        WsAtom::Path(_) | WsAtom::Mutex(_) => true,
        WsAtom::Lines { from, to, .. } => *from <= *to,
    }
}
