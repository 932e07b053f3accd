//! The words of a rule.
ghost use Rattle.std.specs.Prelude.{◌≡◌, ◌++◌, codes, IfOk, OnOk};
ghost use Rattle.std.specs.List.{flat_map};
ghost use Rattle.report_text.specs.Rules.{atom_words, rule_words};

use crate::NoMemory;
use crate::put::{put_counted, put_named, put_path, put_text};
use sched_rules::{Rule, WsAtom};
use std::alloc::Global;

/// The words of a rule.
pub fn rule_words(alloc: Global, rule: &Rule<WsAtom>) -> Result<Vec<u8>, NoMemory>
    ensures { IfOk result (λ text. text.items ≡ rule_words rule.now) }
{
    let mut out = Vec::new(alloc);
    put_rule(&mut out, rule)?;
    Ok(out)
}

/// Appends the words of a rule: its atoms in their order, as a script has them, a space between; `null` for the null
/// rule.
pub fn put_rule(out: &mut Vec<u8>, rule: &Rule<WsAtom>) -> Result<(), NoMemory>
    ensures { OnOk result (out.new.items ≡ out.old.items ++ rule_words rule.now) }
{
    match rule.atoms().split_first() {
        None => put_text(out, "null"),
        Some((first, others)) => {
            put_atom(out, first)?;
            put_others(out, others)
        }
    }
}

fn put_others(out: &mut Vec<u8>, atoms: &[WsAtom]) -> Result<(), NoMemory>
    ensures { OnOk result (out.new.items ≡ out.old.items ++ flat_map (λ other. codes " " ++ atom_words other) atoms.now) }
{
    for atom in atoms {
        put_text(out, " ")?;
        put_atom(out, atom)?;
    }
    Ok(())
}

fn put_atom(out: &mut Vec<u8>, atom: &WsAtom) -> Result<(), NoMemory>
    ensures { OnOk result (out.new.items ≡ out.old.items ++ atom_words atom.now) }
{
    match atom {
        WsAtom::Path(path) => put_path(out, "path ", path),
        WsAtom::Mutex(name) => put_named(out, "mutex ", name.text().as_bytes()),
        WsAtom::Lines { file, from, to } => {
            put_path(out, "lines ", file)?;
            put_counted(out, " ", u64::from(*from))?;
            put_counted(out, " ", u64::from(*to))
        }
    }
}
