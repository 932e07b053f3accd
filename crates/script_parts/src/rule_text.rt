//! How rules are printed.
ghost use Rattle.std.specs.Prelude.{◌≡◌, ◌≤◌, ◌++◌, [], ◌∷◌, OnOk};
ghost use Rattle.std.specs.List.{flat_map, AllByRecursion};
ghost use Rattle.script_words.specs.Words.{Grows};
ghost use Rattle.script_parts.specs.Parts.{a_number, atom_parts, rule_parts, rule_read};
ghost use Rattle.script_parts.specs.RuleLines.{HasLines};
ghost use Rattle.script_parts.specs.Inside.Printed.{AreParts, spaced};

use crate::part_text::{name_word, path_word, put_next, put_number};
use crate::{NoMemory, ScriptRule};
use sched_rules::WsAtom;

/// Appends a rule, with a space in front of each of its words. After want of memory a part of it may have been appended,
/// and what stood there before stays in front.
pub fn put_rule(out: &mut Vec<u8>, rule: &ScriptRule) -> Result<(), NoMemory>
    ensures text { OnOk result (out.new.items ≡ out.old.items ++ spaced (rule_parts rule.now)) }
    ensures kept { Grows out.old.items out.new.items }
    ensures parts { OnOk result (AreParts (rule_parts rule.now)) }
    ensures same { rule_read rule.now ≡ rule.now }
{
    let atoms = rule.as_rule().atoms();
    if atoms.is_empty() {
        return put_next(out, b"null");
    }
    put_atoms(out, atoms)
}

fn put_atoms(out: &mut Vec<u8>, atoms: &[WsAtom]) -> Result<(), NoMemory>
    requires { AllByRecursion HasLines atoms.now }
    ensures text { OnOk result (out.new.items ≡ out.old.items ++ spaced (flat_map atom_parts atoms.now)) }
    ensures kept { Grows out.old.items out.new.items }
    ensures parts { OnOk result (AreParts (flat_map atom_parts atoms.now)) }
{
    for atom in atoms {
        put_atom(out, atom)?;
    }
    Ok(())
}

fn put_atom(out: &mut Vec<u8>, atom: &WsAtom) -> Result<(), NoMemory>
    ensures text { OnOk result (out.new.items ≡ out.old.items ++ spaced (atom_parts atom.now)) }
    ensures kept { Grows out.old.items out.new.items }
    ensures parts { OnOk result (HasLines atom.now → AreParts (atom_parts atom.now)) }
{
    match atom {
        WsAtom::Path(path) => {
            put_next(out, b"path")?;
            put_next(out, path_word(path))
        }
        WsAtom::Mutex(name) => {
            put_next(out, b"mutex")?;
            put_next(out, name_word(name))
        }
        WsAtom::Lines { file, from, to } => {
            put_next(out, b"lines")?;
            put_next(out, path_word(file))?;
            put_range(out, *from, *to)
        }
    }
}

/// Appends the numbers of a range of lines.
fn put_range(out: &mut Vec<u8>, from: u32, to: u32) -> Result<(), NoMemory>
    ensures text { OnOk result (out.new.items ≡ out.old.items ++ spaced (a_number 32 0 from ∷ a_number 32 from to ∷ [])) }
    ensures kept { Grows out.old.items out.new.items }
    ensures parts { from ≤ to → AreParts (a_number 32 0 from ∷ a_number 32 from to ∷ []) }
{
    put_number(out, u64::from(from))?;
    put_number(out, u64::from(to))
}
