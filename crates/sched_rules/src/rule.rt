//! Lists of atoms of which none contains another.
ghost use Rattle.std.specs.Prelude.{◌≡◌, ◌≢◌, ◌↔◌, ◌≤◌, List, [], ◌∷◌, length, not, IfOk, IfSome, IfNone, OnOk, IsTrue};
ghost use Rattle.std.specs.List.{filter, insert};
ghost use Rattle.sched_rules.specs.Rules.{IsRule, IsRising, rule_contains, rule_conflicts, covers, meets, has_wider, placed, all_placed, combined};

use crate::{Atom, NoMemory};
use std::alloc::Global;
use std::cmp::Ordering;
use std::marker::Model;

/// What a job asks to have to itself: atoms in their order, of which none contains another, as the platform's
/// `MultiRule`. The rule without atoms is the null rule. A contract sees the list of the atoms.
#[derive(Debug, Drop)]
pub struct Rule<A: Atom> {
    atoms: Vec<A>,
}

impl<A: Atom> Model for Rule<A> {
    ghost use Rattle.std.specs.Prelude.{List};
    ghost use Rattle.sched_rules.specs.Rules.{IsRule};

    ghost Value = { List A };

    ghost view = { λ r. r.atoms.items };

    ghost invariant = { λ r. IsRule A.cmp A.contains r.atoms.items };
}

impl<A: Atom> Rule<A> {
    /// The null rule, which every rule contains and which conflicts with none. It takes no memory.
    pub fn null(alloc: Global) -> Rule<A>
        ensures { result ≡ [] }
    {
        Rule {
            atoms: Vec::new(alloc),
        }
    }

    /// The rule of one atom.
    pub fn of(alloc: Global, atom: A) -> Result<Rule<A>, NoMemory>
        ensures { IfOk result (λ rule. rule ≡ atom ∷ []) }
    {
        let mut atoms = Vec::with_capacity(alloc, 1)?;
        atoms.push(atom)?;
        Ok(Rule { atoms })
    }

    /// Whether the rule has no atoms.
    pub fn is_null(&self) -> bool
        ensures { IsTrue result ↔ (self.now ≡ []) }
    {
        self.atoms.is_empty()
    }

    /// The atoms, in their order.
    pub fn atoms(&self) -> &[A]
        ensures atoms { result.now ≡ self.now }
        ensures form { IsRule A.cmp A.contains self.now }
    {
        self.atoms.as_slice()
    }

    /// Whether each atom of the other rule is contained in one of this. Costs at most one test for each pair of atoms.
    ///
    /// Rules contain one another as atoms do: each rule itself, two rules one another only where they are one, and
    /// what is in a rule is in each that contains it. A rule conflicts with each that it contains but the null rule,
    /// and with whatever conflicts with one that it contains.
    pub fn contains(&self, other: &Rule<A>) -> bool
        ensures value { result ≡ rule_contains A.contains self.now other.now }
        ensures itself { self.now ≡ other.now → IsTrue result }
        ensures both { IsTrue result → IsTrue (rule_contains A.contains other.now self.now) → self.now ≡ other.now }
        ensures through { (inner : List A) → IsTrue result → IsTrue (rule_contains A.contains other.now inner)
            → IsTrue (rule_contains A.contains self.now inner) }
        ensures conflict { IsTrue result → other.now ≢ [] → IsTrue (rule_conflicts A.conflicts self.now other.now) }
        ensures wider { (third : List A) → IsTrue result → IsTrue (rule_conflicts A.conflicts other.now third)
            → IsTrue (rule_conflicts A.conflicts self.now third) }
    {
        all_covered(self.atoms.as_slice(), other.atoms.as_slice())
    }

    /// Whether an atom of this rule conflicts with one of the other. Costs at most one test for each pair of atoms.
    ///
    /// Two rules conflict both ways round, and each rule with itself but the null rule.
    pub fn conflicts(&self, other: &Rule<A>) -> bool
        ensures value { result ≡ rule_conflicts A.conflicts self.now other.now }
        ensures back { result ≡ rule_conflicts A.conflicts other.now self.now }
        ensures itself { self.now ≡ other.now → self.now ≢ [] → IsTrue result }
    {
        some_meet(self.atoms.as_slice(), other.atoms.as_slice())
    }

    /// The atoms of both rules that no other atom of them contains, as the platform's `MultiRule.combine`: the least rule
    /// that contains both. An atom of the one is tested against an atom of the other at most once each way, and is put at
    /// its place from the end.
    pub fn combine(alloc: Global, a: &Rule<A>, b: &Rule<A>) -> Result<Rule<A>, NoMemory>
        ensures value { IfOk result (λ rule. rule ≡ combined A.cmp A.contains a.now b.now) }
        ensures upper { IfOk result (λ rule. IsTrue (rule_contains A.contains rule a.now)
            × IsTrue (rule_contains A.contains rule b.now)) }
        ensures least { (wide : List A) → IsTrue (rule_contains A.contains wide a.now)
            → IsTrue (rule_contains A.contains wide b.now) → IfOk result (λ rule. IsTrue (rule_contains A.contains wide rule)) }
    {
        let atoms = combined(alloc, a.atoms.as_slice(), b.atoms.as_slice())?;
        Ok(Rule { atoms })
    }

    /// An equal rule.
    pub fn copy(&self) -> Result<Rule<A>, NoMemory>
        ensures { IfOk result (λ copy. copy ≡ self.now) }
    {
        let atoms = copies(*self.atoms.allocator(), self.atoms.as_slice())?;
        Ok(Rule { atoms })
    }
}

/// Equal atoms, in a list of their own.
fn copies<A: Atom>(alloc: Global, atoms: &[A]) -> Result<Vec<A>, NoMemory>
    ensures { IfOk result (λ copies. copies.items ≡ atoms.now) }
{
    let mut copies = Vec::with_capacity(alloc, atoms.len())?;
    for atom in atoms {
        copies.push(atom.copy()?)?;
    }
    Ok(copies)
}

/// Whether one of these atoms contains this one.
fn covers<A: Atom>(atoms: &[A], atom: &A) -> bool
    ensures { result ≡ covers A.contains atoms.now atom.now }
{
    atoms.iter().any(|outer| outer.contains(atom))
}

/// Whether each of the other atoms is contained in one of these.
fn all_covered<A: Atom>(atoms: &[A], others: &[A]) -> bool
    ensures { result ≡ rule_contains A.contains atoms.now others.now }
{
    others.iter().all(|other| covers(atoms, other))
}

/// Whether one of these atoms conflicts with this one.
fn meets<A: Atom>(atoms: &[A], atom: &A) -> bool
    ensures { result ≡ meets A.conflicts atoms.now atom.now }
{
    atoms.iter().any(|one| one.conflicts(atom))
}

/// Whether one of the other atoms conflicts with one of these.
fn some_meet<A: Atom>(atoms: &[A], others: &[A]) -> bool
    ensures { result ≡ rule_conflicts A.conflicts atoms.now others.now }
{
    others.iter().any(|other| meets(atoms, other))
}

/// Whether another of these atoms contains this one.
fn has_wider<A: Atom>(atoms: &[A], atom: &A) -> bool
    ensures { result ≡ has_wider A.contains atoms.now atom.now }
{
    atoms
        .iter()
        .any(|outer| outer.contains(atom) && !atom.contains(outer))
}

/// The atoms of both lists that no other atom of them contains, in their order.
fn combined<A: Atom>(alloc: Global, a: &[A], b: &[A]) -> Result<Vec<A>, NoMemory>
    requires a { IsRule A.cmp A.contains a.now }
    requires b { IsRule A.cmp A.contains b.now }
    ensures { IfOk result (λ atoms. atoms.items ≡ combined A.cmp A.contains a.now b.now) }
{
    let mut atoms = Vec::new(alloc);
    add_outermost(&mut atoms, a, b)?;
    add_outermost(&mut atoms, b, a)?;
    Ok(atoms)
}

/// Puts those of the atoms at their places that no other of the others contains.
fn add_outermost<A: Atom>(placed: &mut Vec<A>, atoms: &[A], others: &[A]) -> Result<(), NoMemory>
    requires { IsRising A.cmp placed.old.items }
    ensures placed { OnOk result (placed.new.items ≡ all_placed A.cmp
        (filter (λ atom. not (has_wider A.contains others.now atom)) atoms.now) placed.old.items) }
    ensures rising { OnOk result (IsRising A.cmp placed.new.items) }
{
    for atom in atoms {
        if !has_wider(others, atom) {
            place(placed, atom.copy()?)?;
        }
    }
    Ok(())
}

/// Puts the atom at its place, unless it is there already.
fn place<A: Atom>(atoms: &mut Vec<A>, atom: A) -> Result<(), NoMemory>
    requires { IsRising A.cmp atoms.old.items }
    ensures placed { OnOk result (atoms.new.items ≡ placed A.cmp atom atoms.old.items) }
    ensures rising { OnOk result (IsRising A.cmp atoms.new.items) }
{
    if let Some(at) = place_of(atoms.as_slice(), &atom) {
        atoms.insert(at, atom)?;
    }
    Ok(())
}

/// Where the atom's place is, looked for from the end; none where it is there already.
fn place_of<A: Atom>(atoms: &[A], atom: &A) -> Option<usize>
    requires { IsRising A.cmp atoms.now }
    ensures there { IfNone result (placed A.cmp atom.now atoms.now ≡ atoms.now) }
    ensures at { IfSome result (λ at. (at ≤ length atoms.now) × (placed A.cmp atom.now atoms.now ≡ insert atoms.now at atom.now)) }
{
    let mut at = atoms.len();
    while at > 0 {
        match atom.cmp(&atoms[at - 1]) {
            Ordering::Less => at -= 1,
            Ordering::Equal => return None,
            Ordering::Greater => return Some(at),
        }
    }
    Some(0)
}

impl<A: Atom> Clone for Rule<A> {
    ghost use Rattle.std.specs.Prelude.{◌≡◌};

    ghost is_clone = { λ rule copy. copy ≡ rule };

    fn clone(&self) -> Result<Rule<A>, NoMemory> {
        self.copy()
    }
}

impl<A: Atom> PartialEq for Rule<A> {
    ghost use Rattle.std.specs.Cmp.Lexicographic.{pointwise, lists_equiv};
    ghost use Rattle.std.specs.Cmp.{partial_equiv_from_equiv};

    ghost eq = { pointwise A.eq };

    ghost laws = { partial_equiv_from_equiv (lists_equiv A.Eq.laws) };

    fn eq(&self, other: &Rule<A>) -> bool
        ensures value { result ≡ pointwise A.eq self.now other.now }
        ensures same { IsTrue result ↔ (self.now ≡ other.now) }
    {
        self.atoms.as_slice() == other.atoms.as_slice()
    }
}

impl<A: Atom> Eq for Rule<A> {
    ghost use Rattle.std.specs.Cmp.Lexicographic.{lists_equiv};

    ghost laws = { lists_equiv A.Eq.laws };
}
