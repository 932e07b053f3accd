//! Numbers that differ.
ghost use Rattle.std.specs.Prelude.{◌≡◌, ◌↔◌, ◌++◌, Ok, true, IsTrue, IfOk};
ghost use Rattle.save_valid.specs.Rules.{AllDiffer, nodes_of};
ghost use Rattle.save_valid.specs.Inside.Fresh.{Fresh, with_all};

use res_path::Name;
use std::alloc::Global;
use std::collections::BTreeMap;
use std::marker::Model;
use ws_elem::{ElemMap, NoMemory};

/// Numbers that were seen. A contract sees the finite set as a map.
#[derive(Drop)]
struct Seen {
    numbers: BTreeMap<u64, ()>,
}

impl Model for Seen {
    ghost use Rattle.std.specs.FinMap as map;
    ghost use Rattle.std.specs.Coded.{coded_ℕ};
    ghost use Rattle.save_valid.specs.Inside.Fresh.{Numbers, coded_unit};

    ghost Value = { Numbers };

    ghost coded = { map.code coded_ℕ coded_unit };

    ghost view = { λ s. map.from_entries s.numbers.entries };
}

impl Seen {
    ghost use Rattle.std.specs.Prelude.{◌≡◌, not, OnOk};
    ghost use Rattle.std.specs.FinMap as map;

    fn none(alloc: Global) -> Seen
        ensures { result ≡ map.empty }
    {
        Seen {
            numbers: BTreeMap::new(alloc),
        }
    }

    fn has(&self, n: u64) -> bool
        ensures { result ≡ map.contains_key self.now n }
    {
        self.numbers.get(&n).is_some()
    }

    fn put(&mut self, n: u64) -> Result<(), NoMemory>
        ensures { OnOk result (self.new ≡ map.insert self.old n tt) }
    {
        self.numbers.insert(n, ())?;
        Ok(())
    }
}

fn are_nodes_new(seen: &mut Seen, tree: &ElemMap) -> Result<bool, NoMemory>
    ensures is { IfOk result (λ is. IsTrue is ↔ Fresh seen.old (nodes_of tree.now.map)) }
    ensures all { result ≡ Ok true → seen.new ≡ with_all seen.old (nodes_of tree.now.map) }
{
    for (_path, element) in tree.iter() {
        if seen.has(element.node) {
            return Ok(false);
        }
        seen.put(element.node)?;
    }
    Ok(true)
}

/// Whether all node numbers of the tree differ.
pub fn do_own_nodes_differ(alloc: Global, tree: &ElemMap) -> Result<bool, NoMemory>
    ensures { IfOk result (λ is. IsTrue is ↔ AllDiffer (nodes_of tree.now.map)) }
{
    let mut seen = Seen::none(alloc);
    are_nodes_new(&mut seen, tree)
}

/// Whether all node numbers of the two trees differ.

pub fn do_nodes_differ(alloc: Global, one: &ElemMap, other: &ElemMap) -> Result<bool, NoMemory>
    ensures { IfOk result (λ is. IsTrue is ↔ AllDiffer (nodes_of one.now.map ++ nodes_of other.now.map)) }
{
    let mut seen = Seen::none(alloc);
    if !are_nodes_new(&mut seen, one)? {
        return Ok(false);
    }
    are_nodes_new(&mut seen, other)
}

/// Names that were seen. A contract sees the finite set of their texts as a map.
#[derive(Drop)]
struct SeenNames {
    names: BTreeMap<Name, ()>,
}

impl Model for SeenNames {
    ghost use Rattle.std.specs.FinMap as map;
    ghost use Rattle.std.specs.Coded.{coded_ℕ, coded_list};
    ghost use Rattle.save_valid.specs.Inside.Fresh.{Texts, coded_unit};

    ghost Value = { Texts };

    ghost coded = { map.code (coded_list coded_ℕ) coded_unit };

    ghost view = { λ s. map.from_entries s.names.entries };
}

impl SeenNames {
    ghost use Rattle.std.specs.Prelude.{◌≡◌, OnOk};
    ghost use Rattle.std.specs.FinMap as map;

    fn none(alloc: Global) -> SeenNames
        ensures { result ≡ map.empty }
    {
        SeenNames {
            names: BTreeMap::new(alloc),
        }
    }

    fn has(&self, name: &Name) -> bool
        ensures { result ≡ map.contains_key self.now name.now }
    {
        self.names.get(name).is_some()
    }

    fn put(&mut self, name: Name) -> Result<(), NoMemory>
        ensures { OnOk result (self.new ≡ map.insert self.old name tt) }
    {
        self.names.insert(name, ())?;
        Ok(())
    }
}

fn are_names_new(seen: &mut SeenNames, names: &[Name]) -> Result<bool, NoMemory>
    ensures { IfOk result (λ is. IsTrue is ↔ Fresh seen.old names.now) }
{
    for name in names {
        if seen.has(name) {
            return Ok(false);
        }
        seen.put(name.copy()?)?;
    }
    Ok(true)
}

/// Whether the names differ.
pub fn do_names_differ(alloc: Global, names: &[Name]) -> Result<bool, NoMemory>
    ensures { IfOk result (λ is. IsTrue is ↔ AllDiffer names.now) }
{
    let mut seen = SeenNames::none(alloc);
    are_names_new(&mut seen, names)
}
