//! Equal stamps mean equal contents.
ghost use Rattle.std.specs.Prelude.{◌≡◌, ◌↔◌, ◌∷◌, [], Ok, true, map, IsTrue, IfOk};
ghost use Rattle.std.specs.FinMap.{values};
ghost use Rattle.ws_elem.specs.Stamps.{AgreeByStamps};
ghost use Rattle.save_valid.specs.Rules.{maps_at};
ghost use Rattle.save_valid.specs.Inside.Contents.{Agree, AgreesWith, all_elements, kept, kept_all};

use bytes::Bytes;
use std::alloc::Global;
use std::collections::BTreeMap;
use std::marker::Model;
use ws_elem::{ElemMap, Element, NoMemory};

/// The contents of files by their stamps. A contract sees the finite map.
#[derive(Drop)]
struct Contents {
    table: BTreeMap<u64, Bytes>,
}

impl Model for Contents {
    ghost use Rattle.std.specs.FinMap as map;
    ghost use Rattle.std.specs.Coded.{coded_ℕ, coded_list};
    ghost use Rattle.save_valid.specs.Inside.Contents.{Known};

    ghost Value = { Known };

    ghost coded = { map.code coded_ℕ (coded_list coded_ℕ) };

    ghost view = { λ c. map.from_entries c.table.entries };
}

impl Contents {
    ghost use Rattle.std.specs.Prelude.{◌≡◌, ◌↔◌, Ok, true, IsTrue, IfOk, OnOk};
    ghost use Rattle.std.specs.Option.{option_copied};
    ghost use Rattle.std.specs.FinMap as map;
    ghost use Rattle.save_valid.specs.Inside.Contents.{AgreesWith, kept};

    fn none(alloc: Global) -> Contents
        ensures { result ≡ map.empty }
    {
        Contents {
            table: BTreeMap::new(alloc),
        }
    }

    fn get(&self, stamp: u64) -> Option<&Bytes>
        ensures { option_copied result ≡ map.get self.now stamp }
    {
        self.table.get(&stamp)
    }

    fn put(&mut self, stamp: u64, bytes: Bytes) -> Result<(), NoMemory>
        ensures { OnOk result (self.new ≡ map.insert self.old stamp bytes) }
    {
        self.table.insert(stamp, bytes)?;
        Ok(())
    }

    /// Keeps the contents of a file. Whether they are those that are known of its stamp, if any are.
    fn keep(&mut self, element: &Element) -> Result<bool, NoMemory>
        ensures is { IfOk result (λ is. IsTrue is ↔ AgreesWith self.old element.now) }
        ensures kept { result ≡ Ok true → self.new ≡ kept self.old element.now }
    {
        if !element.kind.is_file() {
            return Ok(true);
        }
        match self.get(element.stamp) {
            Some(bytes) => Ok(*bytes == element.bytes),
            None => {
                self.put(element.stamp, element.bytes.clone()?)?;
                Ok(true)
            }
        }
    }
}

fn keep_tree(contents: &mut Contents, tree: &ElemMap) -> Result<bool, NoMemory>
    ensures is { IfOk result (λ is. IsTrue is ↔ Agree contents.old (values tree.now.map)) }
    ensures kept { result ≡ Ok true → contents.new ≡ kept_all contents.old (values tree.now.map) }
{
    for (_path, element) in tree.iter() {
        if !contents.keep(element)? {
            return Ok(false);
        }
    }
    Ok(true)
}

fn keep_trees(contents: &mut Contents, trees: &[&ElemMap]) -> Result<bool, NoMemory>
    ensures { IfOk result (λ is. IsTrue is ↔ Agree contents.old (all_elements (maps_at trees.now))) }
{
    for tree in trees {
        if !keep_tree(contents, tree)? {
            return Ok(false);
        }
    }
    Ok(true)
}

/// Whether files of these trees with equal stamps have equal contents.
pub fn do_contents_agree(alloc: Global, trees: &[&ElemMap]) -> Result<bool, NoMemory>
    ensures { IfOk result (λ is. IsTrue is ↔ AgreeByStamps (maps_at trees.now)) }
{
    let mut contents = Contents::none(alloc);
    keep_trees(&mut contents, trees)
}
