//! A tree with marks, as a tree that remembers.
ghost use Rattle.std.specs.Prelude.{◌≡◌, ◌<◌, IfOk, IfSome};
ghost use Rattle.elem_tree.specs.Layers.{tree_at};
ghost use Rattle.layer_log.specs.Records.{Leads};

use crate::{NoMemory, Remembers};
use delta_kind::Delta;
use delta_make::delta_of;
use elem_tree::{LayerTree, Mark};
use layer_log::{Changes, Steps};
use std::alloc::Global;
use std::marker::Brand;
use std::sync::ledger::{Blank, Ledger};
use ws_elem::ElemMap;

impl Remembers for LayerTree {
    type Memory = Mark;

    ghost number = { λ mark. mark };

    /// Costs a copy of the elements with room, and of no others.
    fn remember(&mut self, alloc: Global) -> Result<Mark, NoMemory> {
        self.seal(alloc)
    }

    /// Costs what was recorded since the mark; no tree is walked and none copied.
    fn since(&self, alloc: Global, from: &Mark) -> Result<Delta, NoMemory> {
        let changes = uncounted::<Brand>(self, alloc, from, Blank::new(1))?;
        delta_of(alloc, &changes)
    }

    fn at(&self, alloc: Global, memory: &Mark) -> Result<ElemMap, NoMemory> {
        LayerTree::at(self, alloc, memory)
    }

    fn forget(&mut self, alloc: Global, memory: Mark) -> Result<(), (NoMemory, Mark)> {
        LayerTree::forget(self, alloc, memory)
    }
}

/// The changes since the mark, whose steps nobody asks for.
fn uncounted<L: Ledger>(
    tree: &LayerTree,
    alloc: Global,
    from: &Mark,
    blank: Blank,
) -> Result<Changes, NoMemory>
    requires name { blank.name ≡ L.name }
    requires parts { blank.parts ≡ L.parts }
    requires some { 0 < blank.parts }
    ensures { IfOk result (λ changes. IfSome (tree_at tree.now from.now) (λ t. Leads t changes tree.now.map)) }
{
    let mut steps = Steps::<L>::start(blank);
    tree.between(alloc, from, &mut steps)
}
