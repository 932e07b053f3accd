//! A tree as what changes are told against.
ghost use Rattle.std.specs.Prelude.{◌≡◌, ◌↔◌, IsTrue, IfSome};
ghost use Rattle.std.specs.Option.{option_copied, option_map};
ghost use Rattle.save_elem.specs.Telling.{told, IsNarrow};
ghost use Rattle.save_state.specs.Entries.{spell_entry};
ghost use Rattle.save_build.specs.Told.{AllNarrow};

use res_path::Path;
use save_sink::Same;
use save_state::{Base, put_entry};
use std::marker::Model;
use ws_elem::{ElemMap, Element};

/// A tree as what changes are told against. Each element of it can be written. A contract sees the finite map.
#[derive(Debug, Drop)]
pub struct BaseTree<'a> {
    tree: &'a ElemMap,
}

impl<'a> Model for BaseTree<'a> {
    ghost use Rattle.std.specs.FinMap as map;
    ghost use Rattle.ws_elem.specs.RoomyTrees.{names_code};
    ghost use Rattle.ws_elem.specs.Trees.{Tree};
    ghost use Rattle.ws_elem.specs.contracts.element.Element as element;
    ghost use Rattle.save_build.specs.Told.{AllNarrow};

    ghost Value = { Tree };

    ghost coded = { map.code names_code element.the_row.coded };

    ghost view = { λ b. b.tree.now.map };

    ghost invariant = { λ b. AllNarrow b.tree.now.map };
}

impl<'a> BaseTree<'a> {
    /// This tree. Asks that each element of it can be written.
    pub fn of(tree: &'a ElemMap) -> BaseTree<'a>
        requires { AllNarrow tree.now.map }
        ensures { result ≡ tree.now.map }
    {
        BaseTree { tree }
    }
}

impl<'a> Base for BaseTree<'a> {
    ghost use Rattle.save_build.specs.Told.{told_tree};

    ghost entries = { told_tree };

    fn is_own(&self, path: &Path, entry: &[u8]) -> bool {
        is_spelled(self.tree.get(path), entry)
    }
}

#[tactic(auto, using(save_sink::proofs::Fronts::whole))]
fn is_spelled(entry: Option<&Element>, bytes: &[u8]) -> bool
    requires { IfSome (option_copied entry) (λ e. IsNarrow (told e)) }
    ensures { IsTrue result ↔ (bytes.now ≡ spell_entry (option_map told (option_copied entry.entry))) }
{
    let mut sink = Same::of(bytes);
    match put_entry(&mut sink, entry) {
        Ok(()) => sink.is_whole(),
        Err(never) => match never {},
    }
}
