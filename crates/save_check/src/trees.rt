//! Whether trees can be told.
ghost use Rattle.std.specs.Prelude.{◌↔◌, IsTrue, IfOk, IfSome};
ghost use Rattle.std.specs.Option.{option_copied, option_map};
ghost use Rattle.save_read.specs.Sayable.{IsSayableTree};
ghost use Rattle.save_check.specs.Inside.Tellable.{IsTellable, AreInRange};

use crate::elements::is_sound;
use res_path::Path;
use save_elem::is_narrow;
use save_valid::{Test, is_each};
use ws_elem::{ElemMap, Element, NoMemory};

/// An element is sound by itself, and can be written.
#[derive(Clone, Copy, Debug)]
struct Tellable;

impl Test for Tellable {
    ghost use Rattle.save_check.specs.Inside.Tellable.{IsTellable};

    ghost holds = { λ _. IsTellable };

    fn is_met(&self, path: &Path, element: &Element) -> Result<bool, NoMemory> {
        Ok(is_tellable(path, element))
    }
}

fn is_tellable(path: &Path, element: &Element) -> bool
    ensures { IsTrue result ↔ IsTellable path.now element.now }
{
    // Its text tells that it is a path.
    let _text = path.as_str();
    is_narrow(element) && is_sound(element)
}

/// Whether the tree has at most 1,048,576 elements, and each can be told. It asks that their numbers have room in their
/// fields.
pub fn is_tree_sayable(tree: &ElemMap) -> Result<bool, NoMemory>
    requires { AreInRange tree.now.map }
    ensures { IfOk result (λ is. IsTrue is ↔ IsSayableTree tree.now.map) }
{
    if tree.len() > 1_048_576 {
        return Ok(false);
    }
    is_each(tree, &Tellable)
}

/// The same of a tree that may be there.
pub fn is_kept_tree_sayable(tree: Option<&ElemMap>) -> Result<bool, NoMemory>
    requires { IfSome (option_map (λ t. t.map) (option_copied tree)) AreInRange }
    ensures { IfOk result (λ is. IsTrue is ↔ IfSome (option_map (λ t. t.map) (option_copied tree.entry)) IsSayableTree) }
{
    match tree {
        None => Ok(true),
        Some(tree) => is_tree_sayable(tree),
    }
}
