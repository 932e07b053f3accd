//! What holds of each element of a tree.
ghost use Rattle.std.specs.Prelude.{◌↔◌, IsTrue, IfOk};
ghost use Rattle.std.specs.List.{AllByRecursion};
ghost use Rattle.std.specs.FinMap.{entries};
ghost use Rattle.res_path.specs.Paths.{Names};
ghost use Rattle.ws_elem.specs.declared.element.Element.{Element as ElementRecord};
ghost use Rattle.save_valid.specs.Rules.{Each};

use res_path::Path;
use ws_elem::{ElemMap, Element, NoMemory};

/// What may hold of an element at its path.
pub trait Test {
    ghost holds: { Self → Names → ElementRecord → Type 0 };

    /// Whether it holds.
    fn is_met(&self, path: &Path, element: &Element) -> Result<bool, NoMemory>
        ensures { IfOk result (λ is. IsTrue is ↔ holds self.now path.now element.now) };
}

/// Whether it holds of each element of the tree.
pub fn is_each<T: Test>(tree: &ElemMap, test: &T) -> Result<bool, NoMemory>
    ensures { IfOk result (λ is. IsTrue is ↔ Each (T.holds test.now) tree.now.map) }
{
    pass_each(tree, test)
}

fn pass_each<T: Test>(tree: &ElemMap, test: &T) -> Result<bool, NoMemory>
    ensures { IfOk result (λ is. IsTrue is ↔ AllByRecursion (λ e. T.holds test.now e.0 e.1) (entries tree.now.map)) }
{
    for (path, element) in tree.iter() {
        if !test.is_met(path, element)? {
            return Ok(false);
        }
    }
    Ok(true)
}
