//! A path with its entries before and after.
ghost use Rattle.std.specs.Prelude.{◌≡◌, ◌==◌, if◌then◌else◌, Some, None};
ghost use Rattle.std.specs.Option.{option_copied};
ghost use Rattle.delta_kind.specs.Rows.{lost};

use crate::flags;
use res_path::Path;
use ws_elem::Element;

/// What a path does to a node: it has it only before, or only after.
#[derive(Clone, Copy, Debug)]
pub enum Turn {
    Lost,
    Gained,
}

/// A path with its entries before and after. Nothing is copied.
#[derive(Clone, Copy, Debug)]
pub struct Row<'a> {
    pub path: &'a Path,
    pub before: Option<&'a Element>,
    pub after: Option<&'a Element>,
}

impl<'a> Row<'a> {
    ghost use Rattle.std.specs.Prelude.{◌≡◌};
    ghost use Rattle.delta_kind.specs.Flags.{differs};
    ghost use Rattle.delta_kind.specs.Rows.{shown, turned};

    /// Whether the path came, went or has a flag.
    pub fn differs(&self) -> bool
        ensures { result ≡ differs (shown self.now).1.0 (shown self.now).1.1 }
    {
        flags::differs(self.before, self.after)
    }

    /// The node that the path loses, or that it gains.
    pub fn turned(&self, turn: Turn) -> Option<u64>
        ensures { result ≡ turned turn (shown self.now).1 }
    {
        match turn {
            Turn::Lost => lost(self.before, self.after),
            Turn::Gained => lost(self.after, self.before),
        }
    }
}

/// The node of the first element, unless the second has it too.
fn lost(first: Option<&Element>, second: Option<&Element>) -> Option<u64>
    ensures { result ≡ lost (option_copied first.entry) (option_copied second.entry) }
{
    match (first, second) {
        (Some(a), Some(b)) => unless_same(a.node, b.node),
        (Some(a), None) => Some(a.node),
        (None, _) => None,
    }
}

fn unless_same(node: u64, other: u64) -> Option<u64>
    ensures { result ≡ (if node == other then None else Some node) }
{
    if node == other { None } else { Some(node) }
}
