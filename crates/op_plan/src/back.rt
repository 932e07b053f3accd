//! The way back before an operation.
ghost use Rattle.std.specs.Prelude.{◌≡◌};
ghost use Rattle.op_plan.specs.Backs.{taken_back, way_to};
ghost use Rattle.op_plan.specs.Edits.{HasRooms};
ghost use Rattle.op_kind.specs.Resources.{resources};

use crate::edits::Earlier;
use crate::{OpAnswer, Side};
use std::marker::Model;
use ws_elem::TreeRep;

/// The way back before an operation: what stood at the paths that it changed, the earlier counters, and
/// how many partners there were.
#[derive(Drop)]
pub struct Back {
    tree: Earlier,
    shelf: Earlier,
    next_node: u64,
    next_stamp: u64,
    next_marker: u64,
    partners: usize,
}

impl Model for Back {
    ghost use Rattle.std.specs.Coded.{coded×, coded_option, coded_list, coded_ℕ};
    ghost use Rattle.ws_elem.specs.contracts.element.Element as element;
    ghost use Rattle.op_plan.specs.Backs.{Way, way_code};

    ghost Value = { Way };

    ghost coded = { way_code (coded_list (coded× (coded_list (coded_list coded_ℕ)) (coded_option element.the_row.coded))) };

    ghost view = { λ b. record { tree = b.tree; shelf = b.shelf; next_node = b.next_node; next_stamp = b.next_stamp; next_marker = b.next_marker; partners = b.partners } };
}

impl Back {
    /// The way back to these counters and so many partners, by what stood in the tree and on the shelf.
    pub fn to(side: &Side, partners: usize, tree: Earlier, shelf: Earlier) -> Back
        ensures { result ≡ way_to side.now partners tree shelf }
    {
        Back {
            tree,
            shelf,
            next_node: side.next_node,
            next_stamp: side.next_stamp,
            next_marker: side.next_marker,
            partners,
        }
    }

    /// Leads back: what stood at the paths is put back, and the counters and partners are the earlier ones. It takes no
    /// memory.
    pub fn lead<T: TreeRep>(self, tree: &mut T, side: &mut Side)
        requires tree { HasRooms (T.room tree.old) self.tree }
        requires shelf { HasRooms side.old.shelf.room self.shelf }
        ensures resources { resources (T.tree tree.new) side.new ≡ taken_back (resources (T.tree tree.old) side.old) self }
        ensures room { T.room tree.new ≡ T.room tree.old }
        ensures remembered { T.remembered tree.new ≡ T.remembered tree.old }
        ensures shelf_room { side.new.shelf.room ≡ side.old.shelf.room }
    {
        let Back {
            tree: tree_entries,
            shelf: shelf_entries,
            next_node,
            next_stamp,
            next_marker,
            partners,
        } = self;
        tree_entries.put_back(tree);
        shelf_entries.put_back(&mut side.shelf);
        side.next_node = next_node;
        side.next_stamp = next_stamp;
        side.next_marker = next_marker;
        side.partners.cut(partners);
    }
}

/// What a done operation is answered, and the way back before it.
#[derive(Drop)]
pub struct Applied {
    pub answer: OpAnswer,
    pub back: Back,
}
