//! The nodes of two trees between which nothing moved, told in one walk.
ghost use Rattle.std.specs.Prelude.{◌≡◌, ◌&&◌, ◌||◌, [], ◌∷◌, ◌++◌, map, is_some, true, Some, IfOk, IfSome, IfNone, OnOk};
ghost use Rattle.std.specs.Option.{option_copied};
ghost use Rattle.delta_kind.specs.Deltas.{delta, InPathOrder, paths_of};
ghost use Rattle.delta_kind.specs.Rows.{shown, turned};
ghost use Rattle.delta_kind.specs.Inside.Passes.{has_turn, unmoved, new_above, untouched};
ghost use Rattle.delta_kind.specs.Inside.Walks.{differing};
ghost use Rattle.delta_kind.specs.declared.row.Turn.TheVariants.{Lost, Gained};

use crate::making::tell_above;
use crate::walk::Walk;
use crate::{DeltaNode, Place, Row, Turn, flags};
use res_path::Path;
use std::alloc::Global;
use ws_elem::{ElemMap, NoMemory};

/// What was told of some rows, as if nothing moved.
#[derive(Drop)]
struct Told<'a> {
    nodes: Vec<DeltaNode>,
    last: Option<&'a Path>,
    /// Whether a row lost a node.
    lost: bool,
    /// Whether a row gained one.
    gained: bool,
}

/// The nodes of two trees; none where some path lost a node and another one, or the same, gained one, so that a node may
/// have moved. Costs one walk of both trees, as far as that is known.
pub fn unmoved_nodes<'a>(
    alloc: Global,
    before: &'a ElemMap,
    after: &'a ElemMap,
) -> Result<Option<Vec<DeltaNode>>, NoMemory>
    ensures nodes { IfOk result (λ found. IfSome found (λ nodes. nodes.items ≡ delta before.now.map after.now.map)) }
    ensures order { IfOk result (λ found. IfSome found (λ nodes. InPathOrder (paths_of nodes.items))) }
    ensures moved { IfOk result (λ found. IfNone found ((has_turn Lost (differing before.now.map after.now.map) ≡ true)
        × (has_turn Gained (differing before.now.map after.now.map) ≡ true))) }
{
    let mut told = Told {
        nodes: Vec::new(alloc),
        last: None,
        lost: false,
        gained: false,
    };
    for row in Walk::of(before, after) {
        if row.differs() {
            told.tell(alloc, &row)?;
            if told.may_move() {
                return Ok(None);
            }
        }
    }
    Ok(Some(told.into_nodes()))
}

impl<'a> Told<'a> {
    /// Tells a row, and what is above it and above none before it.
    fn tell(&mut self, alloc: Global, row: &Row<'a>) -> Result<(), NoMemory>
        ensures nodes { OnOk result (self.new.nodes.items ≡ (self.old.nodes.items ++ map untouched (new_above (option_copied self.old.last) (shown row.now).0))
            ++ unmoved (shown row.now).0 (shown row.now).1 ∷ []) }
        ensures last { OnOk result (option_copied self.new.last ≡ Some (shown row.now).0) }
        ensures lost { OnOk result (self.new.lost ≡ (self.old.lost || is_some (turned Lost (shown row.now).1))) }
        ensures gained { OnOk result (self.new.gained ≡ (self.old.gained || is_some (turned Gained (shown row.now).1))) }
    {
        tell_above(alloc, &mut self.nodes, row.path, self.last)?;
        self.nodes.push(unmoved(alloc, row)?)?;
        self.last = Some(row.path);
        self.lost = self.lost || row.turned(Turn::Lost).is_some();
        self.gained = self.gained || row.turned(Turn::Gained).is_some();
        Ok(())
    }

    fn may_move(&self) -> bool
        ensures { result ≡ (self.now.lost && self.now.gained) }
    {
        self.lost && self.gained
    }

    fn into_nodes(self) -> Vec<DeltaNode>
        ensures { result.items ≡ self.entry.nodes.items }
    {
        let Told { nodes, .. } = self;
        nodes
    }
}

/// What became of the row's path, where nothing moved.
fn unmoved(alloc: Global, row: &Row<'_>) -> Result<DeltaNode, NoMemory>
    ensures { IfOk result (λ node. node ≡ unmoved (shown row.now).0 (shown row.now).1) }
{
    Ok(DeltaNode {
        path: row.path.copy()?,
        kind: flags::kind_of(row.before, row.after),
        flags: flags::flags_of(row.before, row.after) + flags::moved_flags(None, None),
        moved_from: Place::none(),
        moved_to: Place::none(),
        markers: flags::markers_of(alloc, row.before, row.after)?,
    })
}
