//! Too many elements, or too great numbers.
ghost use Rattle.std.specs.Prelude.{◌≡◌, ◌+◌, ◌-◌, ◌||◌, nat_lt};
ghost use Rattle.op_kind.specs.Refusals.{max_elements, is_spent};
ghost use Rattle.op_kind.specs.Resources.{resources};
ghost use Rattle.proj_desc.specs.FirstCause.{first_cause};
ghost use Rattle.output_edits.specs.Judging.{Decides};
ghost use Rattle.output_commit.specs.Inside.Plans.{counted_causes};

use crate::planning::Change;
use crate::{EditRefusal, Side};
use ws_elem::TreeRep;

/// The most elements that a workspace may have, those on the shelf too.
const MAX_ELEMENTS: u64 = 1_048_576;

/// The most that a counter may be.
const MAX_NUMBER: u64 = (1 << 63) - 1;

/// Refused where there would be too many elements after the change, and then where a number would be too great.
pub(crate) fn check_room<T: TreeRep>(
    tree: &T,
    side: &Side,
    change: &Change,
) -> Result<(), EditRefusal>
    ensures { Decides (first_cause (counted_causes (resources (T.tree tree.now) side.now) change.now)) result }
{
    let shelved = side.shelf.len() as u64;
    if is_full(tree.len() as u64, change.gone, change.news, shelved) {
        return Err(EditRefusal::TreeFull);
    }
    if any_spent(side, change) {
        return Err(EditRefusal::NumbersUsed);
    }
    Ok(())
}

/// Whether there would be too many elements.
fn is_full(there: u64, gone: u64, news: u64, shelved: u64) -> bool
    ensures { result ≡ nat_lt max_elements (there - gone + news + shelved) }
{
    there
        .saturating_sub(gone)
        .saturating_add(news)
        .saturating_add(shelved)
        > MAX_ELEMENTS
}

/// Whether a number would be too great.
fn any_spent(side: &Side, change: &Change) -> bool
    ensures { result ≡ (is_spent side.now.next_node (change.now.next_node - side.now.next_node) || is_spent side.now.next_stamp (change.now.next_stamp - side.now.next_stamp)
        || is_spent side.now.next_marker (change.now.next_marker - side.now.next_marker)) }
{
    if is_past(side.next_node, change.next_node) {
        return true;
    }
    if is_past(side.next_stamp, change.next_stamp) {
        return true;
    }
    is_past(side.next_marker, change.next_marker)
}

/// Whether the numbers from this one on to another can't be drawn.
fn is_past(next: u64, after: u64) -> bool
    ensures { result ≡ is_spent next (after - next) }
{
    MAX_NUMBER.saturating_sub(next) < after.saturating_sub(next)
}
