//! Two layers made one.
ghost use Rattle.std.specs.Prelude.{◌≡◌, IfOk, IfErr, IsSome};
ghost use Rattle.std.specs.FinMap.{get};
ghost use Rattle.res_path.specs.Paths.{Names};
ghost use Rattle.elem_tree.specs.Inside.Slots.{NoneReady};
ghost use Rattle.elem_tree.specs.Inside.Joins.{IsSpared, IsJoined, over_at, under_at};

use crate::notes::Notes;
use crate::slot::Slot;
use res_path::Path;

/// What two layers kept, as one layer: the earlier notes, and beside them what the later layer keeps. The smaller is
/// taken into the larger, and no element is copied. Where memory wants both come back with what they kept.
pub(crate) fn join(earlier: Notes, later: Notes) -> Result<Notes, (Notes, Notes)>
    requires { NoneReady earlier }
    ensures ok { IfOk result (λ both. IsJoined earlier later both) }
    ensures err { IfErr result (λ notes. IsSpared earlier notes.0 × IsSpared later notes.1) }
{
    if earlier.len() < later.len() {
        join_into_later(earlier, later)
    } else {
        join_into_earlier(earlier, later)
    }
}

fn join_into_later(earlier: Notes, later: Notes) -> Result<Notes, (Notes, Notes)>
    ensures ok { IfOk result (λ both. IsJoined earlier later both) }
    ensures err { IfErr result (λ notes. IsSpared earlier notes.0 × IsSpared later notes.1) }
{
    let mut later = later;
    match later.make_slots(&earlier) {
        Ok(()) => {
            take_over(&mut later, earlier);
            Ok(later)
        }
        Err(_) => Err((earlier, later)),
    }
}

/// Takes the earlier notes over those that are there.
fn take_over(later: &mut Notes, earlier: Notes)
    requires { (p : Names) → IsSome (get earlier p) → IsSome (get later.old p) }
    ensures { IsJoined earlier later.old later.new }
{
    let mut rest = earlier;
    while let Some((path, slot)) = rest.pop() {
        put_over(later, path, slot);
    }
}

/// Takes one earlier slot over the later one, where it is a note.
fn put_over(later: &mut Notes, path: Path, slot: Slot)
    requires { IsSome (get later.old path) }
    ensures { later.new ≡ over_at later.old path slot }
{
    if slot.is_noted() {
        later.set(&path, slot);
    } else {
        drop(slot);
    }
}

fn join_into_earlier(earlier: Notes, later: Notes) -> Result<Notes, (Notes, Notes)>
    requires { NoneReady earlier }
    ensures ok { IfOk result (λ both. IsJoined earlier later both) }
    ensures err { IfErr result (λ notes. IsSpared earlier notes.0 × IsSpared later notes.1) }
{
    let mut earlier = earlier;
    match earlier.make_slots(&later) {
        Ok(()) => {
            take_under(&mut earlier, later);
            Ok(earlier)
        }
        Err(_) => Err((earlier, later)),
    }
}

/// Takes what the later layer keeps in, where nothing is noted.
fn take_under(earlier: &mut Notes, later: Notes)
    requires slots { (p : Names) → IsSome (get later p) → IsSome (get earlier.old p) }
    requires ready { NoneReady earlier.old }
    ensures { IsJoined earlier.old later earlier.new }
{
    let mut rest = later;
    while let Some((path, slot)) = rest.pop() {
        put_under(earlier, path, slot);
    }
}

/// Takes one later slot in, unless the earlier one is a note.
fn put_under(earlier: &mut Notes, path: Path, slot: Slot)
    requires { IsSome (get earlier.old path) }
    ensures { earlier.new ≡ under_at earlier.old path slot }
{
    if earlier.is_noted(&path) {
        drop(slot);
    } else {
        earlier.set(&path, slot);
    }
}
