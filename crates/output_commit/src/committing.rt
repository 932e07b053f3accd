//! Changing an output by edits, and cleaning it.
ghost use Rattle.std.specs.Prelude.{◌≡◌, ◌≢◌, ◌≤◌, false, true, None, Some, length, option_map, IfOk, IfErr, OnOk, OnErr};
ghost use Rattle.std.specs.FinMap.{get};
ghost use Rattle.res_path.specs.Paths.{Names, overlap};
ghost use Rattle.op_kind.specs.Marking.{with_marks, removed};
ghost use Rattle.op_kind.specs.Places.{project_of};
ghost use Rattle.op_kind.specs.Resources.{resources};
ghost use Rattle.builder_api.specs.Edits.{committed as committed_files};
ghost use Rattle.builder_api.specs.Files.{Files, files_of, HasBelow, HasNoEmptyFolder};
ghost use Rattle.builder_api.specs.Places.{is_below};
ghost use Rattle.op_plan.specs.Backs.{HasWay};
ghost use Rattle.op_plan.specs.Edits.{KeepsRoom};
ghost use Rattle.output_edits.specs.Judging.{IfRefused};
ghost use Rattle.output_edits.specs.Wanted.{wanted};
ghost use Rattle.output_commit.specs.Committed.{committed, cleaned, files_after, refusal};
ghost use Rattle.output_commit.specs.Told.{problem_ids};
ghost use Rattle.output_commit.specs.Touched.{touched};
ghost use Rattle.output_commit.specs.Inside.Plans.{changed_by};

use crate::planning::{Change, plan_cleaning, plan_commit};
use crate::{Back, EditError, NoMemory, Side};
use builder_api::Edits;
use op_plan::edits::{Earlier, room_for};
use res_path::Path;
use std::alloc::Global;
use ws_elem::TreeRep;

/// What a commit is answered, and the way back before it.
#[derive(Drop)]
pub struct Committed {
    /// How many files came, went or got other contents.
    pub touched: u64,
    /// How many problems the command has.
    pub problems: u64,
    pub back: Back,
}

/// Makes a builder's edits below the output of its command, which is that with this index of the project in which the
/// output lies, and makes the command's problems those of the edits. Or refuses the edits: with the least bad path, then
/// where a path would be too deep, where one would be too long, where there would be too many elements, and where a number
/// would be too great. After a refusal, and where memory wants, tree, shelf, counters and partners are as before. No tree
/// that the tree remembers changes.
///
/// Room is made for all paths that change, and all new elements are made, before the first change; the room is left for
/// the way back, and the caller drops it. Costs a few look-ups for each edit and each element below the output. Contents
/// are shared, and never copied.
#[tactic(auto, using(op_plan::proofs::Made::keeps_itself, crate::proofs::Planned::changed_is))]
pub fn commit_edits<T: TreeRep>(
    alloc: Global,
    tree: &mut T,
    side: &mut Side,
    output: &Path,
    index: u16,
    edits: &Edits,
) -> Result<Committed, EditError>
    // Edits that are made weren't refused.
    ensures allowed { OnOk result (refusal (resources (T.tree tree.old) side.old) output.now index edits.now ≡ None) }
    ensures resources { OnOk result (resources (T.tree tree.new) side.new ≡ committed (resources (T.tree tree.old) side.old) output.now index edits.now) }
    ensures touched { IfOk result (λ done. done.touched ≡ touched (T.tree tree.old) output.now (wanted output.now (files_after (resources (T.tree tree.old) side.old) output.now edits.now))) }
    // Below an output in a project the edits make of the files what builders were told that they make.
    ensures files { OnOk result (2 ≤ length output.now → (m : Files) → HasBelow output.now (committed_files output.now (files_of (T.tree tree.old)) edits.now.files) m
        → HasBelow output.now (files_of (T.tree tree.new)) m) }
    // Each folder there has something below it.
    ensures folders { OnOk result (2 ≤ length output.now → HasNoEmptyFolder output.now (T.tree tree.new)) }
    // What is clear of the output stays as it was.
    ensures others { OnOk result ((q : Names) → overlap q output.now ≡ false → get (T.tree tree.new) q ≡ get (T.tree tree.old) q) }
    ensures problems { IfOk result (λ done. done.problems ≡ length edits.now.problems) }
    ensures back { IfOk result (λ done. HasWay done.back (T.room tree.new) side.new.shelf.room
        (resources (T.tree tree.new) side.new) (resources (T.tree tree.old) side.old)) }
    // What had room has it still.
    ensures room { KeepsRoom (T.room tree.old) (T.room tree.new) }
    ensures remembered { T.remembered tree.new ≡ T.remembered tree.old }
    ensures shelf_room { side.new.shelf.room ≡ side.old.shelf.room }
    ensures refused { IfErr result (IfRefused (λ r. refusal (resources (T.tree tree.old) side.old) output.now index edits.now ≡ Some r)) }
    ensures same { OnErr result (resources (T.tree tree.new) side.new ≡ resources (T.tree tree.old) side.old) }
{
    let change = plan_commit(alloc, tree, side, output, index, edits)?;
    let touched = change.touched;
    let problems = edits.problems.as_slice().len() as u64;
    let back = perform(alloc, tree, side, change)?;
    Ok(Committed {
        touched,
        problems,
        back,
    })
}

/// Takes away all that lies below the output of the command with this index of the project in which it lies, and the
/// command's problems, and nothing else. Gives the way back. Where memory wants, nothing was done.
#[tactic(auto, using(op_plan::proofs::Made::keeps_itself, crate::proofs::Planned::changed_is))]
pub fn clean_output<T: TreeRep>(
    alloc: Global,
    tree: &mut T,
    side: &mut Side,
    output: &Path,
    index: u16,
) -> Result<Back, NoMemory>
    ensures resources { OnOk result (resources (T.tree tree.new) side.new ≡ cleaned (resources (T.tree tree.old) side.old) output.now index) }
    // Nothing is left below the output.
    ensures gone { OnOk result ((q : Names) → is_below output.now q ≡ true → get (T.tree tree.new) q ≡ None) }
    // Its project loses the command's problems.
    ensures project { OnOk result (get (T.tree tree.new) (project_of output.now)
        ≡ option_map (with_marks (λ marks. removed marks (problem_ids index marks))) (get (T.tree tree.old) (project_of output.now))) }
    // All else stays as it was.
    ensures others { OnOk result ((q : Names) → is_below output.now q ≡ false → q ≢ project_of output.now → get (T.tree tree.new) q ≡ get (T.tree tree.old) q) }
    ensures back { IfOk result (λ back. HasWay back (T.room tree.new) side.new.shelf.room
        (resources (T.tree tree.new) side.new) (resources (T.tree tree.old) side.old)) }
    ensures room { KeepsRoom (T.room tree.old) (T.room tree.new) }
    ensures remembered { T.remembered tree.new ≡ T.remembered tree.old }
    ensures shelf_room { side.new.shelf.room ≡ side.old.shelf.room }
    ensures same { OnErr result (resources (T.tree tree.new) side.new ≡ resources (T.tree tree.old) side.old) }
{
    let change = plan_cleaning(alloc, tree, side, output, index)?;
    perform(alloc, tree, side, change)
}

/// Makes the change, and gives the way back. Where memory wants, nothing was done.
#[tactic(auto, using(op_plan::proofs::Made::keeps_itself, op_plan::proofs::Made::keeps_same))]
fn perform<T: TreeRep>(
    alloc: Global,
    tree: &mut T,
    side: &mut Side,
    change: Change,
) -> Result<Back, NoMemory>
    ensures resources { OnOk result (resources (T.tree tree.new) side.new ≡ changed_by (resources (T.tree tree.old) side.old) change) }
    ensures back { IfOk result (λ back. HasWay back (T.room tree.new) side.new.shelf.room
        (resources (T.tree tree.new) side.new) (resources (T.tree tree.old) side.old)) }
    ensures room { KeepsRoom (T.room tree.old) (T.room tree.new) }
    ensures remembered { T.remembered tree.new ≡ T.remembered tree.old }
    ensures shelf_room { side.new.shelf.room ≡ side.old.shelf.room }
    ensures same { OnErr result (resources (T.tree tree.new) side.new ≡ resources (T.tree tree.old) side.old) }
{
    let space = room_for(alloc, change.edits.len())?;
    change.edits.make_room(tree)?;
    let partners = side.partners.len();
    let earlier = change.edits.make(tree, space);
    let back = Back::to(side, partners, earlier, Earlier::nothing(alloc));
    side.next_node = change.next_node;
    side.next_stamp = change.next_stamp;
    side.next_marker = change.next_marker;
    Ok(back)
}
