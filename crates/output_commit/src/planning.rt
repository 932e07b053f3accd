//! What a commit is going to change.
ghost use Rattle.std.specs.Prelude.{◌≡◌, ◌+◌, [], true, IfOk, OnOk};
ghost use Rattle.std.specs.FinMap as map;
ghost use Rattle.std.specs.List.{AllByRecursion};
ghost use Rattle.res_path.specs.Paths.{is_prefix};
ghost use Rattle.op_kind.specs.Members.{members};
ghost use Rattle.op_kind.specs.Places.{project_of};
ghost use Rattle.op_kind.specs.Resources.{resources};
ghost use Rattle.output_edits.specs.Outputs.{outputs_among, edited};
ghost use Rattle.output_edits.specs.Wanted.{wanted};
ghost use Rattle.output_commit.specs.Inside.Plans.{CanDraw, IsChange, Plans, PlansFiles};

use crate::clearing::clear;
use crate::drawing::{Draws, all_draws, sum_up};
use crate::placing::{place, put_some};
use crate::room::check_room;
use crate::telling::{ids_drawn, tell};
use crate::{EditError, NoMemory, Side};
use builder_api::{Edits as BuilderEdits, Problem, Problems};
use op_kind::Entries;
use op_plan::edits::Edits;
use op_plan::walk;
use output_edits::{check_edits, edited, outputs, wanted};
use res_path::Path;
use std::alloc::Global;
use ws_elem::{ElemMap, TreeRep};

/// What is going to change, made before anything changes.
#[derive(Drop)]
pub(crate) struct Change {
    pub edits: Edits,
    pub next_node: u64,
    pub next_stamp: u64,
    pub next_marker: u64,
    /// How many elements aren't wanted and go.
    pub gone: u64,
    /// How many paths get an element that had none.
    pub news: u64,
    /// How many files come, go or get other contents.
    pub touched: u64,
}

/// What the edits change, or why they are refused.
#[tactic(auto, using(crate::proofs::Gone::members_below, crate::proofs::Planned::room_decides, crate::proofs::Planned::refused_first))]
pub(crate) fn plan_commit<T: TreeRep>(
    alloc: Global,
    tree: &T,
    side: &Side,
    output: &Path,
    index: u16,
    edits: &BuilderEdits,
) -> Result<Change, EditError>
    ensures { Plans (resources (T.tree tree.now) side.now) output.now index edits.now result }
{
    let found = walk::members(alloc, tree, output)?;
    let files = files_after(alloc, output, &found, edits)?;
    check_edits(alloc, output, edits.files.as_slice(), &files)?;
    plan_files(
        alloc,
        tree,
        side,
        output,
        index,
        &found,
        &files,
        edits.problems.as_slice(),
    )
}

/// What is changed so that these files lie below the output, or why that is refused.
fn plan_files<T: TreeRep>(
    alloc: Global,
    tree: &T,
    side: &Side,
    output: &Path,
    index: u16,
    found: &Entries,
    files: &ElemMap,
    problems: &[Problem],
) -> Result<Change, EditError>
    requires { found.now ≡ members (T.tree tree.now) output.now }
    ensures { PlansFiles (resources (T.tree tree.now) side.now) output.now (wanted output.now files.now.map) index problems.now result }
{
    let wanted = wanted(alloc, output, files)?;
    let change = change_to(alloc, tree, side, output, index, found, &wanted, problems)?;
    match check_room(tree, side, &change) {
        Ok(()) => Ok(change),
        Err(refusal) => Err(EditError::Refused(refusal)),
    }
}

/// What a cleaning changes.
pub(crate) fn plan_cleaning<T: TreeRep>(
    alloc: Global,
    tree: &T,
    side: &Side,
    output: &Path,
    index: u16,
) -> Result<Change, NoMemory>
    ensures { IfOk result (IsChange (resources (T.tree tree.now) side.now) output.now map.empty index []) }
{
    let found = walk::members(alloc, tree, output)?;
    let nothing = ElemMap::empty(alloc);
    let none = Problems::empty(alloc);
    change_to(
        alloc,
        tree,
        side,
        output,
        index,
        &found,
        &nothing,
        none.as_slice(),
    )
}

/// The files below the output after the edits, by their paths from there.
fn files_after(
    alloc: Global,
    output: &Path,
    found: &Entries,
    edits: &BuilderEdits,
) -> Result<ElemMap, NoMemory>
    requires { AllByRecursion (λ e. is_prefix output.now e.0 ≡ true) found.now }
    ensures { IfOk result (λ files. files.map ≡ edited (outputs_among output.now found.now) edits.now.files) }
{
    let mut files = outputs(alloc, output, found)?;
    edited(&mut files, edits.files.as_slice())?;
    Ok(files)
}

/// What is changed so that below the output lies what is wanted, and the problems of the command are these.
fn change_to<T: TreeRep>(
    alloc: Global,
    tree: &T,
    side: &Side,
    output: &Path,
    index: u16,
    found: &Entries,
    wanted: &ElemMap,
    problems: &[Problem],
) -> Result<Change, NoMemory>
    requires { found.now ≡ members (T.tree tree.now) output.now }
    ensures { IfOk result (IsChange (resources (T.tree tree.now) side.now) output.now wanted.now.map index problems.now) }
{
    let project = project_of(output)?;
    let there = tree.get(&project);
    let draws = all_draws(tree, wanted)?;
    let ids = ids_drawn(alloc, there, index, problems)?;
    let numbers = numbers_after(side, draws, ids)?;
    let mut edits = Edits::none(alloc);
    let lost = clear(found.as_slice(), wanted, &mut edits)?;
    let gone = edits.len();
    place(tree, wanted, side.next_node, side.next_stamp, &mut edits)?;
    let told = tell(alloc, there, index, side.next_marker, problems)?;
    put_some(&project, told, &mut edits)?;
    Ok(Change {
        edits,
        next_node: numbers.node,
        next_stamp: numbers.stamp,
        next_marker: numbers.marker,
        gone: gone as u64,
        news: draws.news,
        touched: sum_up(lost, draws.touches)?,
    })
}

/// The next numbers after so many are drawn.
#[derive(Clone, Copy)]
struct Numbers {
    node: u64,
    stamp: u64,
    marker: u64,
}

/// The next numbers, where they can be counted.
fn numbers_after(side: &Side, draws: Draws, ids: u64) -> Result<Numbers, NoMemory>
    ensures node { IfOk result (λ n. n.node ≡ side.now.next_node + draws.nodes) }
    ensures stamp { IfOk result (λ n. n.stamp ≡ side.now.next_stamp + draws.stamps) }
    ensures marker { IfOk result (λ n. n.marker ≡ side.now.next_marker + ids) }
    ensures drawn { OnOk result (CanDraw side.now draws.nodes draws.stamps ids) }
{
    let node = sum_up(side.next_node, draws.nodes)?;
    let stamp = sum_up(side.next_stamp, draws.stamps)?;
    let marker = sum_up(side.next_marker, ids)?;
    Ok(Numbers {
        node,
        stamp,
        marker,
    })
}

/// The path of the project that the path is or lies in, and the root for the root.
#[tactic(auto, using(op_plan::proofs::Above::take_parent, op_plan::proofs::Above::parent_shorter))]
fn project_of(path: &Path) -> Result<Path, NoMemory>
    ensures { IfOk result (λ p. p ≡ project_of path.now) }
{
    if path.depth() <= 1 {
        return path.copy();
    }
    match path.parent()? {
        None => Ok(Path::root()),
        Some(parent) => project_of(&parent),
    }
}
