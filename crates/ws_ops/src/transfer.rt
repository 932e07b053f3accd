//! The plans of moves and copies.
ghost use Rattle.std.specs.Prelude.{◌≡◌, ◌≤◌, ◌<◌, ◌+◌, ◌^◌, ◌++◌, [], true, false, not, ◌||◌, length, Some, IfOk, IfErr, OnOk};
ghost use Rattle.std.specs.Bool.{beq};
ghost use Rattle.std.specs.FinMap.{get};
ghost use Rattle.std.specs.List.{list_all};
ghost use Rattle.res_path.specs.Paths.{is_prefix, path_text};
ghost use Rattle.op_kind.specs.Effects.{copies, renumbered, stamped};
ghost use Rattle.op_kind.specs.Judging.{Decides, Judges, IfRefused};
ghost use Rattle.ws_elem.specs.Trees.{branch};
ghost use Rattle.op_kind.specs.Members.{carried, rebased};
ghost use Rattle.op_kind.specs.Numbers.{has_stamp, stamps_of, stamps_of_all};
ghost use Rattle.op_kind.specs.Places.{is_root_path, is_project_path, project_name};
ghost use Rattle.op_plan.specs.Inside.Lists.{put, taken};
ghost use Rattle.op_plan.specs.Inside.Plans.{CanDraw, Plans, no_change};
ghost use Rattle.proj_desc.specs.FirstCause.{first_cause, when};
ghost use Rattle.op_kind.specs.Refusals.{standing_causes, fit_causes, transfer_causes, copy_causes, goes_too_deep, gets_too_long, description_cause};
ghost use Rattle.op_kind.specs.Resources.{resources};

use crate::{Entries, NoMemory, Op, OpError, OpRefusal, Side};
use op_plan::checks::{check_numbers, check_open, check_place, name_of, there, wrong_kind};
use op_plan::{Plan, walk};
use proj_desc::Desc;
use res_path::{Path, PathError};
use std::alloc::Global;
use ws_elem::{Attached, Attachments, Element, TreeRep};

/// The elements at or below a path, and the same at their places below another.
#[derive(Drop)]
struct Relocation {
    members: Entries,
    carried: Entries,
}

/// What is at one path comes to stand at another, with all below it. Costs one look-up for each element.
pub fn move_to<T: TreeRep>(
    alloc: Global,
    tree: &T,
    side: &Side,
    from: &Path,
    to: &Path,
) -> Result<Plan, OpError>
    ensures { Plans (resources (T.tree tree.now) side.now) (Op.Move from.now to.now) result }
{
    let relocation = transfer(alloc, tree, from, to)?;
    Ok(plan_move(alloc, side, relocation)?)
}

fn plan_move(alloc: Global, side: &Side, relocation: Relocation) -> Result<Plan, NoMemory>
    ensures { IfOk result (λ plan. plan ≡ record (no_change side.now) { tree = taken relocation.members ++ put relocation.carried }) }
{
    let Relocation { members, carried } = relocation;
    let mut plan = Plan::nothing(alloc, side);
    plan.tree.take_all(&members)?;
    plan.tree.put_all(carried)?;
    Ok(plan)
}

/// What is at one path is copied to another, with all below it. Costs one look-up for each element; contents are
/// shared.
pub fn copy_to<T: TreeRep>(
    alloc: Global,
    tree: &T,
    side: &Side,
    from: &Path,
    to: &Path,
) -> Result<Plan, OpError>
    ensures { Plans (resources (T.tree tree.now) side.now) (Op.Copy from.now to.now) result }
{
    let carried = copyable(alloc, tree, side, from, to)?;
    Ok(plan_copy(alloc, side, &carried)?)
}

/// What is to be copied, at its places below `to`. Refused where it can't come to stand there, and where so many elements
/// can't be made.
fn copyable<T: TreeRep>(
    alloc: Global,
    tree: &T,
    side: &Side,
    from: &Path,
    to: &Path,
) -> Result<Entries, OpError>
    ensures judged { Judges (first_cause (copy_causes (resources (T.tree tree.now) side.now) from.now to.now)) result }
    ensures carried { IfOk result (λ es. es ≡ carried from.now to.now (branch (T.tree tree.now) from.now)) }
    ensures drawn { IfOk result (λ es. CanDraw side.now (length es) (stamps_of_all es)) }
{
    let Relocation {
        members: _members,
        carried,
    } = transfer(alloc, tree, from, to)?;
    let stamps = stamps_of_all(&carried);
    check_numbers(tree, side, carried.len(), stamps)?;
    Ok(carried)
}

fn plan_copy(alloc: Global, side: &Side, carried: &Entries) -> Result<Plan, NoMemory>
    requires { CanDraw side.now (length carried.now) (stamps_of_all carried.now) }
    ensures { IfOk result (λ plan. plan ≡ record (no_change side.now) {
      tree = put (copies side.now.next_node side.now.next_stamp carried.now);
      next_node = side.now.next_node + length carried.now;
      next_stamp = side.now.next_stamp + stamps_of_all carried.now;
    }) }
{
    let copies = copies(alloc, side.next_node, side.next_stamp, carried.as_slice())?;
    let mut plan = Plan::nothing(alloc, side);
    plan.tree.put_all(copies)?;
    plan.next_node += carried.len() as u64;
    plan.next_stamp += stamps_of_all(carried) as u64;
    Ok(plan)
}

/// What is to be carried from one path to another. Refused where it can't come to stand there.
fn transfer<T: TreeRep>(
    alloc: Global,
    tree: &T,
    from: &Path,
    to: &Path,
) -> Result<Relocation, OpError>
    ensures judged { Judges (first_cause (transfer_causes (T.tree tree.now) from.now to.now)) result }
    ensures members { IfOk result (λ t. t.members ≡ branch (T.tree tree.now) from.now) }
    ensures carried { IfOk result (λ t. t.carried ≡ carried from.now to.now (branch (T.tree tree.now) from.now)) }
{
    let element = standing(tree, from, to)?;
    fitting(alloc, tree, element, from, to)
}

/// What is to be carried from one path to another. Refused where it doesn't fit there.
fn fitting<T: TreeRep>(
    alloc: Global,
    tree: &T,
    element: &Element,
    from: &Path,
    to: &Path,
) -> Result<Relocation, OpError>
    requires element { get (T.tree tree.now) from.now ≡ Some element.now }
    requires named { 1 ≤ length to.now }
    ensures judged { Judges (first_cause (fit_causes (T.tree tree.now) from.now to.now)) result }
    ensures members { IfOk result (λ t. t.members ≡ branch (T.tree tree.now) from.now) }
    ensures carried { IfOk result (λ t. t.carried ≡ carried from.now to.now (branch (T.tree tree.now) from.now)) }
{
    let members = walk::branch(alloc, tree, from)?;
    check_depth(&members, from, to)?;
    let carried = carry(alloc, &members, from, to)?;
    check_description(alloc, element, to)?;
    Ok(Relocation { members, carried })
}

/// What is at `from`. Refused where it can't come to stand at `to`, whatever is below it.
fn standing<'a, T: TreeRep>(tree: &'a T, from: &Path, to: &Path) -> Result<&'a Element, OpError>
    ensures judged { Judges (first_cause (standing_causes (T.tree tree.now) from.now to.now)) result }
    ensures element { IfOk result (λ element. get (T.tree tree.now) from.now ≡ Some element.now) }
    ensures named { OnOk result (1 ≤ length to.now) }
{
    check_no_root(from, to)?;
    check_alike(from, to)?;
    check_open(tree, from)?;
    check_open(tree, to)?;
    let element = there(tree, from)?;
    if from.is_prefix_of(to) {
        return Err(OpError::Refused(OpRefusal::IntoItself));
    }
    check_place(tree, to)?;
    Ok(element)
}

/// Refused where one of the two paths is the root's.
fn check_no_root(from: &Path, to: &Path) -> Result<(), OpRefusal>
    ensures judged { Decides (when (is_root_path from.now || is_root_path to.now) (OpRefusal.WrongKind [])) result }
    ensures named { OnOk result (1 ≤ length to.now) }
{
    if from.depth() == 0 {
        return Err(OpRefusal::WrongKind(Path::root()));
    }
    if to.depth() == 0 {
        return Err(OpRefusal::WrongKind(Path::root()));
    }
    Ok(())
}

/// Refused where one of the two paths is a project's and the other isn't.
fn check_alike(from: &Path, to: &Path) -> Result<(), OpError>
    ensures { Judges (when (not (beq (is_project_path from.now) (is_project_path to.now))) (OpRefusal.WrongKind to.now)) result }
{
    let is_project = from.depth() == 1;
    if is_project != (to.depth() == 1) {
        return wrong_kind(to);
    }
    Ok(())
}

/// Refused where a path would be too deep.
fn check_depth(members: &Entries, from: &Path, to: &Path) -> Result<(), OpRefusal>
    ensures judged { Decides (when (goes_too_deep from.now to.now members.now) OpRefusal.TooDeep) result }
    ensures shallow { OnOk result (goes_too_deep from.now to.now members.now ≡ false) }
{
    if go_too_deep(members.as_slice(), from, to) {
        return Err(OpRefusal::TooDeep);
    }
    Ok(())
}

/// The elements at their places below `to`. Refused where a path would be too long.
fn carry(alloc: Global, members: &Entries, from: &Path, to: &Path) -> Result<Entries, OpError>
    requires under { list_all (λ e. is_prefix from.now e.0) members.now ≡ true }
    requires shallow { goes_too_deep from.now to.now members.now ≡ false }
    ensures judged { Judges (when (gets_too_long from.now to.now members.now) OpRefusal.TooLong) result }
    ensures carried { IfOk result (λ es. es ≡ carried from.now to.now members.now) }
{
    carry_all(alloc, members.as_slice(), from, to)
}

/// Whether a path would be too deep.
fn go_too_deep(entries: &[(Path, Element)], from: &Path, to: &Path) -> bool
    ensures { result ≡ goes_too_deep from.now to.now entries.now }
{
    entries
        .iter()
        .any(|entry| rebased_depth(&entry.0, from, to) > 64)
}

/// How many names the path has with `to` in the place of its beginning `from`.
#[tactic(auto, using(op_plan::proofs::Carried::rebased_depth))]
fn rebased_depth(path: &Path, from: &Path, to: &Path) -> usize
    ensures { result ≡ length (rebased from.now to.now path.now) }
{
    to.depth() + path.depth().saturating_sub(from.depth())
}

/// The elements at their places below `to`. Refused where a path would be too long.
fn carry_all(
    alloc: Global,
    entries: &[(Path, Element)],
    from: &Path,
    to: &Path,
) -> Result<Entries, OpError>
    requires under { list_all (λ e. is_prefix from.now e.0) entries.now ≡ true }
    requires shallow { goes_too_deep from.now to.now entries.now ≡ false }
    ensures judged { Judges (when (gets_too_long from.now to.now entries.now) OpRefusal.TooLong) result }
    ensures carried { IfOk result (λ es. es ≡ carried from.now to.now entries.now) }
{
    let mut carried = Entries::empty(alloc);
    let mut rest = entries;
    while let Some((entry, others)) = rest.split_first() {
        let path = carry_path(alloc, &entry.0, from, to)?;
        carried.push(path, entry.1.copy()?)?;
        rest = others;
    }
    Ok(carried)
}

/// The path with `to` in the place of its beginning `from`. Refused where it would be too long.
fn carry_path(alloc: Global, path: &Path, from: &Path, to: &Path) -> Result<Path, OpError>
    requires under { is_prefix from.now path.now ≡ true }
    requires shallow { length (rebased from.now to.now path.now) ≤ 64 }
    ensures path { IfOk result (λ p. p ≡ rebased from.now to.now path.now) }
    ensures short { OnOk result (length (path_text (rebased from.now to.now path.now)) ≤ 4096) }
    ensures long { IfErr result (IfRefused (λ r. (r ≡ OpRefusal.TooLong) × (4096 < length (path_text (rebased from.now to.now path.now))))) }
{
    match path.rebase(alloc, from, to) {
        Ok(path) => Ok(path),
        Err(PathError::TooLong) => Err(OpError::Refused(OpRefusal::TooLong)),
        Err(PathError::Memory) => Err(OpError::Memory),
        Err(PathError::TooDeep) => unreachable!(),
        Err(PathError::BadSegment { .. }) => unreachable!(),
    }
}

/// How many stamps copies of these elements draw.
#[tactic(auto, using(op_plan::proofs::Carried::stamps_counted))]
fn stamps_of_all(entries: &Entries) -> usize
    ensures { result ≡ stamps_of_all entries.now }
{
    entries
        .as_slice()
        .iter()
        .filter(|entry| has_stamp(&entry.1))
        .count()
}

/// Whether a copy of the element draws a stamp.
fn has_stamp(element: &Element) -> bool
    ensures { result ≡ has_stamp element.now }
{
    element.kind.is_file() || element.kind.is_project()
}

/// The elements with fresh numbers, drawn in their order.
fn copies(
    alloc: Global,
    node: u64,
    stamp: u64,
    entries: &[(Path, Element)],
) -> Result<Entries, NoMemory>
    requires node { node + length entries.now < 2 ^ 64 }
    requires stamp { stamp + stamps_of_all entries.now < 2 ^ 64 }
    ensures { IfOk result (λ es. es ≡ copies node stamp entries.now) }
{
    let mut copies = Entries::empty(alloc);
    let mut node = node;
    let mut stamp = stamp;
    let mut rest = entries;
    while let Some((entry, others)) = rest.split_first() {
        let element = renumbered(alloc, &entry.1, node, stamp)?;
        copies.push(entry.0.copy()?, element)?;
        node += 1;
        stamp = stamp_after(stamp, &entry.1);
        rest = others;
    }
    Ok(copies)
}

/// The stamp that follows where a copy of the element has drawn.
fn stamp_after(stamp: u64, element: &Element) -> u64
    requires { stamp + stamps_of element.now < 2 ^ 64 }
    ensures { result ≡ stamp + stamps_of element.now }
{
    if has_stamp(element) { stamp + 1 } else { stamp }
}

/// The element with this node, and with this stamp for its contents or its description, without markers and
/// synchronisation bytes.
fn renumbered(alloc: Global, element: &Element, node: u64, stamp: u64) -> Result<Element, NoMemory>
    ensures { IfOk result (λ e. e ≡ renumbered node stamp element.now) }
{
    Ok(Element {
        opened: element.opened,
        derived: element.derived,
        stamp: if element.kind.is_file() {
            stamp
        } else {
            element.stamp
        },
        bytes: element.bytes.clone()?,
        attached: stamped(alloc, element, stamp)?,
        ..Element::bare(element.kind, node)
    })
}

/// What is attached to the element, with this stamp for a project's description, without markers and synchronisation
/// bytes, of which nothing is copied.
fn stamped(alloc: Global, element: &Element, stamp: u64) -> Result<Attached, NoMemory>
    ensures { IfOk result (λ attached. attached ≡ stamped stamp element.now) }
{
    let nothing = Attachments::none();
    let kept = element.attached.or(&nothing);
    let stamped = Attachments {
        desc_stamp: if element.kind.is_project() {
            stamp
        } else {
            kept.desc_stamp
        },
        desc: kept.desc.clone()?,
        ..Attachments::none()
    };
    Attached::of(alloc, stamped)
}

/// Refused where the element is a project whose description doesn't fit a project of the name that `to` has.
fn check_description(alloc: Global, element: &Element, to: &Path) -> Result<(), OpError>
    requires { 1 ≤ length to.now }
    ensures { Judges (description_cause (Some element.now) (project_name to.now)) result }
{
    if !element.kind.is_project() {
        return Ok(());
    }
    let name = name_of(alloc, to)?;
    let nothing = Attachments::none();
    let attachments = element.attached.or(&nothing);
    match Desc::check(alloc, &name, attachments.desc.as_slice())? {
        None => Ok(()),
        Some(cause) => Err(OpError::Refused(OpRefusal::BadDescription(cause))),
    }
}
