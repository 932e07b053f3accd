//! The causes for which operations are refused, one by one.
ghost use Rattle.std.specs.Prelude.{◌≡◌, ◌∷◌, ◌+◌, ◌<◌, ◌≤◌, ◌^◌, false, nat_lt, not, ◌||◌, Some, IfOk, IfErr, IsErr, OnOk, length};
ghost use Rattle.std.specs.FinMap.{get, contains_key};
ghost use Rattle.std.specs.Option.{option_copied};
ghost use Rattle.res_path.specs.Paths.{parent};
ghost use Rattle.ws_elem.specs.Kinds.{is_file};
ghost use Rattle.op_kind.specs.Judging.{Decides, Judges, IfRefused};
ghost use Rattle.op_kind.specs.Places.{project_of, project_name, is_project_path, is_member_path, is_root_path, has_file, has_closed, is_shut};
ghost use Rattle.proj_desc.specs.FirstCause.{when, first_cause};
ghost use Rattle.op_kind.specs.Refusals.{closed, member_closed, missing, container_causes, above_causes, around_causes, place_causes, number_causes, creation_causes, contents_causes, is_spent, max_elements, project_causes};
ghost use Rattle.op_plan.specs.Inside.Plans.{CanDraw};
ghost use Rattle.op_kind.specs.Resources.{resources};

use crate::{NoMemory, OpError, OpRefusal, Side};
use res_path::{Name, Path, PathError};
use std::alloc::{AllocError, Global};
use ws_elem::{Element, TreeRep};

/// The most elements that a workspace may have, those on the shelf too.
const MAX_ELEMENTS: usize = 1_048_576;

/// The most that a counter may be.
const MAX_NUMBER: u64 = (1 << 63) - 1;

/// Refused where the path is a closed project's or of a member of one.
pub fn check_open<T: TreeRep>(tree: &T, path: &Path) -> Result<(), OpError>
    ensures { Judges (closed (T.tree tree.now) path.now) result }
{
    let project = project_of(path)?;
    if has_closed(tree.get(&project)) {
        return Err(OpError::Refused(OpRefusal::ProjectClosed(project)));
    }
    Ok(())
}

/// Refused where the path is of a member of a closed project.
pub fn check_member_open<T: TreeRep>(tree: &T, path: &Path) -> Result<(), OpError>
    ensures { Judges (member_closed (T.tree tree.now) path.now) result }
{
    if path.depth() < 2 {
        return Ok(());
    }
    check_open(tree, path)
}

/// What is at the path. Refused where nothing is.
pub fn there<'a, T: TreeRep>(tree: &'a T, path: &Path) -> Result<&'a Element, OpError>
    ensures judged { Judges (missing (T.tree tree.now) path.now) result }
    ensures element { IfOk result (λ element. get (T.tree tree.now) path.now ≡ Some element.now) }
{
    match tree.get(path) {
        None => Err(OpError::Refused(OpRefusal::NotFound(path.copy()?))),
        Some(element) => Ok(element),
    }
}

/// Refused where nothing can come to the path: its parent isn't there, or is a file, or something is at the path.
pub fn check_place<T: TreeRep>(tree: &T, path: &Path) -> Result<(), OpError>
    ensures { Judges (first_cause (place_causes (T.tree tree.now) path.now)) result }
{
    let folder = parent_of(path)?;
    let above = tree.get(&folder);
    check_container(folder, above)?;
    check_free(tree, path)
}

/// Refused where nothing can be in the folder, with what is at its path: it isn't there, or is a file.
fn check_container(folder: Path, above: Option<&Element>) -> Result<(), OpRefusal>
    ensures { Decides (first_cause (container_causes folder (option_copied above.entry))) result }
{
    match above {
        None => Err(OpRefusal::NotFound(folder)),
        Some(element) => check_folder(folder, element),
    }
}

/// Refused where what is at the folder's path is a file.
fn check_folder(folder: Path, element: &Element) -> Result<(), OpRefusal>
    ensures { Decides (when (is_file element.now.kind) (OpRefusal.NotContainer folder)) result }
{
    if element.kind.is_file() {
        return Err(OpRefusal::NotContainer(folder));
    }
    Ok(())
}

/// Refused where something is at the path.
fn check_free<T: TreeRep>(tree: &T, path: &Path) -> Result<(), OpError>
    ensures { Judges (when (contains_key (T.tree tree.now) path.now) (OpRefusal.Exists path.now)) result }
{
    if tree.get(path).is_some() {
        return Err(OpError::Refused(OpRefusal::Exists(path.copy()?)));
    }
    Ok(())
}

/// Refused where the path is a closed project's or of a member of one. Where the parent is the project, what is known of
/// it is not looked up again.
#[tactic(auto, using(crate::proofs::Above::project_above_two))]
fn check_parent_open<T: TreeRep>(
    tree: &T,
    path: &Path,
    folder: &Path,
    above: Option<&Element>,
) -> Result<(), OpError>
    requires folder { folder.now ≡ parent path.now }
    requires above { option_copied above ≡ get (T.tree tree.now) folder.now }
    ensures { Judges (closed (T.tree tree.now) path.now) result }
{
    if path.depth() != 2 {
        return check_open(tree, path);
    }
    if has_closed(above) {
        return Err(OpError::Refused(OpRefusal::ProjectClosed(folder.copy()?)));
    }
    Ok(())
}

/// Refused where the path is a closed project's or of a member of one, and where its parent isn't there or is a file.
fn check_above<T: TreeRep>(tree: &T, path: &Path) -> Result<(), OpError>
    ensures { Judges (first_cause (above_causes (T.tree tree.now) path.now)) result }
{
    let folder = parent_of(path)?;
    let above = tree.get(&folder);
    check_parent_open(tree, path, &folder, above)?;
    Ok(check_container(folder, above)?)
}

/// Refused where so many elements can't be made, drawing so many stamps.
pub fn check_numbers<T: TreeRep>(
    tree: &T,
    side: &Side,
    count: usize,
    stamps: usize,
) -> Result<(), OpRefusal>
    ensures judged { Decides (first_cause (number_causes (resources (T.tree tree.now) side.now) count stamps)) result }
    ensures drawn { OnOk result (CanDraw side.now count stamps) }
{
    if is_full(tree.len(), side.shelf.len(), count) {
        return Err(OpRefusal::TreeFull);
    }
    if any_spent(side, count, stamps) {
        return Err(OpRefusal::NumbersUsed);
    }
    Ok(())
}

/// Whether so many more elements are too many.
fn is_full(there: usize, shelved: usize, count: usize) -> bool
    ensures { result ≡ nat_lt max_elements (there + shelved + count) }
{
    there.saturating_add(shelved).saturating_add(count) > MAX_ELEMENTS
}

/// Whether so many nodes or so many stamps can't be drawn.
fn any_spent(side: &Side, nodes: usize, stamps: usize) -> bool
    ensures value { result ≡ (is_spent side.now.next_node nodes || is_spent side.now.next_stamp stamps) }
    ensures drawn { result ≡ false → CanDraw side.now nodes stamps }
{
    if is_spent(side.next_node, nodes) {
        return true;
    }
    is_spent(side.next_stamp, stamps)
}

/// Refused where no stamp can be drawn.
pub fn check_stamp(side: &Side) -> Result<(), OpRefusal>
    ensures judged { Decides (when (is_spent side.now.next_stamp 1) OpRefusal.NumbersUsed) result }
    ensures drawn { OnOk result (side.now.next_stamp + 1 < 2 ^ 64) }
{
    if is_spent(side.next_stamp, 1) {
        return Err(OpRefusal::NumbersUsed);
    }
    Ok(())
}

/// Refused where no marker's number can be drawn.
pub fn check_marker_number(side: &Side) -> Result<(), OpRefusal>
    ensures judged { Decides (when (is_spent side.now.next_marker 1) OpRefusal.NumbersUsed) result }
    ensures drawn { OnOk result (side.now.next_marker + 1 < 2 ^ 64) }
{
    if is_spent(side.next_marker, 1) {
        return Err(OpRefusal::NumbersUsed);
    }
    Ok(())
}

/// Refused where the path isn't a project's.
pub fn check_project_path(path: &Path) -> Result<(), OpError>
    ensures judged { Judges (when (not (is_project_path path.now)) (OpRefusal.WrongKind path.now)) result }
    ensures named { OnOk result (length path.now ≡ 1) }
{
    if path.depth() != 1 {
        return wrong_kind(path);
    }
    Ok(())
}

/// Refused where the path isn't a file's or a folder's.
pub fn check_member_path(path: &Path) -> Result<(), OpError>
    ensures { Judges (when (not (is_member_path path.now)) (OpRefusal.WrongKind path.now)) result }
{
    if path.depth() < 2 {
        return wrong_kind(path);
    }
    Ok(())
}

/// Refused where the path is the root's.
pub fn check_not_root(path: &Path) -> Result<(), OpError>
    ensures { Judges (when (is_root_path path.now) (OpRefusal.WrongKind path.now)) result }
{
    if path.depth() == 0 {
        return wrong_kind(path);
    }
    Ok(())
}

/// The project at the path. Refused where the path isn't a project's, and where nothing is there.
pub fn project_at<'a, T: TreeRep>(tree: &'a T, path: &Path) -> Result<&'a Element, OpError>
    ensures judged { Judges (first_cause (project_causes (T.tree tree.now) path.now)) result }
    ensures named { OnOk result (length path.now ≡ 1) }
    ensures element { IfOk result (λ element. get (T.tree tree.now) path.now ≡ Some element.now) }
{
    check_project_path(path)?;
    there(tree, path)
}

/// The file at the path whose contents are to change. Refused in a closed project, where nothing is at the path or no
/// file, and where no stamp can be drawn.
pub fn file_at<'a, T: TreeRep>(
    tree: &'a T,
    side: &Side,
    path: &Path,
) -> Result<&'a Element, OpError>
    ensures judged { Judges (first_cause (contents_causes (resources (T.tree tree.now) side.now) path.now)) result }
    ensures element { IfOk result (λ element. get (T.tree tree.now) path.now ≡ Some element.now) }
    ensures drawn { OnOk result (side.now.next_stamp + 1 < 2 ^ 64) }
{
    check_member_open(tree, path)?;
    let element = there(tree, path)?;
    if !element.kind.is_file() {
        return wrong_kind(path);
    }
    check_stamp(side)?;
    Ok(element)
}

/// Refused where nothing can be created at the path, its kind aside, drawing so many stamps.
pub fn check_creation<T: TreeRep>(
    tree: &T,
    side: &Side,
    path: &Path,
    stamps: usize,
) -> Result<(), OpError>
    ensures judged { Judges (first_cause (creation_causes (resources (T.tree tree.now) side.now) path.now stamps)) result }
    ensures drawn { OnOk result (CanDraw side.now 1 stamps) }
{
    check_above(tree, path)?;
    check_free(tree, path)?;
    Ok(check_numbers(tree, side, 1, stamps)?)
}

/// Refused where nothing can be created at the path even if it is free, its kind aside, drawing so many stamps.
pub fn check_around<T: TreeRep>(
    tree: &T,
    side: &Side,
    path: &Path,
    stamps: usize,
) -> Result<(), OpError>
    ensures judged { Judges (first_cause (around_causes (resources (T.tree tree.now) side.now) path.now stamps)) result }
    ensures drawn { OnOk result (CanDraw side.now 1 stamps) }
{
    check_above(tree, path)?;
    Ok(check_numbers(tree, side, 1, stamps)?)
}

/// Whether the path is a closed project's or of a member of one.
pub fn is_shut<T: TreeRep>(tree: &T, path: &Path) -> Result<bool, NoMemory>
    ensures { IfOk result (λ b. b ≡ is_shut (T.tree tree.now) path.now) }
{
    let project = project_of(path)?;
    Ok(has_closed(tree.get(&project)))
}

/// No resource of the kind that is spoken of can be at the path, or is.
pub fn wrong_kind<A>(path: &Path) -> Result<A, OpError>
    ensures refused { IfErr result (IfRefused (λ r. r ≡ OpRefusal.WrongKind path.now)) }
    ensures never { IsErr result }
{
    Err(OpError::Refused(OpRefusal::WrongKind(path.copy()?)))
}

/// Whether so many numbers can't be drawn from the counter.
fn is_spent(next: u64, count: usize) -> bool
    ensures value { result ≡ is_spent next count }
    ensures drawn { result ≡ false → next + count < 2 ^ 64 }
{
    MAX_NUMBER.saturating_sub(next) < count as u64
}

fn has_file(element: Option<&Element>) -> bool
    ensures { result ≡ has_file (option_copied element.entry) }
{
    match element {
        None => false,
        Some(element) => element.kind.is_file(),
    }
}

fn has_closed(element: Option<&Element>) -> bool
    ensures { result ≡ has_closed (option_copied element.entry) }
{
    match element {
        None => false,
        Some(element) => element.kind.is_project() && !element.opened,
    }
}

/// The name of the project that the path is or lies in.
pub fn name_of(alloc: Global, path: &Path) -> Result<Name, NoMemory>
    requires { 1 ≤ length path.now }
    ensures { IfOk result (λ name. name ≡ project_name path.now) }
{
    let project = project_of(path)?;
    let _text = project.as_str();
    match project.last() {
        None => unreachable!(),
        Some(text) => match Name::parse(alloc, text) {
            Ok(name) => Ok(name),
            Err(error) => Err(no_memory(error)),
        },
    }
}

/// Want of memory, which is what was met.
fn no_memory(error: PathError) -> NoMemory
    requires { error ≡ PathError.Memory }
{
    let _ = error;
    AllocError
}

/// The path of the project that the path is or lies in, and the root for the root.
#[tactic(auto, using(crate::proofs::Above::take_parent, crate::proofs::Above::parent_shorter))]
fn project_of(path: &Path) -> Result<Path, NoMemory>
    ensures { IfOk result (λ p. p ≡ project_of path.now) }
{
    if path.depth() <= 1 {
        return path.copy();
    }
    let parent = parent_of(path)?;
    project_of(&parent)
}

/// The path without its last name, and the root for the root.
fn parent_of(path: &Path) -> Result<Path, NoMemory>
    ensures { IfOk result (λ p. p ≡ parent path.now) }
{
    match path.parent()? {
        None => Ok(Path::root()),
        Some(parent) => Ok(parent),
    }
}
