//! The plans of what changes synchronisation partners and their bytes.
ghost use Rattle.std.specs.Prelude.{◌≡◌, not, Some, IfOk};
ghost use Rattle.std.specs.FinMap.{get};
ghost use Rattle.sync_set.specs.Syncs.{with_bytes};
ghost use Rattle.op_kind.specs.Judging.{Judges};
ghost use Rattle.op_kind.specs.Marking.{reached};
ghost use Rattle.op_kind.specs.Partners.{is_partner, number_of};
ghost use Rattle.proj_desc.specs.FirstCause.{first_cause, when};
ghost use Rattle.op_kind.specs.Refusals.{sync_causes, flush_causes};
ghost use Rattle.op_kind.specs.Resources.{resources};
ghost use Rattle.op_plan.specs.Inside.Plans.{Plans, put_at, unsync_at};

use crate::marking::there_open;
use crate::{NoMemory, Op, OpAnswer, OpError, OpRefusal, Partners, Side};
use bytes::Bytes;
use op_plan::checks::check_not_root;
use op_plan::{Plan, losing, walk};
use res_path::{Name, Path};
use std::alloc::{AllocError, Global};
use ws_elem::{Depth, Element, TreeRep};

/// The most partners that there may be.
const MAX_PARTNERS: usize = (1 << 32) - 1;

/// The partner is registered; one that is there stays.
pub fn register<T: TreeRep>(
    alloc: Global,
    tree: &T,
    side: &Side,
    name: &Name,
) -> Result<Plan, OpError>
    ensures { Plans (resources (T.tree tree.now) side.now) (Op.Partner name.now) result }
{
    let mut plan = Plan::nothing(alloc, side);
    if side.partners.place_of(name).is_some() {
        return Ok(plan);
    }
    if side.partners.len() >= MAX_PARTNERS {
        return Err(OpError::Refused(OpRefusal::NumbersUsed));
    }
    plan.partner = Some(name.copy()?);
    Ok(plan)
}

/// The partner keeps these bytes at the path, which are shared, or none.
pub fn sync<T: TreeRep>(
    alloc: Global,
    tree: &T,
    side: &Side,
    path: &Path,
    name: &Name,
    bytes: &Option<Bytes>,
) -> Result<Plan, OpError>
    ensures { Plans (resources (T.tree tree.now) side.now) (Op.Sync path.now name.now bytes.now) result }
{
    let (element, number) = syncable(tree, side, path, name)?;
    Ok(plan_sync(alloc, side, path, element, number, bytes)?)
}

/// What is at the path, and the partner's number. Refused for the root, in a closed project and where the project is
/// closed itself, where nothing is at the path, and where no partner of this name is registered.
fn syncable<'a, T: TreeRep>(
    tree: &'a T,
    side: &Side,
    path: &Path,
    name: &Name,
) -> Result<(&'a Element, u32), OpError>
    ensures judged { Judges (first_cause (sync_causes (resources (T.tree tree.now) side.now) path.now name.now)) result }
    ensures element { IfOk result (λ found. get (T.tree tree.now) path.now ≡ Some found.0.now) }
    ensures number { IfOk result (λ found. found.1 ≡ number_of side.now.partners name.now) }
{
    check_not_root(path)?;
    let element = there_open(tree, path)?;
    let number = number_of(&side.partners, name)?;
    Ok((element, number))
}

fn plan_sync(
    alloc: Global,
    side: &Side,
    path: &Path,
    element: &Element,
    number: u32,
    bytes: &Option<Bytes>,
) -> Result<Plan, NoMemory>
    ensures { IfOk result (λ plan. plan ≡ put_at side.now path.now (record element.now {
      attached = record element.now.attached { syncs = with_bytes element.now.attached.syncs number bytes.now };
    })) }
{
    let mut attachments = element.attached.to_attachments()?;
    attachments.syncs.set(alloc, number, bytes.clone()?)?;
    let synced = element.with_attachments(alloc, attachments)?;
    Plan::put(alloc, side, path, synced)
}

/// The partner's bytes go, at the path and below it to the depth.
pub fn flush<T: TreeRep>(
    alloc: Global,
    tree: &T,
    side: &Side,
    path: &Path,
    name: &Name,
    depth: Depth,
) -> Result<Plan, OpError>
    ensures { Plans (resources (T.tree tree.now) side.now) (Op.Flush path.now name.now depth) result }
{
    let number = flushable(tree, side, path, name)?;
    Ok(plan_flush(alloc, tree, side, path, number, depth)?)
}

/// The partner's number. Refused in a closed project and where the project is closed itself, where nothing is at the
/// path, and where no partner of this name is registered.
fn flushable<T: TreeRep>(tree: &T, side: &Side, path: &Path, name: &Name) -> Result<u32, OpError>
    ensures judged { Judges (first_cause (flush_causes (resources (T.tree tree.now) side.now) path.now name.now)) result }
    ensures number { IfOk result (λ number. number ≡ number_of side.now.partners name.now) }
{
    there_open(tree, path)?;
    Ok(number_of(&side.partners, name)?)
}

fn plan_flush<T: TreeRep>(
    alloc: Global,
    tree: &T,
    side: &Side,
    path: &Path,
    number: u32,
    depth: Depth,
) -> Result<Plan, NoMemory>
    ensures { IfOk result (λ plan. plan ≡ unsync_at side.now number (reached (T.tree tree.now) path.now depth)) }
{
    let reached = walk::reached(alloc, tree, path, depth)?;
    let mut plan = Plan::nothing(alloc, side);
    let count = losing::unsync_all(alloc, &reached, number, &mut plan.tree)?;
    plan.answer = OpAnswer::Count(count);
    Ok(plan)
}

/// The partner's number. Refused where no partner of this name is registered.
fn number_of(partners: &Partners, name: &Name) -> Result<u32, OpError>
    ensures judged { Judges (when (not (is_partner partners.now name.now)) OpRefusal.PartnerUnknown) result }
    ensures number { IfOk result (λ n. n ≡ number_of partners.now name.now) }
{
    match partners.place_of(name) {
        None => Err(OpError::Refused(OpRefusal::PartnerUnknown)),
        Some(place) => Ok(as_number(place)?),
    }
}

/// The place as a number, where it is one.
fn as_number(place: usize) -> Result<u32, NoMemory>
    ensures { IfOk result (λ n. n ≡ place) }
{
    match u32::try_from(place) {
        Ok(number) => Ok(number),
        Err(_) => Err(AllocError),
    }
}
