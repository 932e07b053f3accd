//! The platform's kinds and flags of a change (`IResourceDelta`), and when each holds.
ghost use Rattle.std.specs.Prelude.{false, ◌≡◌, ◌≤◌, ◌<◌, ◌^◌, IfOk, unwrap_or};
ghost use Rattle.std.specs.FinMap.{empty};
ghost use Rattle.std.specs.Option.{option_copied, option_map_or};
ghost use Rattle.ws_elem.specs.Attached.{nothing_attached};
ghost use Rattle.mark_set.specs.Deltas.{marker_deltas};
ghost use Rattle.delta_kind.specs.Flags.{has_content, has_open, has_type, has_sync, has_markers, has_replaced, has_description, has_derived_changed, marks_of, syncs_of, flag_if, flags_of, moved_flags, kind_of, differs};

use mark_set::{MarkSet, MarkerDeltas};
use res_path::Path;
use std::alloc::Global;
use sync_set::SyncSet;
use ws_elem::{Attachments, Element, NoMemory};

/// Of a delta without nodes: nothing changed.
pub const NO_CHANGE: u8 = 0;

/// Only the second tree has the path.
pub const ADDED: u8 = 1;

/// Only the first tree has the path.
pub const REMOVED: u8 = 2;

/// Both trees have the path.
pub const CHANGED: u8 = 4;

/// The contents of a file changed.
pub const CONTENT: u32 = 0x100;

/// What is at the path was at another one.
pub const MOVED_FROM: u32 = 0x1000;

/// What was at the path is at another one.
pub const MOVED_TO: u32 = 0x2000;

/// A project was opened or closed, or came and is open.
pub const OPEN: u32 = 0x4000;

/// A resource of another kind stands at the path.
pub const TYPE: u32 = 0x8000;

/// The synchronisation bytes of the resource changed, or came or went with it.
pub const SYNC: u32 = 0x10000;

/// The markers of the resource changed, or came or went with it.
pub const MARKERS: u32 = 0x20000;

/// Another resource stands at the path.
pub const REPLACED: u32 = 0x40000;

/// The description of a project changed.
pub const DESCRIPTION: u32 = 0x80000;

/// A resource became derived, or no longer is.
pub const DERIVED_CHANGED: u32 = 0x400000;

fn has_content(before: Option<&Element>, after: Option<&Element>) -> bool
    ensures { result ≡ has_content (option_copied before.entry) (option_copied after.entry) }
{
    match (before, after) {
        (Some(a), Some(b)) => a.kind.is_file() && b.kind.is_file() && a.stamp != b.stamp,
        _ => false,
    }
}

fn has_open(before: Option<&Element>, after: Option<&Element>) -> bool
    ensures { result ≡ has_open (option_copied before.entry) (option_copied after.entry) }
{
    match (before, after) {
        (Some(a), Some(b)) => a.kind.is_project() && b.kind.is_project() && a.opened != b.opened,
        (None, Some(b)) => b.kind.is_project() && b.opened,
        _ => false,
    }
}

fn has_type(before: Option<&Element>, after: Option<&Element>) -> bool
    ensures { result ≡ has_type (option_copied before.entry) (option_copied after.entry) }
{
    match (before, after) {
        (Some(a), Some(b)) => a.kind.number() != b.kind.number(),
        _ => false,
    }
}

/// Whether the synchronisation bytes differ.
#[inline(always)]
#[tactic(auto, using(crate::proofs::Moved::same_syncs_kept))]
fn has_sync(before: Option<&Element>, after: Option<&Element>) -> bool
    ensures { result ≡ has_sync (option_copied before.entry) (option_copied after.entry) }
{
    if !has_attachments(before, after) {
        return false;
    }
    let none = SyncSet::empty();
    syncs_of(before, &none) != syncs_of(after, &none)
}

fn syncs_of<'a>(element: Option<&'a Element>, none: &'a SyncSet) -> &'a SyncSet
    requires { none.now ≡ empty }
    ensures { result.now ≡ syncs_of (option_copied element.entry) }
{
    match attachments_of(element) {
        Some(attachments) => &attachments.syncs,
        None => none,
    }
}

/// Whether the markers differ.
#[inline(always)]
#[tactic(auto, using(crate::proofs::Moved::same_marks_kept))]
fn has_markers(before: Option<&Element>, after: Option<&Element>) -> bool
    ensures { result ≡ has_markers (option_copied before.entry) (option_copied after.entry) }
{
    if !has_attachments(before, after) {
        return false;
    }
    let none = MarkSet::empty();
    marks_of(before, &none) != marks_of(after, &none)
}

fn marks_of<'a>(element: Option<&'a Element>, none: &'a MarkSet) -> &'a MarkSet
    requires { none.now ≡ empty }
    ensures { result.now ≡ marks_of (option_copied element.entry) }
{
    match attachments_of(element) {
        Some(attachments) => &attachments.marks,
        None => none,
    }
}

fn has_replaced(before: Option<&Element>, after: Option<&Element>) -> bool
    ensures { result ≡ has_replaced (option_copied before.entry) (option_copied after.entry) }
{
    match (before, after) {
        (Some(a), Some(b)) => a.node != b.node,
        _ => false,
    }
}

fn has_description(before: Option<&Element>, after: Option<&Element>) -> bool
    ensures { result ≡ has_description (option_copied before.entry) (option_copied after.entry) }
{
    match (before, after) {
        (Some(a), Some(b)) => {
            a.kind.is_project() && b.kind.is_project() && stamp_of(a) != stamp_of(b)
        }
        _ => false,
    }
}

/// The stamp of the element's description.
fn stamp_of(element: &Element) -> u64
    ensures { result ≡ element.now.attached.desc_stamp }
{
    match element.attached.kept() {
        Some(attachments) => attachments.desc_stamp,
        None => 0,
    }
}

/// Whether either keeps attachments; where neither does, the same is attached to both: nothing.
#[inline(always)]
fn has_attachments(before: Option<&Element>, after: Option<&Element>) -> bool
    ensures { result ≡ false → option_map_or (λ e. e.attached) (option_copied before.entry) nothing_attached ≡ option_map_or (λ e. e.attached) (option_copied after.entry) nothing_attached }
{
    attachments_of(before).is_some() || attachments_of(after).is_some()
}

/// What is attached to the element, if there is one; none only where nothing is.
fn attachments_of(element: Option<&Element>) -> Option<&Attachments>
    ensures { unwrap_or (option_copied result) nothing_attached ≡ option_map_or (λ e. e.attached) (option_copied element.entry) nothing_attached }
{
    match element {
        Some(element) => element.attached.kept(),
        None => None,
    }
}

fn has_derived_changed(before: Option<&Element>, after: Option<&Element>) -> bool
    ensures { result ≡ has_derived_changed (option_copied before.entry) (option_copied after.entry) }
{
    match (before, after) {
        (Some(a), Some(b)) => a.derived != b.derived,
        _ => false,
    }
}

fn flag_if(flag: u32, holds: bool) -> u32
    ensures value { result ≡ flag_if flag holds }
    ensures most { result ≤ flag }
{
    if holds { flag } else { 0 }
}

/// The flags that hold of a path with these entries, but for those that tell where a node was and went.
pub fn flags_of(before: Option<&Element>, after: Option<&Element>) -> u32
    ensures value { result ≡ flags_of (option_copied before.entry) (option_copied after.entry) }
    ensures most { result < 2 ^ 24 }
{
    flag_if(CONTENT, has_content(before, after))
        + flag_if(OPEN, has_open(before, after))
        + flag_if(TYPE, has_type(before, after))
        + flag_if(SYNC, has_sync(before, after))
        + flag_if(MARKERS, has_markers(before, after))
        + flag_if(REPLACED, has_replaced(before, after))
        + flag_if(DESCRIPTION, has_description(before, after))
        + flag_if(DERIVED_CHANGED, has_derived_changed(before, after))
}

/// The flags that tell where a node was and went.
pub fn moved_flags(from: Option<&Path>, to: Option<&Path>) -> u32
    ensures value { result ≡ moved_flags (option_copied from.entry) (option_copied to.entry) }
    ensures most { result < 2 ^ 16 }
{
    flag_if(MOVED_FROM, from.is_some()) + flag_if(MOVED_TO, to.is_some())
}

/// What became of each marker of a path with these entries, by id. Where the markers are equal it takes no memory.
#[tactic(auto, using(crate::proofs::Moved::equal_marks))]
pub fn markers_of(
    alloc: Global,
    before: Option<&Element>,
    after: Option<&Element>,
) -> Result<MarkerDeltas, NoMemory>
    ensures { IfOk result (λ deltas. deltas ≡ marker_deltas (marks_of (option_copied before.entry)) (marks_of (option_copied after.entry))) }
{
    if !has_markers(before, after) {
        return Ok(MarkerDeltas::of(Vec::new(alloc)));
    }
    let none = MarkSet::empty();
    let deltas = MarkSet::delta(alloc, marks_of(before, &none), marks_of(after, &none))?;
    Ok(MarkerDeltas::of(deltas))
}

/// `ADDED`, `REMOVED` or `CHANGED`.
pub fn kind_of(before: Option<&Element>, after: Option<&Element>) -> u8
    ensures { result ≡ kind_of (option_copied before.entry) (option_copied after.entry) }
{
    match (before, after) {
        (None, Some(_)) => ADDED,
        (Some(_), None) => REMOVED,
        (Some(_), Some(_)) => CHANGED,
        (None, None) => CHANGED,
    }
}

/// Whether the path came, went or has a flag.
pub fn differs(before: Option<&Element>, after: Option<&Element>) -> bool
    ensures { result ≡ differs (option_copied before.entry) (option_copied after.entry) }
{
    match (before, after) {
        (Some(_), Some(_)) => flags_of(before, after) != 0,
        (None, None) => false,
        _ => true,
    }
}
