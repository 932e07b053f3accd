//! The lines of a delta.
ghost use Rattle.std.specs.Prelude.{◌≡◌, ◌++◌, IfOk, OnOk};
ghost use Rattle.std.specs.List.{flat_map};
ghost use Rattle.std.specs.Option.{option_copied};
ghost use Rattle.report_text.specs.Deltas.{sign, where_set, place_text, moved_names, kind_names, middle_names, last_names, flag_names, node_line, marker_sign, marker_line, node_lines, delta_lines};

use crate::NoMemory;
use crate::put::{put_counted, put_named, put_path, put_text};
use delta_kind::{
    ADDED, CONTENT, DERIVED_CHANGED, DESCRIPTION, Delta, DeltaNode, MARKERS, OPEN, REMOVED,
    REPLACED, SYNC, TYPE,
};
use mark_set::{Change, MarkerDelta};
use res_path::Path;
use std::alloc::Global;

/// The lines of a delta.
pub fn delta_lines(alloc: Global, delta: &Delta) -> Result<Vec<u8>, NoMemory>
    ensures { IfOk result (λ text. text.items ≡ delta_lines delta.now) }
{
    let mut out = Vec::new(alloc);
    put_nodes(&mut out, delta.nodes())?;
    Ok(out)
}

fn put_nodes(out: &mut Vec<u8>, nodes: &[DeltaNode]) -> Result<(), NoMemory>
    ensures { OnOk result (out.new.items ≡ out.old.items ++ delta_lines nodes.now) }
{
    for node in nodes {
        put_node(out, node)?;
    }
    Ok(())
}

/// Appends the line of a node and a line for each of its marker deltas. A node's line has two spaces, its path, `+` where
/// it came, `-` where it went, else `*`, and the names of its flags in the order of their numbers. A marker delta's has
/// four spaces, `marker`, the id, its sign and the type.
pub fn put_node(out: &mut Vec<u8>, node: &DeltaNode) -> Result<(), NoMemory>
    ensures { OnOk result (out.new.items ≡ out.old.items ++ node_lines node.now) }
{
    put_line(out, node)?;
    put_markers(out, node.markers.as_slice())
}

fn put_line(out: &mut Vec<u8>, node: &DeltaNode) -> Result<(), NoMemory>
    ensures { OnOk result (out.new.items ≡ out.old.items ++ node_line node.now) }
{
    put_path(out, "  ", &node.path)?;
    put_sign(out, node.kind)?;
    put_flags(out, node)?;
    put_text(out, "\n")
}

fn put_sign(out: &mut Vec<u8>, kind: u8) -> Result<(), NoMemory>
    ensures { OnOk result (out.new.items ≡ out.old.items ++ sign kind) }
{
    if kind == ADDED {
        put_text(out, " +")
    } else if kind == REMOVED {
        put_text(out, " -")
    } else {
        put_text(out, " *")
    }
}

/// Appends the names of the flags that are set, in the order of their numbers.
#[tactic(auto, using(crate::proofs::Flags::unset_names))]
fn put_flags(out: &mut Vec<u8>, node: &DeltaNode) -> Result<(), NoMemory>
    ensures { OnOk result (out.new.items ≡ out.old.items ++ flag_names node.now) }
{
    if node.flags == 0 {
        return put_moved(out, node);
    }
    put_set_flags(out, node)
}

/// The same, where each flag is asked for.
fn put_set_flags(out: &mut Vec<u8>, node: &DeltaNode) -> Result<(), NoMemory>
    ensures { OnOk result (out.new.items ≡ out.old.items ++ flag_names node.now) }
{
    put_where_set(out, node.flags, CONTENT, " CONTENT")?;
    put_moved(out, node)?;
    put_kind_flags(out, node.flags)?;
    put_middle_flags(out, node.flags)?;
    put_last_flags(out, node.flags)
}

fn put_where_set(out: &mut Vec<u8>, flags: u32, flag: u32, text: &str) -> Result<(), NoMemory>
    ensures { OnOk result (out.new.items ≡ out.old.items ++ where_set flags flag text.now) }
{
    if flags & flag == 0 {
        return Ok(());
    }
    put_text(out, text)
}

fn put_moved(out: &mut Vec<u8>, node: &DeltaNode) -> Result<(), NoMemory>
    ensures { OnOk result (out.new.items ≡ out.old.items ++ moved_names node.now) }
{
    put_place(out, " MOVED_FROM=", node.moved_from.path())?;
    put_place(out, " MOVED_TO=", node.moved_to.path())
}

fn put_place(out: &mut Vec<u8>, text: &str, place: Option<&Path>) -> Result<(), NoMemory>
    ensures { OnOk result (out.new.items ≡ out.old.items ++ place_text text.now (option_copied place.entry)) }
{
    match place {
        Some(path) => put_path(out, text, path),
        None => Ok(()),
    }
}

fn put_kind_flags(out: &mut Vec<u8>, flags: u32) -> Result<(), NoMemory>
    ensures { OnOk result (out.new.items ≡ out.old.items ++ kind_names flags) }
{
    put_where_set(out, flags, OPEN, " OPEN")?;
    put_where_set(out, flags, TYPE, " TYPE")
}

fn put_middle_flags(out: &mut Vec<u8>, flags: u32) -> Result<(), NoMemory>
    ensures { OnOk result (out.new.items ≡ out.old.items ++ middle_names flags) }
{
    put_where_set(out, flags, SYNC, " SYNC")?;
    put_where_set(out, flags, MARKERS, " MARKERS")?;
    put_where_set(out, flags, REPLACED, " REPLACED")
}

fn put_last_flags(out: &mut Vec<u8>, flags: u32) -> Result<(), NoMemory>
    ensures { OnOk result (out.new.items ≡ out.old.items ++ last_names flags) }
{
    put_where_set(out, flags, DESCRIPTION, " DESCRIPTION")?;
    put_where_set(out, flags, DERIVED_CHANGED, " DERIVED_CHANGED")
}

fn put_markers(out: &mut Vec<u8>, deltas: &[MarkerDelta]) -> Result<(), NoMemory>
    ensures { OnOk result (out.new.items ≡ out.old.items ++ flat_map marker_line deltas.now) }
{
    for delta in deltas {
        put_marker(out, delta)?;
    }
    Ok(())
}

fn put_marker(out: &mut Vec<u8>, delta: &MarkerDelta) -> Result<(), NoMemory>
    ensures { OnOk result (out.new.items ≡ out.old.items ++ marker_line delta.now) }
{
    put_counted(out, "    marker ", delta.id)?;
    put_named(
        out,
        marker_sign(delta.change),
        delta.mark_type.text().as_bytes(),
    )?;
    put_text(out, "\n")
}

fn marker_sign(change: Change) -> &'static str
    ensures { result.now ≡ marker_sign change }
{
    match change {
        Change::Added => " + ",
        Change::Removed => " - ",
        Change::Changed => " * ",
    }
}
