//! The summary of a history and a tree.
ghost use Rattle.std.specs.Prelude.{◌≡◌, ◌++◌, OnOk};
ghost use Rattle.load_text.specs.Summaries.{counted_line, summary, tree_line};

use crate::NoMemory;
use crate::counting::{finished, settled};
use core_event::Entry;
use op_plan::walk::branch;
use report_text::{put_counted, put_text};
use res_path::Path;
use run_text::put_digest;
use std::alloc::Global;
use ws_elem::TreeRep;

/// Appends the summary of these entries and of the tree that they led to. Costs one pass over the entries, one look-up for
/// each element of the tree, and one pass over each file's bytes.
pub fn put_summary<T: TreeRep>(
    out: &mut Vec<u8>,
    alloc: Global,
    entries: &[Entry],
    tree: &T,
) -> Result<(), NoMemory>
    ensures { OnOk result (out.new.items ≡ out.old.items ++ summary entries.now (T.tree tree.now)) }
{
    put_line(out, "jobs ", finished(entries))?;
    put_line(out, "settled ", settled(entries))?;
    put_line(out, "elements ", tree.len())?;
    put_tree(out, alloc, tree)
}

/// Appends a line of a name and a count.
fn put_line(out: &mut Vec<u8>, name: &str, count: usize) -> Result<(), NoMemory>
    ensures { OnOk result (out.new.items ≡ out.old.items ++ counted_line name.now count) }
{
    put_counted(out, name, count as u64)?;
    put_text(out, "\n")
}

/// Appends the line of the tree's digest.
fn put_tree<T: TreeRep>(out: &mut Vec<u8>, alloc: Global, tree: &T) -> Result<(), NoMemory>
    ensures { OnOk result (out.new.items ≡ out.old.items ++ tree_line (T.tree tree.now)) }
{
    let root = Path::root();
    let elements = branch(alloc, tree, &root)?;
    put_text(out, "tree ")?;
    put_digest(out, &root, elements.as_slice())?;
    put_text(out, "\n")
}
