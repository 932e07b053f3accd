//! The delta of recorded changes.
ghost use Rattle.std.specs.Prelude.{◌≡◌, ◌↔◌, false, [], map, IfOk, IfSome};
ghost use Rattle.std.specs.FinMap as finmap;
ghost use Rattle.res_path.specs.Paths.{Names};
ghost use Rattle.ws_elem.specs.Stamps.{SameContents};
ghost use Rattle.ws_elem.specs.Trees.{Tree, Whole};
ghost use Rattle.layer_log.specs.Records.{Leads};
ghost use Rattle.delta_kind.specs.Flags.{differs};
ghost use Rattle.delta_kind.specs.Deltas.{delta, TellsMoves, TellsPaths, TellsContents};
ghost use Rattle.delta_kind.specs.Rows.{shown, delta_of_rows};
ghost use Rattle.delta_make.specs.Inside.Changed.{row_of, changed_rows};

use delta_kind::{Delta, Row, delta_of_rows};
use layer_log::{Change, Changes};
use res_path::Path;
use std::alloc::Global;
use ws_elem::NoMemory;

/// The delta of any two trees between which the changes lead, and so of all that these changes came to at once: a file that
/// was moved twice was where it was at first, and is where it is at last. A change whose entries are equal tells nothing.
///
/// No tree is asked for. Costs one pass over the changes, in which each node that came or went is looked up among those that
/// went; no element is copied, and the delta's paths share their texts with the changes'.
pub fn delta_of(alloc: Global, changes: &Changes) -> Result<Delta, NoMemory>
    ensures delta { IfOk result (λ d. (a b : Tree) → Leads a changes.now b → d ≡ delta a b) }
    ensures none { IfOk result (λ d. (d ≡ []) ↔ ((p : Names) → IfSome (finmap.get changes.now p) (λ r. differs r.before r.after ≡ false))) }
    ensures same { IfOk result (λ d. ((p : Names) → IfSome (finmap.get changes.now p) (λ r. r.before ≡ r.after)) → d ≡ []) }
    // A node has each flag exactly where what the flag stands for holds.
    ensures tells { IfOk result (λ d. (a b : Tree) → Leads a changes.now b → TellsPaths a b d) }
    // Where equal stamps mean equal contents, a path without a node holds the same file bytes, or no file, in both.
    ensures contents { IfOk result (λ d. (a b : Tree) → Leads a changes.now b → SameContents a b → TellsContents a b d) }
    // Between whole trees a node tells just where what is at its path was, and where what was there is.
    ensures moves { IfOk result (λ d. (a b : Tree) → Leads a changes.now b → Whole a → Whole b → TellsMoves a b d) }
{
    delta_of_changed(alloc, changes)
}

fn delta_of_changed(alloc: Global, changes: &Changes) -> Result<Delta, NoMemory>
    ensures { IfOk result (λ d. d ≡ delta_of_rows (changed_rows changes.now)) }
{
    let rows = changed_rows(alloc, changes)?;
    delta_of_rows(alloc, rows.as_slice())
}

/// The rows of the changes that a delta tells, in path order.
fn changed_rows(alloc: Global, changes: &Changes) -> Result<Vec<Row<'_>>, NoMemory>
    ensures { IfOk result (λ rows. map shown rows.items ≡ changed_rows changes.now) }
{
    let mut rows = Vec::with_capacity(alloc, changes.len())?;
    for (path, change) in changes.iter() {
        let row = row_of(path, change);
        if row.differs() {
            rows.push(row)?;
        }
    }
    Ok(rows)
}

fn row_of<'a>(path: &'a Path, change: &'a Change) -> Row<'a>
    ensures { shown result ≡ row_of (path.now, change.now) }
{
    Row {
        path,
        before: change.before.as_ref(),
        after: change.after.as_ref(),
    }
}
