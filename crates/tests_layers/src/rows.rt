//! A table of rows, a line each: a word, what it gives, layers of changes or operations with semicolons between, and the tree
//! from which they lead, with bars between.
//!
//! A row is told again where memory wanted: so each test passes also where one allocation fails, whichever it is
//! (`rt try --test --fail-alloc N`).
use crate::asserting::must;
use crate::changes::{layers_of, net_of, put_changes, put_each, put_undone};
use crate::deltas::{put_delta_of, put_deltas_of};
use crate::elements::{put_tree, tree_of};
use crate::trees::{put_both, put_marks};
use layer_log::Changes;
use std::process::Abort;
use ws_elem::{ElemMap, NoMemory};

/// One row. Of the parts that it doesn't have each is empty.
#[derive(Clone, Copy)]
pub struct Row<'a> {
    pub word: &'a str,
    pub gives: &'a str,
    pub layers: &'a str,
    pub tree: &'a str,
}

/// What is before the mark, and what is after it.
pub fn cut(text: &str, mark: char) -> (&str, &str) {
    match text.split_once(mark) {
        Some(parts) => parts,
        None => (text, ""),
    }
}

fn row_of(line: &str) -> Row<'_> {
    let (word, rest) = cut(line, '|');
    let (gives, rest) = cut(rest, '|');
    let (layers, tree) = cut(rest, '|');
    Row {
        word,
        gives,
        layers,
        tree,
    }
}

/// What a row's word tells of its operations, or of its layers.
fn tell(rt: &(impl Abort + AllocGlobal), out: &mut String, row: &Row<'_>) -> Result<(), NoMemory> {
    let mut tree = tree_of(rt.alloc(), row.tree)?;
    match row.word {
        "both" => put_both(rt, out, &tree, row.layers),
        "at" | "since" | "changes" => put_marks(rt, out, row.word, &tree, row.layers),
        word => put_layers(rt, out, &mut tree, word, row.layers),
    }
}

fn told(rt: &(impl Abort + AllocGlobal), row: &Row<'_>) -> Result<String, NoMemory> {
    let mut out = String::new(rt.alloc());
    tell(rt, &mut out, row)?;
    Ok(out)
}

fn put_layers(
    rt: &(impl Abort + AllocGlobal),
    out: &mut String,
    tree: &mut ElemMap,
    word: &str,
    text: &str,
) -> Result<(), NoMemory> {
    let layers = layers_of(rt, tree, text)?;
    put_word(rt, out, tree, word, layers.as_slice())
}

/// What a word tells of layers: `each` the changes of each as they were recorded, `net` what they come to, `undo` the tree from
/// which they lead, `newest` the one to which they lead, `deltas` the delta of each and `delta` that of all.
fn put_word(
    rt: &(impl Abort + AllocGlobal),
    out: &mut String,
    tree: &ElemMap,
    word: &str,
    layers: &[Changes],
) -> Result<(), NoMemory> {
    match word {
        "each" => put_each(rt, out, layers),
        "net" => put_changes(rt, out, &net_of(rt, layers)?),
        "undo" => put_undone(rt, out, tree, layers),
        "newest" => put_tree(rt.alloc(), out, tree),
        "deltas" => put_deltas_of(rt.alloc(), out, layers),
        _ => put_delta_of(rt.alloc(), out, &net_of(rt, layers)?),
    }
}

/// What is told is what the row gives.
fn check(rt: &(impl Abort + AllocGlobal), row: &Row<'_>) {
    let told = match told(rt, row) {
        Ok(told) => told,
        Err(_) => must(rt, told(rt, row)),
    };
    let Row {
        word,
        gives,
        layers,
        ..
    } = *row;
    assert!(rt; told.as_str() == gives, "{word}|{told}|{layers}");
}

pub fn check_all(rt: &(impl Abort + AllocGlobal), rows: &str) {
    for line in rows.lines() {
        check(rt, &row_of(line));
    }
}
