//! Ten thousand marks of a tree of many elements, with one change after each. A copy of the tree for each mark would take more
//! memory than there is.
use crate::asserting::{holds, must};
use crate::elements::path;
use crate::trees::since;
use elem_tree::{LayerTree, Mark};
use res_path::Path;
use std::alloc::Global;
use std::process::Abort;
use ws_elem::{ElemMap, Element, Kind, NoMemory};

const ELEMENTS: u64 = 100_000;

const MARKS: u64 = 10_000;
/// Elements between one change and the next: each of the changes is at another path.
const STRIDE: u64 = 10;
/// Marks between one that is asked and the next.
const ASKED: u64 = 100;
/// Marks between one that is forgotten and the next; it has no factor in common with their number.
const JUMP: u64 = 7_919;

fn file_at(alloc: Global, n: u64) -> Result<Path, NoMemory> {
    path(alloc, format!(in alloc; "/P/f{n}")?.as_str())
}

fn file(n: u64, stamp: u64) -> Element {
    Element {
        stamp,
        ..Element::bare(Kind::File, n)
    }
}

fn put_files(alloc: Global, map: &mut ElemMap) -> Result<(), NoMemory> {
    for n in 0..ELEMENTS {
        map.put(file_at(alloc, n)?, file(n, 1))?;
    }
    Ok(())
}

fn seal_one(
    alloc: Global,
    tree: &mut LayerTree,
    marks: &mut Vec<Option<Mark>>,
    n: u64,
) -> Result<(), NoMemory> {
    marks.push(Some(tree.seal(alloc)?))?;
    tree.put(file_at(alloc, n)?, file(n, 2))?;
    Ok(())
}

fn seal_all(
    alloc: Global,
    tree: &mut LayerTree,
    marks: &mut Vec<Option<Mark>>,
) -> Result<(), NoMemory> {
    for n in 0..MARKS {
        seal_one(alloc, tree, marks, n.wrapping_mul(STRIDE))?;
    }
    Ok(())
}

fn is_asked(n: u64) -> bool {
    n % ASKED == 0
}

/// The mark is followed by as many changes as marks were made from it on.
fn ask_one(
    rt: &(impl Abort + AllocGlobal),
    tree: &LayerTree,
    mark: Option<&Mark>,
    n: u64,
) -> Result<(), NoMemory> {
    let Some(mark) = mark else {
        panic!(rt; "the mark is gone");
    };
    let changes = since(rt.alloc(), tree, mark)?;
    holds(
        rt,
        u64::try_from(changes.len()) == Ok(MARKS.wrapping_sub(n)),
    );
    Ok(())
}

/// Asks every hundredth mark.
fn ask_all(
    rt: &(impl Abort + AllocGlobal),
    tree: &LayerTree,
    marks: &[Option<Mark>],
) -> Result<(), NoMemory> {
    let mut n = 0;
    for mark in marks {
        if is_asked(n) {
            ask_one(rt, tree, mark.as_ref(), n)?;
        }
        n = n.wrapping_add(1);
    }
    Ok(())
}

fn forget_one(
    alloc: Global,
    tree: &mut LayerTree,
    mark: &mut Option<Mark>,
) -> Result<(), NoMemory> {
    let Some(mark) = mark.take() else {
        return Ok(());
    };
    match tree.forget(alloc, mark) {
        Ok(()) => Ok(()),
        Err((wanted, _)) => Err(wanted),
    }
}

/// Forgets all marks but each hundredth, in an order that favours none.
fn forget_most(
    alloc: Global,
    tree: &mut LayerTree,
    marks: &mut [Option<Mark>],
) -> Result<(), NoMemory> {
    for n in 0..MARKS {
        let place = n.wrapping_mul(JUMP) % MARKS;
        if !is_asked(place)
            && let Ok(place) = usize::try_from(place)
            && let Some(mark) = marks.get_mut(place)
        {
            forget_one(alloc, tree, mark)?;
        }
    }
    Ok(())
}

fn mark_and_ask(
    rt: &(impl Abort + AllocGlobal),
    tree: &mut LayerTree,
    marks: &mut Vec<Option<Mark>>,
) -> Result<(), NoMemory> {
    seal_all(rt.alloc(), tree, marks)?;
    ask_all(rt, tree, marks.as_slice())?;
    forget_most(rt.alloc(), tree, marks.as_mut_slice())?;
    ask_all(rt, tree, marks.as_slice())
}

fn mark_many(rt: &(impl Abort + AllocGlobal)) -> Result<(), NoMemory> {
    let mut map = ElemMap::empty(rt.alloc());
    put_files(rt.alloc(), &mut map)?;
    let mut tree = LayerTree::of(rt.alloc(), map);
    let mut marks = Vec::new(rt.alloc());
    mark_and_ask(rt, &mut tree, &mut marks)
}

#[test]
fn ten_thousand_marks_keep_what_changed_alone(rt: HostRuntime) {
    must(&rt, mark_many(&rt));
}
