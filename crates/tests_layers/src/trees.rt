//! Trees with marks, beside flat trees.
ghost use Rattle.std.specs.Prelude.{◌≡◌, ◌<◌, ◌≤◌, IfOk, IfSome};
ghost use Rattle.elem_tree.specs.Layers.{from_mark, records, tree_at};

use crate::asserting::holds;
use crate::changes::put_changes;
use crate::deltas::put_delta_of;
use crate::elements::{element, is_written, number, path, put, put_element, put_tree};
use crate::rows::{check_all, cut};
use elem_tree::{LayerTree, Mark};
use layer_log::{Changes, Steps};
use res_path::Path;
use std::alloc::{AllocError, Global};
use std::marker::Brand;
use std::process::Abort;
use std::sync::ledger::{Blank, Ledger};
use tree_flat::FlatTree;
use ws_elem::{ElemMap, Element, NoMemory, TreeRep};

/// Operations stand with a semicolon between; `seal` makes a mark, and `forget N` forgets one, counted from 0 among those that
/// are left. `at` gives the tree of each mark that is left, `since` the delta from it to the newest tree, and `changes` the
/// changes of which that is made. `both` gives the answers of a flat tree and of one with marks, which is sealed after each
/// operation.
const ROWS: &str =
    "since|/ 4 0, /P 4 0, /P/a 2 2000 to /P/c, /P/c 1 1000 from /P/a, ; / 4 0, /P 4 0, /P/b 2 2000 to /P/c, /P/c 1 1000 from /P/b, ; |seal; take /P/a; put /P/b f3.2; seal; take /P/b; put /P/c f3.2|/=r1 /P=p2 /P/a=f3.2
changes|/P/a=f3.2>- /P/c=->f3.2 ; /P/b=f3.2>- /P/c=->f3.2 ; |seal; take /P/a; put /P/b f3.2; seal; take /P/b; put /P/c f3.2|/=r1 /P=p2 /P/a=f3.2
at|/=r1 /P=p2 /P/a=f3.2 ; /=r1 /P=p2 /P/b=f3.2 ; |seal; take /P/a; put /P/b f3.2; seal; take /P/b; put /P/c f3.2|/=r1 /P=p2 /P/a=f3.2
at|/=r1 /P=p2 ; /=r1 /P=p2 ; /=r1 ; /=r1 /P=p5 ; |seal; seal; take /P; seal; put /P p5; seal|/=r1 /P=p2
changes|/P=p2>p5 ; /P=p2>p5 ; /P=->p5 ; ; |seal; seal; take /P; seal; put /P p5; seal|/=r1 /P=p2
changes|; |put /P/a f3; seal; put /P q2; put /P p2|/=r1 /P=p2
changes|/P/b=->f4 ; ; |seal; room /P/b; room /P/c; put /P/b f4; drop /; seal; room /P/d; new /P/b f9|/=r1 /P=p2
at|/=r1 /P=p2 ; /=r1 /P=p2 ; /=r1 /P=p2 /P/b=f4 ; |seal; room /P/b; seal; put /P/b f4; seal; take /P/b; take /P|/=r1 /P=p2
at|/=r1 /P=p2 ; /=r1 /P=p2 /P/a=f3 /P/b=f4 ; |seal; put /P/a f3; seal; put /P/b f4; seal; take /P/a; forget 1|/=r1 /P=p2
changes|/P/b=->f4 ; /P/a=f3>- ; |seal; put /P/a f3; seal; put /P/b f4; seal; take /P/a; forget 1|/=r1 /P=p2
at|/=r1 /P=p2 /P/a=f3 ; |seal; put /P/a f3; seal; put /P/a f3.7; forget 0|/=r1 /P=p2
at|/=r1 /P=p2 ; |seal; put /P/a f3; room /P/b; seal; put /P/b f4; forget 1; put /P/a f5|/=r1 /P=p2
changes|/P/a=->f5 /P/b=->f4 ; |seal; put /P/a f3; room /P/b; seal; put /P/b f4; forget 1; put /P/a f5|/=r1 /P=p2
changes|/P/a=->f6 /P/b=->f4 /P/c=->f5 ; ; |seal; put /P/a f3; put /P/b f4; put /P/c f5; seal; put /P/a f6; seal; forget 1|/=r1 /P=p2
at|/=r1 /P=p2 /P/a=f3 ; /=r1 /P=p2 /P/a=f9 /P/b=f4 /P/c=f5 ; |seal; put /P/a f9; seal; put /P/b f4; put /P/c f5; seal; take /P; forget 1|/=r1 /P=p2 /P/a=f3
at|/=r1 /P=p2 /P/a=f3 /P/b=f4 ; |seal; put /P/a f3; forget 0; put /P/b f4; seal; take /P/a|/=r1 /P=p2
changes||seal; put /P/a f3; seal; forget 1; forget 0; put /P/b f4|/=r1 /P=p2
both|- f3.2 there put 5 /P/b=f4 f4 /P/c=f6.1 - 4 none |put /P/b f4; put /P/a f3.5; new /P/a f9; new /P/c f6.1; len /; next /P/a; take /P/b; next /P/a; take /P/b; len /; next /P/c|/=r1 /P=p2 /P/a=f3.2
both|none - f3.2 3 f4 - /P/a=f7.1 3 |room /P/a; room /P/b; next /P/a; put /P/b f4; take /P/a; len /; drop /; take /P/b; put /P/a f7.1; next /P; len /|/=r1 /P=p2 /P/a=f3.2
both|put r1 - put 1 |room /; new / r1; take /; take /; new / r1; drop /; len /|";

fn put_entry(
    alloc: Global,
    out: &mut String,
    entry: Option<(&Path, &Element)>,
) -> Result<(), NoMemory> {
    let Some((path, element)) = entry else {
        return put(out, "none ");
    };
    put(out, path.as_str())?;
    put(out, "=")?;
    put_element(alloc, out, Some(element))?;
    put(out, " ")
}

fn put_before(alloc: Global, out: &mut String, before: Option<Element>) -> Result<(), NoMemory> {
    put_element(alloc, out, before.as_ref())?;
    put(out, " ")
}

/// Puts the element. Where memory wants, all stays as it was, and a second call does what the first would have done.
fn put_again(
    tree: &mut impl TreeRep,
    at: &Path,
    element: Element,
) -> Result<Option<Element>, NoMemory> {
    let again = element.copy()?;
    match tree.put(at.copy()?, element) {
        Ok(before) => Ok(before),
        Err(_) => tree.put(at.copy()?, again),
    }
}

/// As `put_again`.
fn new_again(tree: &mut impl TreeRep, at: &Path, element: Element) -> Result<bool, NoMemory> {
    let again = element.copy()?;
    match tree.put_new(at, element) {
        Ok(puts) => Ok(puts),
        Err(_) => tree.put_new(at, again),
    }
}

/// As `put_again`.
fn take_again(tree: &mut impl TreeRep, at: &Path) -> Result<Option<Element>, NoMemory> {
    match tree.take(at) {
        Ok(before) => Ok(before),
        Err(_) => tree.take(at),
    }
}

/// As `put_again`.
fn room_again(tree: &mut impl TreeRep, at: &Path) -> Result<(), NoMemory> {
    match tree.make_room(at) {
        Ok(()) => Ok(()),
        Err(_) => tree.make_room(at),
    }
}

/// Does `put` or `new`, and adds the answer.
fn place(
    alloc: Global,
    out: &mut String,
    tree: &mut impl TreeRep,
    at: &Path,
    element: Element,
    is_new: bool,
) -> Result<(), NoMemory> {
    if !is_new {
        return put_before(alloc, out, put_again(tree, at, element)?);
    }
    let puts = new_again(tree, at, element)?;
    put(out, if puts { "put " } else { "there " })
}

/// Does one operation at the path, and adds its answer.
fn operate_at(
    alloc: Global,
    out: &mut String,
    tree: &mut impl TreeRep,
    verb: &str,
    at: &Path,
    element: Option<Element>,
) -> Result<(), NoMemory> {
    if let Some(element) = element {
        return place(alloc, out, tree, at, element, verb == "new");
    }
    match verb {
        "take" => put_before(alloc, out, take_again(tree, at)?),
        "next" => put_entry(alloc, out, tree.next(at)),
        "room" => room_again(tree, at),
        _ => {
            tree.drop_room();
            Ok(())
        }
    }
}

fn put_len(alloc: Global, out: &mut String, len: usize) -> Result<(), NoMemory> {
    put(out, format!(in alloc; "{len} ")?.as_str())
}

/// Does one operation, and adds its answer.
fn operate(
    alloc: Global,
    out: &mut String,
    tree: &mut impl TreeRep,
    text: &str,
) -> Result<(), NoMemory> {
    let (verb, rest) = cut(text, ' ');
    let (at, what) = cut(rest, ' ');
    if verb == "len" {
        return put_len(alloc, out, tree.len());
    }
    operate_at(alloc, out, tree, verb, &path(alloc, at)?, element(what))
}

/// Seals the tree, as `put_again`.
fn seal(alloc: Global, tree: &mut LayerTree) -> Result<Mark, NoMemory> {
    match tree.seal(alloc) {
        Ok(mark) => Ok(mark),
        Err(_) => tree.seal(alloc),
    }
}

/// Forgets the mark, as `put_again`.
fn forget(alloc: Global, tree: &mut LayerTree, mark: Mark) -> Result<(), NoMemory> {
    let Err((_, mark)) = tree.forget(alloc, mark) else {
        return Ok(());
    };
    match tree.forget(alloc, mark) {
        Ok(()) => Ok(()),
        Err((wanted, _)) => Err(wanted),
    }
}

/// The mark at the place is taken out, and forgotten.
fn forget_at(
    alloc: Global,
    tree: &mut LayerTree,
    marks: &mut Vec<Mark>,
    place: u64,
) -> Result<(), NoMemory> {
    let Ok(place) = usize::try_from(place) else {
        return Err(AllocError);
    };
    if place < marks.len() {
        return forget(alloc, tree, marks.remove(place));
    }
    Err(AllocError)
}

fn seal_more(alloc: Global, tree: &mut LayerTree, marks: &mut Vec<Mark>) -> Result<(), NoMemory> {
    marks.reserve(1)?;
    marks.push_reserved(seal(alloc, tree)?);
    Ok(())
}

fn operate_marked(
    alloc: Global,
    out: &mut String,
    tree: &mut LayerTree,
    marks: &mut Vec<Mark>,
    text: &str,
) -> Result<(), NoMemory> {
    match cut(text, ' ') {
        ("seal", _) => seal_more(alloc, tree, marks),
        ("forget", place) => forget_at(alloc, tree, marks, number(place)),
        _ => operate(alloc, out, tree, text),
    }
}

fn operate_all(
    alloc: Global,
    out: &mut String,
    tree: &mut LayerTree,
    marks: &mut Vec<Mark>,
    text: &str,
) -> Result<(), NoMemory> {
    for part in text.split(';') {
        operate_marked(alloc, out, tree, marks, part.trim())?;
    }
    Ok(())
}

/// Does the operations, and gives the marks that are left.
fn marks_of(alloc: Global, tree: &mut LayerTree, text: &str) -> Result<Vec<Mark>, NoMemory> {
    let mut marks = Vec::new(alloc);
    let mut answers = String::new(alloc);
    operate_all(alloc, &mut answers, tree, &mut marks, text)?;
    Ok(marks)
}

/// The changes since the mark, which take no more steps than there are records since it.
fn counted<L: Ledger>(
    alloc: Global,
    tree: &LayerTree,
    mark: &Mark,
    blank: Blank,
) -> Result<(Changes, Steps<L>), NoMemory>
    requires name { blank.name ≡ L.name }
    requires parts { blank.parts ≡ L.parts }
    requires some { 0 < blank.parts }
    ensures steps { IfOk result (λ r. IfSome (tree_at tree.now mark.now) (λ _. r.1 ≤ records (from_mark mark.now tree.now.layers))) }
{
    let mut steps = Steps::start(blank);
    let changes = tree.between(alloc, mark, &mut steps)?;
    Ok((changes, steps))
}

fn since_by<L: Ledger>(
    alloc: Global,
    tree: &LayerTree,
    mark: &Mark,
    blank: Blank,
) -> Result<Changes, NoMemory>
    requires name { blank.name ≡ L.name }
    requires parts { blank.parts ≡ L.parts }
    requires some { 0 < blank.parts }
{
    let (changes, _) = counted::<L>(alloc, tree, mark, blank)?;
    Ok(changes)
}

pub fn since(alloc: Global, tree: &LayerTree, mark: &Mark) -> Result<Changes, NoMemory> {
    since_by::<Brand>(alloc, tree, mark, Blank::new(1))
}

fn put_word(
    rt: &(impl Abort + AllocGlobal),
    out: &mut String,
    word: &str,
    tree: &LayerTree,
    mark: &Mark,
) -> Result<(), NoMemory> {
    let alloc = rt.alloc();
    match word {
        "at" => put_tree(alloc, out, &tree.at(alloc, mark)?),
        "since" => put_delta_of(alloc, out, &since(alloc, tree, mark)?),
        _ => put_changes(rt, out, &since(alloc, tree, mark)?),
    }
}

fn put_each(
    rt: &(impl Abort + AllocGlobal),
    out: &mut String,
    word: &str,
    tree: &LayerTree,
    marks: &[Mark],
) -> Result<(), NoMemory> {
    for mark in marks {
        put_word(rt, out, word, tree, mark)?;
        put(out, "; ")?;
    }
    Ok(())
}

fn put_left(
    rt: &(impl Abort + AllocGlobal),
    out: &mut String,
    word: &str,
    tree: &mut LayerTree,
    text: &str,
) -> Result<(), NoMemory> {
    let marks = marks_of(rt.alloc(), tree, text)?;
    put_each(rt, out, word, tree, marks.as_slice())
}

/// What the word tells of each mark that is left.
pub fn put_marks(
    rt: &(impl Abort + AllocGlobal),
    out: &mut String,
    word: &str,
    map: &ElemMap,
    text: &str,
) -> Result<(), NoMemory> {
    let mut tree = LayerTree::of(rt.alloc(), map.copy()?);
    put_left(rt, out, word, &mut tree, text)
}

/// A mark, and how the flat tree was written then.
#[derive(Drop)]
struct Moment {
    mark: Mark,
    text: String,
}

fn moment_of(alloc: Global, flat: &FlatTree, tree: &mut LayerTree) -> Result<Moment, NoMemory> {
    let mut text = String::new(alloc);
    put_tree(alloc, &mut text, flat.map())?;
    let mark = seal(alloc, tree)?;
    Ok(Moment { mark, text })
}

/// Does the operation on both trees, with a mark after it.
fn operate_both(
    alloc: Global,
    outs: &mut (String, String),
    flat: &mut FlatTree,
    tree: &mut LayerTree,
    moments: &mut Vec<Moment>,
    text: &str,
) -> Result<(), NoMemory> {
    operate(alloc, &mut outs.0, flat, text)?;
    operate(alloc, &mut outs.1, tree, text)?;
    moments.push(moment_of(alloc, flat, tree)?)?;
    Ok(())
}

fn operate_each(
    alloc: Global,
    outs: &mut (String, String),
    flat: &mut FlatTree,
    tree: &mut LayerTree,
    moments: &mut Vec<Moment>,
    text: &str,
) -> Result<(), NoMemory> {
    for part in text.split(';') {
        operate_both(alloc, outs, flat, tree, moments, part.trim())?;
    }
    Ok(())
}

/// At each mark the tree is written as the flat tree was then.
fn hold_all(
    rt: &(impl Abort + AllocGlobal),
    tree: &LayerTree,
    moments: &[Moment],
) -> Result<(), NoMemory> {
    for moment in moments {
        is_written(
            rt,
            &tree.at(rt.alloc(), &moment.mark)?,
            moment.text.as_str(),
        )?;
    }
    Ok(())
}

fn put_answers(
    rt: &(impl Abort + AllocGlobal),
    out: &mut String,
    flat: &mut FlatTree,
    tree: &mut LayerTree,
    text: &str,
) -> Result<(), NoMemory> {
    let mut outs = (String::new(rt.alloc()), String::new(rt.alloc()));
    let mut moments = Vec::new(rt.alloc());
    operate_each(rt.alloc(), &mut outs, flat, tree, &mut moments, text)?;
    hold_all(rt, tree, moments.as_slice())?;
    holds(rt, outs.0.as_str() == outs.1.as_str());
    put(out, outs.0.as_str())
}

/// The answers of a flat tree, which a tree with marks gives too. Of each mark it has the flat tree as it was then.
pub fn put_both(
    rt: &(impl Abort + AllocGlobal),
    out: &mut String,
    map: &ElemMap,
    text: &str,
) -> Result<(), NoMemory> {
    let mut flat = FlatTree::of(map.copy()?);
    let mut tree = LayerTree::of(rt.alloc(), map.copy()?);
    put_answers(rt, out, &mut flat, &mut tree, text)
}

#[test]
fn trees_with_marks_are_what_the_rows_say(rt: HostRuntime) {
    check_all(&rt, ROWS);
}
