//! Trees: ordered maps of elements, and what serves as a tree.
use crate::asserting::{holds, must};
use crate::elements::{element, path, put_elements};
use crate::rows::{Row, check, cut, put, put_shown, row_of};
use res_path::Path;
use std::process::Abort;
use tree_flat::FlatTree;
use ws_elem::{ElemMap, Element, TreeRep};

/// Changes stand with a semicolon between. `put`, `take` and `new` give the node that was there, or 0, and whether an element
/// was put; `room` makes room at a path, and `drop` drops all.
///
/// `map` gives the answers, how many elements there are and what `next` tells from the root on, of a map and of a flat tree.
/// `entries` gives the paths of all entries, `below` those below a path, `next` the one after each path, `has` whether something
/// is at a path, and `without` the paths that are left once a path was cut out twice.
const ROWS: &str =
    "entries|/ /a /a/x /a/x/f /a/y /a.b |/|/a=p2 /a.b=p3 /a/x=d4 /a/x/f=f5.1 /a/y=f6.1
entries|/ ||
next|/a /a/x /a/y /a.b /a none none |/ /a /a/x/z /a/y /B /a.b /b|/a=p2 /a.b=p3 /a/x=d4 /a/x/f=f5.1 /a/y=f6.1
below|/ /a /a/x /a/x/f /a/y /a.b |/|/a=p2 /a.b=p3 /a/x=d4 /a/x/f=f5.1 /a/y=f6.1
below|/a /a/x /a/x/f /a/y |/a|/a=p2 /a.b=p3 /a/x=d4 /a/x/f=f5.1 /a/y=f6.1
below|/a/x /a/x/f |/a/x|/a=p2 /a.b=p3 /a/x=d4 /a/x/f=f5.1 /a/y=f6.1
below|/a/y |/a/y|/a=p2 /a.b=p3 /a/x=d4 /a/x/f=f5.1 /a/y=f6.1
below||/a/z|/a=p2 /a.b=p3 /a/x=d4 /a/x/f=f5.1 /a/y=f6.1
below||/c|/a=p2 /a.b=p3 /a/x=d4 /a/x/f=f5.1 /a/y=f6.1
without|/ /a /a/y /a.b |/a/x|/a=p2 /a.b=p3 /a/x=d4 /a/x/f=f5.1 /a/y=f6.1
without|/ /a.b |/a|/a=p2 /a.b=p3 /a/x=d4 /a/x/f=f5.1 /a/y=f6.1
has|true|/a/x/f|/a=p2 /a/x=d4 /a/x/f=f5.1
has|false|/a/x/g|/a=p2 /a/x=d4 /a/x/f=f5.1
map|6 7 0 0 4: /a /a/x /a.b |put /a/y d7; take /a/y; take /a/y; put /a.b p3|/a=p2 /a/x=d4 /a/y=f6.1
map|0 3 0 3: /a /b |room /a/b; room /a/f; room /b; room /a/b; put /b p4; take /a/f; take /a/f|/a=p2 /a/f=f3.1
map|3: /a /a/f |room /a/b; room /a/f; room /b; room /a/b|/a=p2 /a/f=f3.1
map|3: /a /a/f |room /a/b; room /a/f; room /b; drop /|/a=p2 /a/f=f3.1
map|3 2: /a |room /a/f; drop /; take /a/f|/a=p2 /a/f=f3.1
map|put there put there 5: /a /a/c /a/f /b |room /a/b; room /a/f; room /b; new /b f7; new /a/f f7; new /a/c f7; new /a/c f7|/a=p2 /a/f=f3.1
map|put 7 0 4: /a /a/f /b |new /b f7; take /b; put /b p4; drop /|/a=p2 /a/f=f3.1
map|put 4: /a /a/b /a/f |room /b; room /a/b; new /a/b f7; drop /|/a=p2 /a/f=f3.1
map|put 4: /a /a/f /b |room /a/b; room /a/f; room /b; new /b f7; drop /|/a=p2 /a/f=f3.1
map|0 0 3: /a /a/f |room /a/f; room /a; room /a/f; put /a p2; put /a/f f3|
map|3 4 0 2: /a |put /a/f f4; take /a/f; take /a/f|/a=p2 /a/f=f3.1
map|put there 4: /a /a/f /a/g |new /a/g f9; new /a/f f9|/a=p2 /a/f=f3.1
map|1: |room /a|
map|0 2 4 0 2: /b |put /b p4; room /a; take /a; take /b; put /b p5; drop /|/a=p2";

/// The root, and what is given.
pub fn tree_of(rt: &(impl Abort + AllocGlobal), text: &str) -> ElemMap {
    let mut tree = must(rt, ElemMap::fresh(rt.alloc()));
    put_elements(rt, &mut tree, text);
    must(rt, tree.copy())
}

fn put_path(rt: &(impl Abort + AllocGlobal), out: &mut String, path: &Path) {
    put(rt, out, path.as_str());
    put(rt, out, " ");
}

fn put_node(rt: &(impl Abort + AllocGlobal), out: &mut String, element: Option<Element>) {
    let node = match element {
        Some(element) => element.node,
        None => 0,
    };
    put_shown(rt, out, &node);
    put(rt, out, " ");
}

/// Makes one change, and adds its answer.
fn change(rt: &(impl Abort + AllocGlobal), out: &mut String, tree: &mut impl TreeRep, text: &str) {
    let (verb, rest) = cut(text.trim(), ' ');
    let (at, what) = cut(rest, ' ');
    let at = path(rt, at);
    match verb {
        "put" => put_node(rt, out, must(rt, tree.put(at, element(rt, what)))),
        "take" => put_node(rt, out, must(rt, tree.take(&at))),
        "new" => {
            let put_there = must(rt, tree.put_new(&at, element(rt, what)));
            put(rt, out, if put_there { "put " } else { "there " });
        }
        "room" => must(rt, tree.make_room(&at)),
        _ => tree.drop_room(),
    }
}

/// How many elements there are, and their paths from the root on, each of which the tree has.
fn put_walk(rt: &(impl Abort + AllocGlobal), out: &mut String, tree: &impl TreeRep) {
    put_shown(rt, out, &tree.len());
    put(rt, out, ": ");
    let mut at = Path::root();
    for _ in 0..tree.len() {
        let Some((next, _)) = tree.next(&at) else {
            break;
        };
        holds(rt, tree.get(next).is_some());
        put_path(rt, out, next);
        at = must(rt, next.copy());
    }
}

fn put_changes(
    rt: &(impl Abort + AllocGlobal),
    out: &mut String,
    tree: &mut impl TreeRep,
    text: &str,
) {
    for part in text.split(';') {
        change(rt, out, tree, part);
    }
    put_walk(rt, out, tree);
}

/// The same of a map and of a flat tree over a copy, which gives a map back.
fn put_both(rt: &(impl Abort + AllocGlobal), out: &mut String, map: &mut ElemMap, text: &str) {
    let mut flat = FlatTree::of(must(rt, map.copy()));
    let mut other = String::new(rt.alloc());
    put_changes(rt, &mut other, &mut flat, text);
    put_changes(rt, out, map, text);
    holds(rt, *out == other);
    let copy = must(rt, flat.copy());
    holds(rt, copy.map().len() == flat.into_map().len());
}

fn put_entries(rt: &(impl Abort + AllocGlobal), out: &mut String, tree: &ElemMap) {
    for (path, _) in tree.iter() {
        put_path(rt, out, path);
    }
    holds(rt, tree.is_empty() == out.is_empty());
}

fn put_below(rt: &(impl Abort + AllocGlobal), out: &mut String, tree: &ElemMap, at: &Path) {
    for path in &must(rt, tree.below(rt.alloc(), at)) {
        put_path(rt, out, path);
    }
}

fn put_without(rt: &(impl Abort + AllocGlobal), out: &mut String, tree: &mut ElemMap, at: &Path) {
    for _ in 0..2 {
        must(rt, tree.remove_below(rt.alloc(), at));
    }
    put_entries(rt, out, tree);
}

fn put_next(rt: &(impl Abort + AllocGlobal), out: &mut String, tree: &ElemMap, paths: &str) {
    for at in paths.split_whitespace() {
        match tree.next(&path(rt, at)) {
            Some((path, _)) => put_path(rt, out, path),
            None => put(rt, out, "none "),
        }
    }
}

fn put_has(rt: &(impl Abort + AllocGlobal), out: &mut String, tree: &ElemMap, at: &Path) {
    holds(rt, tree.contains(at) == tree.get(at).is_some());
    put_shown(rt, out, &tree.contains(at));
}

fn told(rt: &(impl Abort + AllocGlobal), row: &Row<'_>) -> String {
    let mut out = String::new(rt.alloc());
    let mut tree = tree_of(rt, row.two);
    match row.word {
        "map" => put_both(rt, &mut out, &mut tree, row.one),
        "entries" => put_entries(rt, &mut out, &tree),
        "next" => put_next(rt, &mut out, &tree, row.one),
        "below" => put_below(rt, &mut out, &tree, &path(rt, row.one)),
        "without" => put_without(rt, &mut out, &mut tree, &path(rt, row.one)),
        _ => put_has(rt, &mut out, &tree, &path(rt, row.one)),
    }
    out
}

#[test]
fn trees_are_what_the_rows_say(rt: HostRuntime) {
    for line in ROWS.lines() {
        let row = row_of(line);
        check(&rt, &row, told(&rt, &row).as_str());
    }
}
