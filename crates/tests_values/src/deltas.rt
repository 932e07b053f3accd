//! Deltas of two trees, and parts of them.
//!
//! Nodes, places and markers' deltas are copied, taken apart and put together on their way.
use crate::asserting::{holds, must};
use crate::elements::{path, put_elements};
use crate::marks::put_delta;
use crate::rows::{Row, check, put, row_of};
use crate::trees::tree_of;
use delta_kind::{Delta, DeltaNode, Place, compare};
use mark_set::MarkerDeltas;
use res_path::Path;
use std::process::Abort;
use ws_elem::ElemMap;

/// `from` tells what became of one tree to get the other, both with a root, and `bare` that of trees without one: of each
/// node the path, the kind, the flags in base 16, where what is there was and where what was there is, and what became of its
/// markers.
///
/// `find` tells the paths of the nodes of some paths, and `under` the nodes below some paths, in a delta of two files and a new
/// project; `empty` tells the nodes of the empty delta.
const ROWS: &str = "from||/p=p2 /p/f=f4.1|/p=p2 /p/f=f4.1
from|/ 4 0, /p 4 0, /p/d 4 0, /p/d/n 1 0, |/p=p2 /p/d=d3 /p/d/f=f4.1|/p=p2 /p/d=d3 /p/d/f=f4.1 /p/d/n=f8.3
from|/ 4 0, /p 4 0, /p/d 4 0, /p/d/f 4 100, |/p=p2 /p/d=d3 /p/d/f=f4.1|/p=p2 /p/d=d3 /p/d/f=f4.3
from|/ 4 0, /p 4 0, /p/d 4 0, /p/d/f 2 0, |/p=p2 /p/d=d3 /p/d/f=f4.1|/p=p2 /p/d=d3
from|/ 4 0, /p 4 0, /p/d 4 0, /p/d/f 4 40100, |/p=p2 /p/d=d3 /p/d/f=f4.1|/p=p2 /p/d=d3 /p/d/f=f8.3
from|/ 4 0, /p 4 0, /p/d 4 0, /p/d/f 4 48000, |/p=p2 /p/d=d3 /p/d/f=f4.1|/p=p2 /p/d=d3 /p/d/f=d8
from|/ 4 0, /q 4 4000, |/q=q7|/q=p7
from|/ 4 0, /r 1 4000, ||/r=p8
from|/ 4 0, /r 1 0, ||/r=q8
from|/ 4 0, /p 2 0, /p/d 2 0, /p/d/f 2 0, /p/e 2 0, /p/e/g 2 0, |/p=p2 /p/d=d3 /p/d/f=f4.1 /p/e=d5 /p/e/g=f6.2|
from|/ 4 0, /p 4 0, /p/d 4 0, /p/d/f 4 100, /p/e 4 0, /p/e/g 4 100, |/p=p2 /p/d=d3 /p/d/f=f4.1 /p/e=d5 /p/e/g=f6.2|/p=p2 /p/d=d3 /p/d/f=f4.3 /p/e=d5 /p/e/g=f6.4
from|/ 4 0, /P 4 0, /P/a 4 40100, |/P=p2 /P/a=f3.1|/P=p2 /P/a=f4.2
from|/ 4 0, /P 4 0, /P/a 2 2000 to /P/c, /P/c 1 1000 from /P/a, |/P=p2 /P/a=f3.1|/P=p2 /P/c=f3.1
from|/ 4 0, /P 4 0, /P/a 4 43100 from /P/b to /P/b, /P/b 4 43100 from /P/a to /P/a, |/P=p2 /P/a=f3.1 /P/b=f4.2|/P=p2 /P/a=f4.2 /P/b=f3.1
from|/ 4 0, /P 4 0, /P/a 4 48000, |/P=p2 /P/a=f3.1|/P=p2 /P/a=d4
from|/ 4 0, /P 4 0, /P/a 4 100, |/P=p2 /P/a=f3.1|/P=p2 /P/a=f3.2
from|/ 4 0, /P 4 0, /P/b 1 0, |/P=p2 /P/a=f3.1|/P=p2 /P/a=f3.1 /P/b=f4.3
from|/ 4 0, /P 4 0, /P/a 2 2000 to /P/b, /P/b 4 43100 from /P/a to /P/c, /P/c 4 43100 from /P/b to /P/d, /P/d 1 1000 from /P/c, |/P=p2 /P/a=f3.1 /P/b=f4.2 /P/c=f5.3|/P=p2 /P/b=f3.1 /P/c=f4.2 /P/d=f5.3
from|/ 4 0, /P 4 0, /P/d 2 2000 to /P/e, /P/d/f 2 2000 to /P/e/f, /P/e 1 1000 from /P/d, /P/e/f 1 1000 from /P/d/f, |/P=p2 /P/d=d3 /P/d/f=f4.1|/P=p2 /P/e=d3 /P/e/f=f4.1
from|/ 4 0, /P 2 2000 to /Q, /P/a 2 2000 to /Q/a, /Q 1 5000 from /P, /Q/a 1 1000 from /P/a, |/P=p2 /P/a=f3.1|/Q=p2 /Q/a=f3.1
from|/ 4 0, /P 4 0, /P/a 4 42100 to /P/x, /P/x 1 1000 from /P/a, |/P=p2 /P/a=f3.1|/P=p2 /P/a=f4.2 /P/x=f3.1
from|/ 4 0, /P 4 0, /P/a 4 49000 from /P/d, /P/d 2 2000 to /P/a, |/P=p2 /P/a=f3.1 /P/d=d4|/P=p2 /P/a=d4
from|/ 4 0, /P 4 80000, /P/a 4 400000, |/P=p2 /P/a=f3.1|/P=p2,c2 /P/a=f3.1,D
from|/ 4 0, /P 4 0, /P/a 2 2000 to /P/c, /P/b 2 2000 to /P/c, /P/c 1 1000 from /P/a, |/P=p2 /P/a=f3.1 /P/b=f3.1|/P=p2 /P/c=f3.1
from||/P=p2 /P/a=f3.1 /P/b=f3.1|/P=p2 /P/a=f3.1 /P/b=f3.1
bare|/ 4 0, /a 4 0, /a/b 1 0, ||/a/b=f1.1
bare|/ 4 0, /f 4 30000 7 + problem, , |/f=f2.1|/f=f2.1,m7.3,sv1
bare|/ 4 0, /f 4 10000, |/f=f2.1,m7.3|/f=f2.1,m7.3,s
bare|/ 4 0, /f 4 10000, |/f=f2.1,sv1|/f=f2.1,sv2
bare||/f=f2.1,m7.3,sv1|/f=f2.1,m7.3,sv1
bare|/ 4 0, /f 4 20000 7 * problem line=3,  9 + problem, , |/f=f2.1,m7.3|/f=f2.1,m7.5,m9.6
bare|/ 4 0, /a 2 32000 to /b 7 - problem line=3, , /b 1 31000 from /a 7 + problem, , |/a=f8.1,m7.3,sv1|/b=f8.1,m7.3,sv1
find|/ /p /p/d /p/d/f /p/e /p/e/g none none none none none /r |/ /p /p/d /p/d/f /p/e /p/e/g /a /p/d/a /p/d/g /p/f /q /r
under||
under|/p/d 4 0, /p/d/f 4 100, |/p/d
under|/p/e 4 0, /p/e/g 4 100, /r 1 4000, |/r /p/e
under|/p 4 0, /p/d 4 0, /p/d/f 4 100, /p/e 4 0, /p/e/g 4 100, |/p /p/d/f
under||/p/x /p/d/f/y
empty|";

const BEFORE: &str = "/p=p2 /p/d=d3 /p/d/f=f4.1 /p/e=d5 /p/e/g=f6.2 /q=q7";

const AFTER: &str = "/p=p2 /p/d=d3 /p/d/f=f4.3 /p/e=d5 /p/e/g=f6.4 /q=q7 /r=p8";

fn put_place(rt: &(impl Abort + AllocGlobal), out: &mut String, word: &str, place: &Place) {
    let path = match place.path() {
        Some(path) => Some(must(rt, path.copy())),
        None => None,
    };
    let again = must(rt, Place::of(rt.alloc(), path));
    holds(rt, must(rt, again.copy()) == *place);
    holds(rt, again.path().is_none() == (again == Place::none()));
    if let Some(path) = again.path() {
        put(rt, out, word);
        put(rt, out, path.as_str());
    }
}

fn put_node(rt: &(impl Abort + AllocGlobal), out: &mut String, node: &DeltaNode) {
    let node = must(rt, node.copy());
    let kind = node.kind;
    let flags = node.flags;
    let head = must(rt, format!(in rt.alloc(); " {kind} {flags:x}"));
    put(rt, out, node.path.as_str());
    put(rt, out, head.as_str());
    put_place(rt, out, " from ", &node.moved_from);
    put_place(rt, out, " to ", &node.moved_to);
    let markers = MarkerDeltas::of(must(rt, node.markers.copy()).into_vec());
    for delta in markers.as_slice() {
        put(rt, out, " ");
        put_delta(rt, out, delta);
    }
    put(rt, out, ", ");
}

/// The nodes of the delta; there are as many as it says, and it tells a change where it has any.
fn put_nodes(rt: &(impl Abort + AllocGlobal), out: &mut String, delta: &Delta) {
    for node in delta.iter() {
        put_node(rt, out, node);
    }
    holds(rt, delta.kind() == if delta.is_empty() { 0 } else { 4 });
    holds(rt, delta.len() == delta.nodes().len());
}

fn bare(rt: &(impl Abort + AllocGlobal), text: &str) -> ElemMap {
    let mut tree = ElemMap::empty(rt.alloc());
    holds(rt, tree.is_empty());
    put_elements(rt, &mut tree, text);
    tree
}

fn between(rt: &(impl Abort + AllocGlobal), before: &ElemMap, after: &ElemMap) -> Delta {
    let delta = must(rt, compare(rt.alloc(), before, after));
    Delta::of(must(rt, delta.copy()).into_nodes())
}

fn whole(rt: &(impl Abort + AllocGlobal), before: &str, after: &str) -> Delta {
    between(rt, &tree_of(rt, before), &tree_of(rt, after))
}

fn put_found(rt: &(impl Abort + AllocGlobal), out: &mut String, paths: &str) {
    let delta = whole(rt, BEFORE, AFTER);
    for at in paths.split_whitespace() {
        match delta.find(&path(rt, at)) {
            Some(node) => put(rt, out, node.path.as_str()),
            None => put(rt, out, "none"),
        }
        put(rt, out, " ");
    }
}

fn under(rt: &(impl Abort + AllocGlobal), paths: &str) -> Delta {
    let mut prefixes: Vec<Path> = Vec::new(rt.alloc());
    for at in paths.split_whitespace() {
        must(rt, prefixes.push(path(rt, at)));
    }
    must(
        rt,
        whole(rt, BEFORE, AFTER).under(rt.alloc(), prefixes.as_slice()),
    )
}

fn told(rt: &(impl Abort + AllocGlobal), row: &Row<'_>) -> String {
    let mut out = String::new(rt.alloc());
    if row.word == "find" {
        put_found(rt, &mut out, row.one);
        return out;
    }
    let delta = match row.word {
        "from" => whole(rt, row.one, row.two),
        "bare" => between(rt, &bare(rt, row.one), &bare(rt, row.two)),
        "under" => under(rt, row.one),
        _ => Delta::empty(rt.alloc()),
    };
    put_nodes(rt, &mut out, &delta);
    out
}

#[test]
fn deltas_are_what_the_rows_say(rt: HostRuntime) {
    for line in ROWS.lines() {
        let row = row_of(line);
        check(&rt, &row, told(&rt, &row).as_str());
    }
}
