//! Operations over a tree, without a core.
use crate::asserting::{holds, let_go, must, same, some};
use crate::rows::{command, cut, job_text, number, script};
use report_text::{put_counted, put_named, put_path, shown_text};
use res_path::{Name, Path};
use script_lang::Command;
use std::process::Abort;
use ws_elem::{ElemMap, TreeRep};
use ws_ops::{Applied, Op, OpError, Side, apply, take_back};

/// A tree, and what stands beside it.
#[derive(Drop)]
struct Space {
    tree: ElemMap,
    side: Side,
}

/// Adds all that there is in a tree, with what these partners keep.
fn put_tree(rt: &(impl Abort + AllocGlobal), out: &mut Vec<u8>, tree: &ElemMap, names: &[Name]) {
    for path in must(rt, tree.below(rt.alloc(), &Path::root())).as_slice() {
        let element = some(rt, tree.get(path));
        must(rt, put_path(out, " ", path));
        let shown = must(rt, shown_text(rt.alloc(), element, names));
        must(rt, out.extend_from_slice(shown.as_slice()));
        must(rt, put_named(out, " ", element.bytes.as_slice()));
        let attachments = must(rt, element.attached.to_attachments());
        must(rt, put_named(out, " ", attachments.desc.as_slice()));
    }
}

/// All that there is.
fn listing(rt: &(impl Abort + AllocGlobal), space: &Space) -> Vec<u8> {
    let side = &space.side;
    let names = side.partners.as_slice();
    let mut out = Vec::new(rt.alloc());
    put_tree(rt, &mut out, &space.tree, names);
    put_tree(rt, &mut out, &side.shelf, names);
    must(rt, put_counted(&mut out, " node ", side.next_node));
    must(rt, put_counted(&mut out, " stamp ", side.next_stamp));
    must(rt, put_counted(&mut out, " marker ", side.next_marker));
    must(rt, put_counted(&mut out, " partners ", names.len() as u64));
    out
}

/// Does the operation and takes it back, after which all is as before; between the two it isn't, unless the operation
/// only reads. What is refused changes nothing.
fn goes_back(rt: &(impl Abort + AllocGlobal), space: &mut Space, row: &str, op: &Op) {
    let before = listing(rt, space);
    if let Ok(Applied { answer: _, back }) = apply(
        rt.alloc(),
        &mut space.tree,
        &mut space.side,
        op,
    ) {
        let between = listing(rt, space);
        take_back(&mut space.tree, &mut space.side, back);
        holds(rt, row, matches!(op, Op::Read(_, _)) == (between == before));
    }
    space.tree.drop_room();
    space.side.shelf.drop_room();
    holds(rt, row, listing(rt, space) == before);
}

/// Does the operation, and gives the number of its refusal, or 0.
fn answer(rt: &(impl Abort + AllocGlobal), space: &mut Space, op: &Op) -> u64 {
    match apply(rt.alloc(), &mut space.tree, &mut space.side, op) {
        Ok(done) => {
            let_go(must(rt, done.answer.copy()));
            let_go(done);
            0
        }
        Err(OpError::Refused(refusal)) => u64::from(must(rt, refusal.copy()).number()),
        Err(OpError::Memory) => panic!(rt; "memory"),
    }
}

/// Does the operation of each row, takes it back and does it again. A row without a number is done.
fn follow(rt: &(impl Abort + AllocGlobal), space: &mut Space, rows: &str) {
    for row in rows.split("; ") {
        let (line, wanted) = cut(row, " -> ");
        let text = job_text(rt, "job j 30 null", line);
        let script = script(rt, text.as_str());
        match command(rt, &script) {
            Command::Operation(op) => {
                goes_back(rt, space, row, op);
                same(rt, row, answer(rt, space, op), number(wanted));
            }
            _ => panic!(rt; "no operation"),
        }
        let_go(script);
    }
}

/// A project, two files and a folder.
const SMALL: &str =
    "create project /P; create file /P/a hi; create folder /P/d; create file /P/d/f x";

fn small(rt: &(impl Abort + AllocGlobal)) -> Space {
    let mut space = Space {
        tree: must(rt, ElemMap::fresh(rt.alloc())),
        side: Side::fresh(rt.alloc()),
    };
    follow(rt, &mut space, SMALL);
    space
}

/// Each operation, on each kind of resource that it takes.
const DONE: &str =
    "create file /P/b yo; create folder /P/g; create project /Q; write /P/a ho; touch /P/a; \
    derived /P/a on; derived /P/a off; move /P/d /Q/d; copy /Q/d /P/d; describe /P \"{\\\"references\\\":[\\\"S\\\"]}\"; \
    partner git; partner svn; sync /P/a git 1; sync /P git 2; sync /P/a git 3; nosync /P git; \
    mark /P/a t k int 1; mark /P t; mark /P/a u; attr /P/a 1 k int 2; attr /P/a 1 k none; \
    unmark /P/a 3; move /P /R; copy /R /P; close /P; show /R; cat /R/a; tree /; digest /; \
    clearmarks / t 2; flush / git 2; close /R; open /P; delete /R; delete /P/d; delete /P";

#[test]
fn each_operation_that_is_taken_back_leaves_what_was_there(rt: HostRuntime) {
    let mut space = small(&rt);
    follow(&rt, &mut space, DONE);
    let_go(space);
}

/// Where one node and one marker are left, and no stamp.
const WITHOUT_STAMPS: &str =
    "create file /P/b x -> 18; create project /Q -> 18; write /P/a x -> 18; touch /P/a -> 18; \
    describe /P {} -> 18; copy /P/d /P/e -> 18; create file /P/a x -> 11; write /P/d x -> 13; describe /P x -> 25; \
    copy /P/d /P/a/b -> 12; create folder /P/g; create folder /P/h -> 18; copy /P/g /P/h -> 18; move /P/g /P/h; \
    derived /P/a on; mark /P/a t; mark /P/a t -> 18; unmark /P/a 9223372036854775806; close /P; \
    open /P; delete /P";

/// Where one node is left, and two stamps.
const WITH_TWO_STAMPS: &str =
    "copy /P/d /P/e -> 18; copy /P/a /P/b; copy /P/a /P/c -> 18; touch /P/a; touch /P/a -> 18";

/// The greatest number is 2^63 - 2.
#[test]
fn the_last_numbers_are_drawn_and_none_above_them(rt: HostRuntime) {
    let past = (1_u64 << 63) - 1;
    for (stamp, rows) in [(past, WITHOUT_STAMPS), (past - 2, WITH_TWO_STAMPS)] {
        let mut space = small(&rt);
        space.side.next_node = past - 1;
        space.side.next_stamp = stamp;
        space.side.next_marker = past - 1;
        follow(&rt, &mut space, rows);
    }
}
