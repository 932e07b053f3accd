//! Elements as they are written in rows, and what is fixed of them.
use crate::asserting::{holds, must};
use crate::rows::{cut, number, put, put_shown};
use bytes::Bytes;
use mark_set::RawValue;
use res_path::Path;
use std::process::Abort;
use ws_elem::{Attached, Attachments, Depth, ElemMap, Element, Kind};

/// A kind by its letter, an open project by `p` and a closed one by `q`, then the node, and the stamp after a dot.
fn plain(text: &str) -> Element {
    let (head, stamp) = cut(text, '.');
    let (kind, opened, node) = match head.split_at_checked(1) {
        Some(("p", node)) => (Kind::Project, true, node),
        Some(("q", node)) => (Kind::Project, false, node),
        Some(("d", node)) => (Kind::Folder, false, node),
        Some((_, node)) => (Kind::File, false, node),
        None => (Kind::Root, false, head),
    };
    Element {
        stamp: u64::from(number(stamp)),
        opened,
        ..Element::bare(kind, u64::from(number(node)))
    }
}

/// Attaches what a word says: `mID.LINE` a marker, `sBYTES` the bytes of partner 0, `cSTAMP` a description.
fn attach(rt: &(impl Abort + AllocGlobal), attachments: &mut Attachments, word: &str) {
    let alloc = rt.alloc();
    match word.split_at_checked(1) {
        Some(("m", rest)) => {
            let (id, line) = cut(rest, '.');
            let id = u64::from(number(id));
            let line = RawValue::Int(must(rt, line.parse()));
            must(rt, attachments.marks.create(alloc, id, "problem", &[]));
            must(rt, attachments.marks.set(alloc, id, "line", Some(line)));
        }
        Some(("s", rest)) => {
            let bytes = must(rt, Bytes::copy_from_slice(alloc, rest.as_bytes()));
            must(rt, attachments.syncs.set(alloc, 0, Some(bytes)));
        }
        Some(("c", rest)) => attachments.desc_stamp = u64::from(number(rest)),
        _ => {}
    }
}

/// These attachments, copied on their way in and out.
fn attached(rt: &(impl Abort + AllocGlobal), attachments: &Attachments) -> Attachments {
    let attached = must(rt, Attached::of(rt.alloc(), must(rt, attachments.copy())));
    must(rt, must(rt, attached.copy()).to_attachments())
}

/// An element: `plain`, and words of what is attached to it with commas before them, of which `D` is a derived one's.
pub fn element(rt: &(impl Abort + AllocGlobal), text: &str) -> Element {
    let (head, rest) = cut(text, ',');
    let mut element = plain(head);
    element.derived = rest.ends_with('D');
    let mut attachments = Attachments::none();
    for word in rest.split(',') {
        attach(rt, &mut attachments, word);
    }
    let attachments = attached(rt, &attachments);
    let element = must(rt, element.with_attachments(rt.alloc(), attachments));
    must(rt, element.copy())
}

pub fn path(rt: &(impl Abort + AllocGlobal), text: &str) -> Path {
    must(rt, Path::parse(rt.alloc(), text))
}

/// Puts the elements that are written `PATH=ELEMENT` with blanks between.
pub fn put_elements(rt: &(impl Abort + AllocGlobal), tree: &mut ElemMap, text: &str) {
    for word in text.split_whitespace() {
        let (at, what) = cut(word, '=');
        must(rt, tree.put(path(rt, at), element(rt, what)));
    }
}

#[test]
fn kinds_and_depths_have_the_platforms_numbers_and_words(rt: HostRuntime) {
    let mut out = String::new(rt.alloc());
    for kind in [Kind::File, Kind::Folder, Kind::Project, Kind::Root] {
        put_shown(&rt, &mut out, &kind);
        put_shown(&rt, &mut out, &kind.number());
        holds(&rt, kind.is_file() == (kind.word() == "file"));
        holds(&rt, kind.is_project() == (kind.word() == "project"));
    }
    put(&rt, &mut out, " ");
    for depth in [Depth::Zero, Depth::One, Depth::Infinite] {
        put_shown(&rt, &mut out, &depth.number());
    }
    holds(&rt, out.as_str() == "file1folder2project4root8 012");
}

/// Whether these are a description with the stamp 7, the marker 1 and bytes of partner 0.
fn are_all(attachments: &Attachments) -> bool {
    attachments.desc_stamp == 7
        && attachments.marks.get(1).is_some()
        && attachments.syncs.get(0).is_some()
}

#[test]
fn what_is_attached_is_kept_and_goes_with_a_copy(rt: HostRuntime) {
    let nothing = Attachments::none();
    let file = element(&rt, "f5.1,c7,m1.3,sv1,D");
    holds(&rt, file.kind == Kind::File && file.node == 5);
    holds(&rt, file.stamp == 1 && file.derived);
    holds(&rt, are_all(file.attached.or(&nothing)));
    holds(&rt, file.attached.kept().is_some());
    let bare = element(&rt, "f5.1");
    holds(
        &rt,
        nothing.is_nothing() && bare.attached.or(&nothing).is_nothing(),
    );
    holds(
        &rt,
        bare.attached.kept().is_none() && Attached::nothing().kept().is_none(),
    );
}
