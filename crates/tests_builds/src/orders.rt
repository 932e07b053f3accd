//! Small workspaces, row by row.
use crate::asserting::{must, name_of};
use build_order::order;
use res_path::Name;
use std::process::Abort;

/// A row has the order, the knots with `+` between their members, and the projects as they are given, each with what
/// it refers to after `>`. In turn: no project; one; names alone; references to absent projects, to itself, and twice
/// to one; chains; what becomes free comes by name; two projects of one name; knots by their least name, after what
/// any member refers to, one after another, side by side, with a project between, and of rings that share a project.
const ROWS: &str = "||
a||a
a b c||c a b
B Z a aa b z é||é b aa a z Z B
a b||a>x b
a b||a>a b
b a||a>b,b b
c b a||a>b b>c c
a b c||c>b b>a a
d b c a||a>b,c b>d c>d d
b a c||a>b c b
b c d a||a>d b d>c c
b c a||a>b c a>c b
a b x1||b>a,x x1 a x1
a b|a+b|b>a a>b
a b|a+b|a b>a a>b
a b c|a+b+c|c>a a>b b>c
a b c|a+b+c|a>b b>a,c c>b
a c b|a+c|b c>a a>c
b d a c|a+c|a>c b c>d,a d
c d a b|c+d a+b|a>b,c b>a c>d d>c
a c b d|a+c b+d|d>b b>d c>a a>c
b d c a e|b+d a+e|a>e e>a,c c>d d>b b>d
b a|| a>b b>x
a b c d|a+b+c+d|a>b b>a,c c>d d>c,a";

/// What is before the mark, and what is after it.
pub fn cut(text: &str, mark: char) -> (&str, &str) {
    match text.split_once(mark) {
        Some(parts) => parts,
        None => (text, ""),
    }
}

fn names_in(rt: &(impl Abort + AllocGlobal), text: &str) -> Vec<Name> {
    let mut names = Vec::new(rt.alloc());
    for word in text.split(',') {
        if !word.is_empty() {
            must(rt, names.push(name_of(rt, word)));
        }
    }
    names
}

fn projects_in(rt: &(impl Abort + AllocGlobal), text: &str) -> Vec<(Name, Vec<Name>)> {
    let mut projects = Vec::new(rt.alloc());
    for word in text.split_whitespace() {
        let (name, references) = cut(word, '>');
        must(
            rt,
            projects.push((name_of(rt, name), names_in(rt, references))),
        );
    }
    projects
}

pub fn put(rt: &impl Abort, out: &mut String, text: &str) {
    must(rt, out.push_str(text));
}

fn put_names(rt: &impl Abort, out: &mut String, names: &[Name], mark: &str) {
    for (at, name) in names.iter().enumerate() {
        if at > 0 {
            put(rt, out, mark);
        }
        put(rt, out, name.text());
    }
}

/// The order and the knots of a row's projects, as a row has them.
fn told(rt: &(impl Abort + AllocGlobal), projects: &str) -> String {
    let found = must(rt, order(rt.alloc(), &projects_in(rt, projects)));
    let mut out = String::new(rt.alloc());
    put_names(rt, &mut out, found.order.as_slice(), " ");
    put(rt, &mut out, "|");
    for (at, knot) in found.knots.as_slice().iter().enumerate() {
        if at > 0 {
            put(rt, &mut out, " ");
        }
        put_names(rt, &mut out, knot.as_slice(), "+");
    }
    out
}

fn check(rt: &(impl Abort + AllocGlobal), row: &str) {
    let (wanted, projects) = match row.rsplit_once('|') {
        Some(parts) => parts,
        None => (row, ""),
    };
    let told = told(rt, projects);
    assert!(rt; told.as_str() == wanted, "{row} gives {told}");
}

#[test]
fn projects_are_ordered_as_the_rows_say(rt: HostRuntime) {
    for row in ROWS.lines() {
        check(&rt, row);
    }
}
