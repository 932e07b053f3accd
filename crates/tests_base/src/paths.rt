//! Names and paths at the edges of their rules.
use crate::asserting::must;
use crate::rows::{Row, play, say, say_number, spelt, yes};
use res_path::{Name, Path, PathError};
use std::alloc::Global;
use std::process::Abort;

/// `path` and `name` give the text that is read, or the fault; the others what the call of their name does. Of the paths
/// of `rise`, with commas between, each is below all that follow.
const ROWS: &str = "path|segment 0|
path|segment 0|P
path|segment 0|P/a
path|segment 1|//
path|segment 3|/P/
path|segment 3|/P//a
path|segment 3|/P/.
path|segment 3|/P/../a
path|segment 3|/P/a\tb/.
path|segment 3|/P/a\u{7f}
path|segment 7|/ok/ok/\u{1}
path|/|/
path|/P|/P
path|/P/a.b/...|/P/a.b/...
path|/P/a b|/P/a b
path|/P/\u{e9}\u{20ac}|/P/\u{e9}\u{20ac}
path|/P/.a/a.|/P/.a/a.
path|deep|65*/a
path|long|63*//////////////////////////////////////////////////////////////////
depth|64|64*/a
depth|0|/
join|deep|64*/a|a
join|/P/a|/P|a
last name|a|/P/a
last name|none|/
parent|/P|/P/a
parent|none|/
length|255|255*n
name|segment 0|256*n
name|segment 0|
name|segment 0|.
name|segment 0|..
name|segment 0|a/b
name|segment 0|a\u{1f}
name|segment 0|\u{7f}
rebase|/Q/x/a|/P/a|/P|/Q/x
rebase|/Q/P/a|/P/a|/|/Q
rebase|/|/P/a|/P/a|/
prefix|yes|/|/
prefix|yes|/|/P
prefix|yes|/P|/P
prefix|yes|/P|/P/src
prefix|no|/P|/PQ
prefix|no|/P/src|/P
prefix|no|/P|/
below|yes|/|/
below|yes|/P|/
below|yes|/P|/Q/a
below|yes|/P/a|/P
below|yes|/P/a|/P/b/c
below|no|/P/a|/PQ/b
below|no|/P/a|/
below|no|/P/a/b|/P/b
rise|yes|/,/P,/P/a,/P/a/z,/P/a!,/P/b,/P\u{20},/P!,/P.x,/PQ";

pub fn name(rt: &impl Abort, alloc: Global, text: &str) -> Name {
    must(rt, Name::parse(alloc, spelt(rt, alloc, text).as_str()))
}

pub fn path(rt: &impl Abort, alloc: Global, text: &str) -> Path {
    must(rt, Path::parse(alloc, spelt(rt, alloc, text).as_str()))
}

fn say_fault(rt: &impl Abort, told: &mut String, fault: PathError) {
    match fault {
        PathError::BadSegment { at } => {
            say(rt, told, "segment ");
            say_number(rt, told, at as u64);
        }
        PathError::TooDeep => say(rt, told, "deep"),
        PathError::TooLong => say(rt, told, "long"),
        PathError::Memory => say(rt, told, "memory"),
    }
}

fn say_path(rt: &impl Abort, alloc: Global, told: &mut String, read: Result<Path, PathError>) {
    match read {
        Ok(path) => {
            let copy = must(rt, path.copy());
            say(rt, told, must(rt, copy.text(alloc)).as_str());
        }
        Err(error) => say_fault(rt, told, error),
    }
}

fn say_name(rt: &impl Abort, told: &mut String, read: Result<Name, PathError>) {
    match read {
        Ok(name) => say(rt, told, must(rt, name.copy()).text()),
        Err(error) => say_fault(rt, told, error),
    }
}

fn say_parent(rt: &impl Abort, told: &mut String, path: &Path) {
    match must(rt, path.parent()) {
        Some(parent) => say(rt, told, parent.as_str()),
        None => say(rt, told, "none"),
    }
}

fn say_last(rt: &impl Abort, told: &mut String, path: &Path) {
    match path.last() {
        Some(name) => say(rt, told, name),
        None => say(rt, told, "none"),
    }
}

fn rebased(rt: &impl Abort, alloc: Global, row: &Row<'_>) -> Result<Path, PathError> {
    let whole = path(rt, alloc, row.one);
    let from = path(rt, alloc, row.two);
    let to = path(rt, alloc, row.three);
    if from.is_prefix_of(&whole) {
        whole.rebase(alloc, &from, &to)
    } else {
        Err(PathError::Memory)
    }
}

fn is_prefix(rt: &impl Abort, alloc: Global, row: &Row<'_>) -> bool {
    path(rt, alloc, row.one).is_prefix_of(&path(rt, alloc, row.two))
}

fn parent_is_prefix(rt: &impl Abort, alloc: Global, row: &Row<'_>) -> bool {
    path(rt, alloc, row.one).parent_is_prefix_of(&path(rt, alloc, row.two))
}

fn are_in_order(rt: &impl Abort, alloc: Global, paths: &str) -> bool {
    for (i, one) in paths.split(',').enumerate() {
        for (j, two) in paths.split(',').enumerate() {
            let (one, two) = (path(rt, alloc, one), path(rt, alloc, two));
            if one.cmp(&two) != i.cmp(&j) || (one == two) != (i == j) {
                return false;
            }
        }
    }
    true
}

/// Whether the row's word is one of paths, of which then it tells.
pub fn tell(rt: &impl Abort, alloc: Global, row: &Row<'_>, told: &mut String) -> bool {
    match row.word {
        "path" => say_path(
            rt,
            alloc,
            told,
            Path::parse(alloc, spelt(rt, alloc, row.one).as_str()),
        ),
        "name" => say_name(
            rt,
            told,
            Name::parse(alloc, spelt(rt, alloc, row.one).as_str()),
        ),
        "join" => say_path(
            rt,
            alloc,
            told,
            path(rt, alloc, row.one).join(alloc, &name(rt, alloc, row.two)),
        ),
        "rebase" => say_path(rt, alloc, told, rebased(rt, alloc, row)),
        "parent" => say_parent(rt, told, &path(rt, alloc, row.one)),
        "last name" => say_last(rt, told, &path(rt, alloc, row.one)),
        "length" => say_number(rt, told, name(rt, alloc, row.one).text().len() as u64),
        "depth" => say_number(rt, told, path(rt, alloc, row.one).depth() as u64),
        "prefix" => say(rt, told, yes(is_prefix(rt, alloc, row))),
        "below" => say(rt, told, yes(parent_is_prefix(rt, alloc, row))),
        "rise" => say(rt, told, yes(are_in_order(rt, alloc, row.one))),
        _ => return false,
    }
    true
}

#[test]
fn names_and_paths_are_what_the_rows_say(rt: HostRuntime) {
    play(&rt, rt.alloc(), ROWS);
}
