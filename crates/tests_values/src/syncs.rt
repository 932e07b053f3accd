//! Sets of synchronisation bytes.
use crate::asserting::{holds, must};
use crate::rows::{Row, check, cut, number, put, put_shown, row_of};
use bytes::Bytes;
use std::process::Abort;
use sync_set::SyncSet;

/// Changes stand with a blank between: a partner's number, and its bytes after `=`, or `-` where they are taken away.
///
/// `all` gives what stands then, `at` one partner's bytes, and `same` whether two sets are equal.
const ROWS: &str = "all|0= 7=VII 4294967295=x 3|7=seven 0= 4294967295=x 7=VII
all|0|
all|0|3=three 3=-
all|3=three 1|3=three 4=-
at|VII|7=seven 0= 7=VII|7
at||7=seven 0=|0
at|none|7=seven 0=|1
at|none|7=seven 0= 7=-|7
same|true|3=three 4=four|4=four 3=three
same|true||3=three 3=-
same|false|3=three|3=three 4=
same|false|3=three|3=four
same|false||3=";

fn set_of(rt: &(impl Abort + AllocGlobal), text: &str) -> SyncSet {
    let mut set = SyncSet::empty();
    for word in text.split_whitespace() {
        let (partner, bytes) = cut(word, '=');
        let bytes = match bytes {
            "-" => None,
            _ => Some(must(rt, Bytes::copy_from_slice(rt.alloc(), bytes.as_bytes()))),
        };
        must(rt, set.set(rt.alloc(), number(partner), bytes));
    }
    must(rt, set.copy())
}

fn put_bytes(rt: &(impl Abort + AllocGlobal), out: &mut String, bytes: &Bytes) {
    put(rt, out, must(rt, std::str::from_utf8(bytes.as_slice())));
}

/// Each partner's bytes, which are also those at the partner, and how many there are.
fn put_all(rt: &(impl Abort + AllocGlobal), out: &mut String, set: &SyncSet) {
    for (partner, bytes) in set.iter() {
        holds(rt, set.get(*partner) == Some(bytes));
        put_shown(rt, out, partner);
        put(rt, out, "=");
        put_bytes(rt, out, bytes);
        put(rt, out, " ");
    }
    let count = if set.is_empty() { 0 } else { set.len() };
    put_shown(rt, out, &count);
}

fn told(rt: &(impl Abort + AllocGlobal), row: &Row<'_>) -> String {
    let mut out = String::new(rt.alloc());
    let set = set_of(rt, row.one);
    match row.word {
        "all" => put_all(rt, &mut out, &set),
        "at" => match set.get(number(row.two)) {
            Some(bytes) => put_bytes(rt, &mut out, bytes),
            None => put(rt, &mut out, "none"),
        },
        _ => put_shown(rt, &mut out, &(set == set_of(rt, row.two))),
    }
    out
}

#[test]
fn sets_of_synchronisation_bytes_are_what_the_rows_say(rt: HostRuntime) {
    for line in ROWS.lines() {
        let row = row_of(line);
        check(&rt, &row, told(&rt, &row).as_str());
    }
}
