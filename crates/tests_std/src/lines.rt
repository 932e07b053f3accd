//! Files that are expanded.
use crate::asserting::{holds, must, same};
use crate::texts::{bytes_of, put, put_bytes};
use include_lines::{CutFile, Included, Missing};
use mark_set::NoMemory;
use std::process::Abort;

/// Three files: `b` of a line `B`, `c/d` that includes it, and an empty one `e`.
struct Table;

impl Included for Table {
    ghost use Rattle.std.specs.Prelude.{codes, Some, None};
    ghost use Rattle.tests_std.specs.Tables.{table};

    ghost files = { λ t. table };

    fn find(&self, name: &[u8]) -> Result<Option<&[u8]>, NoMemory> {
        if name == b"b".as_slice() {
            return Ok(Some(b"B\n"));
        }
        if name == b"c/d".as_slice() {
            return Ok(Some(b"@include b\n"));
        }
        if name == b"e".as_slice() {
            return Ok(Some(b""));
        }
        Ok(None)
    }
}

/// The first line's number, a file, what becomes of it, and the lines that include no file.
const ROWS: &str = "1|x;@include b;@include c|x;B;|3 missing c,
1|@include b|B;|
1|@include c/d;y|@include b;y|
1|@include e;z;|z;|
1| @include b;| @include b;|
1|@include  b;||1 missing  b,
1|@include ;x|x|1 missing ,
1|@include;x|@include;x|
1|x@include b;|x@include b;|
1|||
1|;;|;;|
1|@include b;@include b;x;;@include b|B;B;x;;B;|
1|@include /b;@include b/;||1 missing /b,2 missing b/,
2147483648|@include q;x|x|2147483647 missing q,
2147483646|@include q;@include q;x;@include q|x;|2147483646 missing q,2147483647 missing q,2147483647 missing q,
18446744073709551615|@include q;@include q||2147483647 missing q,2147483647 missing q,
1|@include a^b%c;||1 missing a?b?c,
1|@include ^^%^;||1 missing ????,
1|@include é%;||1 missing é?,
1|@include #$x%$#$$$;||1 missing ??xÂ₂?,";

fn put_missing(rt: &(impl Abort + AllocGlobal), out: &mut String, missing: &Missing) {
    let line = missing.line;
    let head = must(rt, format!(in rt.alloc(); "{line} "));
    put(rt, out, head.as_str());
    put(rt, out, missing.message.text());
    put(rt, out, ",");
}

fn told(rt: &(impl Abort + AllocGlobal), first: u64, file: &str) -> String {
    let cut = must(rt, CutFile::of(rt.alloc(), &bytes_of(rt, file), first));
    let made = must(rt, cut.expand(rt.alloc(), &Table));
    let mut out = String::new(rt.alloc());
    put_bytes(rt, &mut out, made.bytes.as_slice());
    put(rt, &mut out, "|");
    for missing in made.missing.as_slice() {
        put_missing(rt, &mut out, missing);
    }
    out
}

fn check(rt: &(impl Abort + AllocGlobal), row: &str) {
    let Some((first, rest)) = row.split_once('|') else {
        return;
    };
    let Some((file, wanted)) = rest.split_once('|') else {
        return;
    };
    let first: u64 = must(rt, first.parse());
    same(rt, told(rt, first, file).as_str(), wanted);
}

#[test]
fn lines_that_include_files_are_replaced(rt: HostRuntime) {
    for row in ROWS.lines() {
        check(&rt, row);
    }
}

/// How many letters stand before the `é` of a name, and how many bytes its message has.
const CUTS: &str = "0 10
189 199
190 200
191 199
192 200
300 200";

fn length(rt: &(impl Abort + AllocGlobal), letters: usize) -> usize {
    let mut line = String::new(rt.alloc());
    put(rt, &mut line, "@include ");
    for _ in 0..letters {
        put(rt, &mut line, "a");
    }
    put(rt, &mut line, "é");
    let cut = must(rt, CutFile::of(rt.alloc(), &bytes_of(rt, line.as_str()), 1));
    let made = must(rt, cut.expand(rt.alloc(), &Table));
    match made.missing.as_slice() {
        [missing] => missing.message.text().len(),
        _ => 0,
    }
}

fn check_cut(rt: &(impl Abort + AllocGlobal), row: &str) {
    if let Some((letters, bytes)) = row.split_once(' ') {
        let letters: usize = must(rt, letters.parse());
        let bytes: usize = must(rt, bytes.parse());
        holds(rt, length(rt, letters) == bytes);
    }
}

#[test]
fn a_message_is_cut_at_the_end_of_a_character(rt: HostRuntime) {
    for row in CUTS.lines() {
        check_cut(&rt, row);
    }
}
