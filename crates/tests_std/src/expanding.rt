//! The builder `expand`.
use crate::edits::{put_again, put_built};
use crate::rows::{Row, check_all};
use res_path::NoMemory;
use std::alloc::Global;
use std_expand::Expand;

/// `expand` tells what the builder answers for the roots, `expanded again` what it answers once its edits were made.
const EXPANSIONS: &str = "expand|; |/P/src|
expand|/a=x+ ; |/P/src|/P/src/a.in=x+
expand|/a= ; |/P/src|/P/src/a.in=
expand|/a=1y+ ; |/P/src|/P/src/a.in=@include~b+y+ /P/src/b=1
expand|/a=y+1 ; |/P/src|/P/src/a.in=y+@include~b /P/src/b=1
expand|/a=7+8 ; |/P/src|/P/src/a.in=@include~d/b+8 /P/src/d/b=7+
expand|/a=@include~a.in+@include~b+1 ; |/P/src|/P/src/a.in=@include~a.in+@include~b+ /P/src/b=1
expand|/a=@include~c+ /b=1 ; |/P/src|/P/src/a.in=@include~b.in /P/src/b.in=@include~c+ /P/src/c=1
expand|/a=x+z ; /P/src/a.in 2 2 missing b, |/P/src|/P/src/a.in=x+@include~b+z
expand|/a= ; /P/src/a.in 1 2 missing b, /P/src/a.in 2 2 missing c, |/P/src|/P/src/a.in=@include~b+@include~c
expand|/a= ; /P/src/a.in 1 2 missing ?, |/P/src|/P/src/a.in=@include~!
expand|/a= ; /P/src/a.in 1 2 missing x??y, |/P/src|/P/src/a.in=@include~x!!y
expand|/a=@includeb+ ; |/P/src|/P/src/a.in=@includeb+
expand|/a=~@include~b+ ; |/P/src|/P/src/a.in=~@include~b+ /P/src/b=1
expand|/a= ; /P/src/a.in 1 2 missing /b, |/P/src|/P/src/a.in=@include~/b /P/src/b=1
expand|; |/P/src|/P/src/.in=1 /P/src/..in=2 /P/src/...in=3 /P/src/a=4 /P/src/a.ini=5 /P/src/ain=6
expand|/....=1 /a.in=2 ; |/P/src|/P/src/.....in=1 /P/src/a.in.in=2
expand|/d.in/b=1 ; |/P/src|/P/src/d.in/b.in=1 /P/src/d.in/c=2
expand|/a=1 ; |/P/src/a.in|/P/src/a.in=1
expand|/a=@include~a.in ; |/P/src/a.in|/P/src/a.in=@include~a.in
expand|/a= ; /P/one/a.in 1 2 missing b, |/P/one /P/two|/P/one/a.in=@include~b /P/two/b=1
expand|/a=1 ; /P/two/a.in 0 1 shadowed, |/P/one /P/two|/P/one/a.in=1 /P/two/a.in=@include~x
expand|/a=1 ; /P/two/a/b.in 0 1 shadowed, |/P/one /P/two|/P/one/a.in=1 /P/two/a/b.in=2
expand|/a=1 ; /P/src/a.in 0 1 shadowed, |/P/src /P/src|/P/src/a.in=1
expand|/b- ; |/P/src|/P/out/a=1 /P/out/b=2 /P/src/a.in=1
expand|/a=2 ; |/P/src|/P/out/a=1 /P/src/a.in=@include~b /P/src/b=2
expand|; /P/src/a.in 2 2 missing c, |/P/src@/P/lib/a=*|/P/out/a=2 /P/src/a.in=@include~b+@include~c /P/src/b=2
expand|/a=3 ; |/P/src@/P/src/b=*|/P/out/a=2 /P/src/a.in=@include~b /P/src/b=3
expand|/a=2 ; |/P/src@/P/src/b=+|/P/out/a= /P/src/a.in=@include~b /P/src/b=2
expanded again|; /P/src/a.in 2 2 missing c, |/P/src|/P/src/a.in=@include~b+@include~c /P/src/b=2";

/// What a row's word tells.
pub fn put_told(alloc: Global, out: &mut String, row: &Row<'_>) -> Result<(), NoMemory> {
    match row.word {
        "expand" => put_built(alloc, out, &mut Expand::new(alloc), row),
        _ => put_again(alloc, out, &mut Expand::new(alloc), row),
    }
}

#[test]
fn expansions_are_what_the_rows_say(rt: HostRuntime) {
    check_all(&rt, EXPANSIONS);
}
