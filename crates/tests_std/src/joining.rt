//! The builder `concat`.
use crate::edits::{put_again, put_built};
use crate::rows::{Row, check_all};
use res_path::NoMemory;
use std::alloc::Global;
use std_concat::Concat;

/// `concat` tells what the builder answers for the roots, `joined again` what it answers once its edits were made. The output is `/P/out`.
const JOINS: &str = "concat|; |/P/src|
concat|; ||/P/src/a=1
concat|; |/P/src/none|/P/src/a=1
concat|/all=12 ; |/P/src|/P/src/a=1 /P/src/d/b=2
concat|/all=12 ; |/P/src|/P/src/a.b=2 /P/src/a/b=1
concat|/all=11 ; |/P/src /P/src|/P/src/a=1
concat|/all=122 ; |/P/src /P/src/d|/P/src/a=1 /P/src/d/b=2
concat|/all=21 ; |/P/two /P/one|/P/one/a=1 /P/two/a=2
concat|/all= ; |/P/src|/P/src/a=
concat|/all= ; |/P/src|/P/src/a= /P/src/b=
concat|/all=1 ; |/P/src/a|/P/src/a=1 /P/src/b=2
concat|; |/P/src|/P/out/all=1 /P/src/a=1
concat|; |/P/src|/P/out/all= /P/src/a=
concat|/all=1 ; |/P/src|/P/out/all=2 /P/src/a=1
concat|/all- ; |/P/src|/P/out/all=2
concat|/all=1 /b- /d/c- ; |/P/src|/P/out/b=1 /P/out/d/c=2 /P/src/a=1
concat|/all=1 /all/b- ; |/P/src|/P/out/all/b=2 /P/src/a=1
concat|/all=1 ; |/P/src|/P/out=2 /P/src/a=1
concat|; |/P/src@/P/lib/a=*|/P/out/all=1 /P/src/a=1
concat|/all=21 ; |/P/src@/P/src/a=*|/P/out/all=11 /P/src/a=2 /P/src/b=1
concat|/all=1 ; |/P/src@/P/src/b=-|/P/out/all=12 /P/src/a=1
concat|/all=1 ; |/P/src@/P/out/all=-|/P/src/a=1
joined again|; |/P/src /P/src|/P/out/all/b=2 /P/src/a=1";

/// What a row's word tells.
pub fn put_told(alloc: Global, out: &mut String, row: &Row<'_>) -> Result<(), NoMemory> {
    match row.word {
        "concat" => put_built(alloc, out, &mut Concat::new(alloc), row),
        _ => put_again(alloc, out, &mut Concat::new(alloc), row),
    }
}

#[test]
fn joins_are_what_the_rows_say(rt: HostRuntime) {
    check_all(&rt, JOINS);
}
