//! The builder `copy`, and what the standard builders share.
use crate::edits::{put, put_again, put_built, put_edits, put_file};
use crate::rows::{Row, check_all};
use crate::views::{OUTPUT, file, files_of, path, paths_of, view_of};
use builder_api::{Edits, FileEdits, Problems, View};
use bytes::Bytes;
use res_path::{NoMemory, Path};
use std::alloc::Global;
use std_copy::Copy;
use std_kit::{MadeFiles, Making, changes_to, files_of_root, problem_of, relative};

/// `copy` tells what the builder answers for the roots, `again` what it answers once its edits were made. The output is `/P/out`.
const COPIES: &str = "copy|; |/P/src|
copy|/a=1 /d/b=2 ; |/P/src|/P/src/a=1 /P/src/d/b=2
copy|/a=1 ; |/Q/lib|/Q/lib/a=1
copy|/a= ; |/P/src|/P/src/a=
copy|; |/P/src|/P/out/a= /P/src/a=
copy|/a=2 ; |/P/src|/P/out/a= /P/src/a=2
copy|/a=2 ; |/P/src|/P/out/a=1 /P/out/b=1 /P/src/a=2 /P/src/b=1
copy|/b- ; |/P/src|/P/out/a=1 /P/out/b=2 /P/src/a=1
copy|/a- /d/b- ; |/P/src|/P/out/a=1 /P/out/d/b=2
copy|/a- /a/b=1 ; |/P/src|/P/out/a=1 /P/src/a/b=1
copy|/a=1 /a/b- /a/c/d- ; |/P/src|/P/out/a/b=1 /P/out/a/c/d=2 /P/src/a=1
copy|/a=1 ; /P/src/a 0 1 shadowed, |/P/src /P/src|/P/src/a=1
copy|/a=1 /b=3 ; /P/two/a 0 1 shadowed, |/P/one /P/two|/P/one/a=1 /P/two/a=2 /P/two/b=3
copy|/a=2 /b=3 ; /P/one/a 0 1 shadowed, |/P/two /P/one|/P/one/a=1 /P/two/a=2 /P/two/b=3
copy|/a=1 ; /P/two/a/b 0 1 shadowed, /P/two/a/c 0 1 shadowed, |/P/one /P/two|/P/one/a=1 /P/two/a/b=2 /P/two/a/c=3
copy|/a/b=2 ; /P/one/a 0 1 shadowed, |/P/two /P/one|/P/one/a=1 /P/two/a/b=2
copy|/a=1 /ab=2 ; |/P/one /P/two|/P/one/a=1 /P/two/ab=2
copy|/b=2 /d/b=2 ; |/P/src /P/src/d|/P/src/d/b=2
copy|/a=1 ; |/P/src/a|/P/src/a=1 /P/src/b=2
copy|/a=1 ; /P/y/a 0 1 shadowed, |/P/x/a /P/y/a|/P/x/a=1 /P/y/a=2
copy|/a=1 ; /P/y/a/b 0 1 shadowed, |/P/x/a /P/y|/P/x/a=1 /P/y/a/b=2
copy|; |/P/s|/P/sx/a=1
copy|; |/P/src/none|/P/src/a=1
copy|; ||/P/src/a=1
copy|/a- ; ||/P/out/a=1
copy|; |/P/src@/P/lib/a=*|/P/out/a=1 /P/src/a=1
copy|/a=2 ; |/P/src@/P/src/a=*|/P/out/a=1 /P/out/b=1 /P/src/a=2 /P/src/b=1
copy|/d/a=2 ; |/P/src@/=. /P=. /P/src=. /P/src/d=. /P/src/d/a=*|/P/out/d/a=1 /P/src/d/a=2
copy|; |/P/src@/P/src/a=*|/P/out/a=1 /P/src/a=1
copy|/c=3 ; |/P/src@/P/src/c=+|/P/out/a=1 /P/src/a=1 /P/src/c=3
copy|/b- ; |/P/src@/P/src/b=-|/P/out/a=1 /P/out/b=2 /P/src/a=1
copy|/b- /c=3 ; |/P/src@/P/src/b=- /P/src/c=+|/P/out/a=1 /P/out/b=2 /P/src/a=1 /P/src/c=3
copy|/d/a- ; |/P/src@/P/src/d=- /P/src/d/a=-|/P/out/b=1 /P/out/d/a=1 /P/src/b=1
copy|/a- /a/b=2 ; |/P/src@/P/src/a=-|/P/out/a=1 /P/src/a/b=2
copy|; |/P/src@/P/src/a/b=-|/P/out/a=1 /P/src/a=1
copy|/a- /a/b=1 ; |/P/src@/P/src/a=~ /P/src/a/b=+|/P/out/a=1 /P/src/a/b=1
copy|/a=1 ; |/P/src@/P/out/a=*|/P/out/a=2 /P/src/a=1
copy|/a=2 ; |/P/src/a@/P/src/a=*|/P/out/a=1 /P/src/a=2
copy|/a=2 ; /P/src/a/b 0 1 shadowed, |/P/src@/P/src/a=*|/P/out/a=1 /P/src/a=2 /P/src/a/b=3
copy|/a=2 ; /P/two/a 0 1 shadowed, |/P/one /P/two@/P/one/a=*|/P/out/a=1 /P/one/a=2 /P/two/a=3
copy|; /P/two/a 0 1 shadowed, |/P/one /P/two@/P/two/a=*|/P/out/a=1 /P/one/a=1 /P/two/a=3
again|; |/P/src|/P/out/a=1 /P/src/a/b=1
again|; /P/one/a 0 1 shadowed, |/P/two /P/one|/P/out/a=1 /P/one/a=1 /P/two/a/b=2";

/// `root` tells the files of the root, at their paths from there. `place` tells whether each file was placed, and `made` what
/// then is to be done where these files are there. `tell` tells the problems of some paths.
const SHARED: &str = "root|/a=1 /d/b=2 |/P/src|/P/src-/a=3 /P/src/a=1 /P/src/d/b=2 /P/src.x/a=4
root|/a=1 |/P/src/a|/P/src/a=1 /P/src/ab=2
root||/P/src|/P/a=1 /P/z=2
root|/P/a=1 /Q/b=2 |/|/P/a=1 /Q/b=2
place|yes |/a=1|
place|yes no no yes |/a=1 /a=2 /a/b=3 /ab=4|
place|yes no yes no |/a/b=1 /a=2 /a/c=3 /a/b/c=4|
place|no yes |/=1 /a=2|
place|yes yes yes no no |/b/b=1 /b.b=2 /b-=3 /b=4 /b.b/d=5|
made|/a=1 /c- ; |/a=1 /b=2|/P/out/b=2 /P/out/c=3
made|/a=1 ; |/a=1 /a=2|
made|; ||/P/o=1 /P/out=2 /P/outs=3 /Q/out/a=4
tell|; /P/x 7 2 odd, /P/a 7 2 odd, |/P/x /P/a|";

/// A file of the root, at its path from there.
fn put_from(
    alloc: Global,
    out: &mut String,
    root: &Path,
    file: &(Path, Bytes),
) -> Result<(), NoMemory> {
    if !root.is_prefix_of(&file.0) {
        return put(out, "elsewhere ");
    }
    let from = relative(alloc, root, &file.0)?;
    put_file(out, &from, &file.1)
}

fn put_root(alloc: Global, out: &mut String, row: &Row<'_>) -> Result<(), NoMemory> {
    let view = view_of(alloc, files_of(alloc, row.files)?)?;
    let root = path(alloc, row.paths)?;
    for file in files_of_root(&view, &root) {
        put_from(alloc, out, &root, file)?;
    }
    Ok(())
}

fn place(alloc: Global, made: &mut MadeFiles, word: &str) -> Result<bool, NoMemory> {
    let (path, bytes) = file(alloc, word)?;
    made.place(path, bytes)
}

fn put_placed(alloc: Global, out: &mut String, row: &Row<'_>) -> Result<(), NoMemory> {
    let mut made = MadeFiles::empty(alloc);
    for word in row.paths.split_whitespace() {
        let placed = place(alloc, &mut made, word)?;
        put(out, if placed { "yes " } else { "no " })?;
    }
    Ok(())
}

fn made_of(alloc: Global, words: &str) -> Result<MadeFiles, NoMemory> {
    let mut made = MadeFiles::empty(alloc);
    for word in words.split_whitespace() {
        place(alloc, &mut made, word)?;
    }
    Ok(made)
}

fn changes_of(alloc: Global, view: &View, words: &str) -> Result<FileEdits, NoMemory> {
    let output = path(alloc, OUTPUT)?;
    let made = made_of(alloc, words)?;
    changes_to(alloc, &output, view, made)
}

fn put_made(alloc: Global, out: &mut String, row: &Row<'_>) -> Result<(), NoMemory> {
    let view = view_of(alloc, files_of(alloc, row.files)?)?;
    let files = changes_of(alloc, &view, row.paths)?;
    let problems = Problems::empty(alloc);
    put_edits(alloc, out, &Edits { files, problems })
}

fn tell(alloc: Global, making: &mut Making, location: &Path) -> Result<(), NoMemory> {
    let problem = problem_of(alloc, location, 7, 2, "odd")?;
    making.tell(problem)
}

fn making_of(alloc: Global, locations: &[Path]) -> Result<Making, NoMemory> {
    let mut making = Making::nothing(alloc);
    for location in locations {
        tell(alloc, &mut making, location)?;
    }
    Ok(making)
}

fn put_problems(alloc: Global, out: &mut String, row: &Row<'_>) -> Result<(), NoMemory> {
    let output = path(alloc, OUTPUT)?;
    let making = making_of(alloc, paths_of(alloc, row.paths)?.as_slice())?;
    let edits = making.into_edits(alloc, &output, &View::empty(alloc))?;
    put_edits(alloc, out, &edits)
}

/// What a row's word tells.
pub fn put_told(alloc: Global, out: &mut String, row: &Row<'_>) -> Result<(), NoMemory> {
    match row.word {
        "copy" => put_built(alloc, out, &mut Copy::new(alloc), row),
        "again" => put_again(alloc, out, &mut Copy::new(alloc), row),
        "root" => put_root(alloc, out, row),
        "place" => put_placed(alloc, out, row),
        "made" => put_made(alloc, out, row),
        _ => put_problems(alloc, out, row),
    }
}

#[test]
fn copies_are_what_the_rows_say(rt: HostRuntime) {
    check_all(&rt, COPIES);
}

#[test]
fn what_builders_share_is_what_the_rows_say(rt: HostRuntime) {
    check_all(&rt, SHARED);
}
