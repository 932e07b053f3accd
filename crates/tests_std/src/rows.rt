//! A table of rows, a line each: a word, what it gives, paths and files, with bars between.
//!
//! A row is told again where memory wanted: so each test passes also where one allocation fails, whichever it is
//! (`rt try --test --fail-alloc N`).
use crate::asserting::must;
use crate::{copying, expanding, joining};
use res_path::NoMemory;
use std::alloc::Global;
use std::process::Abort;

/// One row. Of the parts that it doesn't have each is empty.
#[derive(Clone, Copy)]
pub struct Row<'a> {
    pub word: &'a str,
    pub gives: &'a str,
    pub paths: &'a str,
    pub files: &'a str,
}

/// What is before the mark, and what is after it.
pub fn cut(text: &str, mark: char) -> (&str, &str) {
    match text.split_once(mark) {
        Some(parts) => parts,
        None => (text, ""),
    }
}

fn row_of(line: &str) -> Row<'_> {
    let (word, rest) = cut(line, '|');
    let (gives, rest) = cut(rest, '|');
    let (paths, files) = cut(rest, '|');
    Row {
        word,
        gives,
        paths,
        files,
    }
}

/// What the row's word tells.
fn put_told(alloc: Global, out: &mut String, row: &Row<'_>) -> Result<(), NoMemory> {
    match row.word {
        "concat" | "joined again" => joining::put_told(alloc, out, row),
        "expand" | "expanded again" => expanding::put_told(alloc, out, row),
        _ => copying::put_told(alloc, out, row),
    }
}

fn told(rt: &impl AllocGlobal, row: &Row<'_>) -> Result<String, NoMemory> {
    let mut out = String::new(rt.alloc());
    put_told(rt.alloc(), &mut out, row)?;
    Ok(out)
}

/// What is told is what the row gives.
fn check(rt: &(impl Abort + AllocGlobal), row: &Row<'_>) {
    let told = match told(rt, row) {
        Ok(told) => told,
        Err(_) => must(rt, told(rt, row)),
    };
    let Row {
        word,
        gives,
        paths,
        files,
    } = *row;
    assert!(rt; told.as_str() == gives, "{word}|{told}|{paths}|{files}");
}

pub fn check_all(rt: &(impl Abort + AllocGlobal), rows: &str) {
    for line in rows.lines() {
        check(rt, &row_of(line));
    }
}
