//! A table of rows, a line each: a word, what it gives, and what it is given, with bars between.
use crate::asserting::{must, same};
use crate::{atoms, descriptions, paths, tables};
use rule_table::RuleTable;
use std::alloc::Global;
use std::fmt::Write;
use std::process::Abort;

/// One row. Of the parts that it doesn't have each is empty.
#[derive(Drop)]
pub struct Row<'a> {
    pub word: &'a str,
    pub gives: &'a str,
    pub one: &'a str,
    pub two: &'a str,
    pub three: &'a str,
}

/// What stands before and behind the first mark; all and nothing where there is none.
pub fn cut(text: &str, mark: char) -> (&str, &str) {
    match text.split_once(mark) {
        Some(parts) => parts,
        None => (text, ""),
    }
}

fn row_of(line: &str) -> Row<'_> {
    let (word, rest) = cut(line, '|');
    let (gives, rest) = cut(rest, '|');
    let (one, rest) = cut(rest, '|');
    let (two, three) = cut(rest, '|');
    Row {
        word,
        gives,
        one,
        two,
        three,
    }
}

/// Plays the rows in order, with one table of rules for all of them: each must tell what it gives.
pub fn play(rt: &impl Abort, alloc: Global, rows: &str) {
    let mut table = RuleTable::empty(alloc);
    let mut told = String::new(alloc);
    for line in rows.lines() {
        let row = row_of(line);
        told.clear();
        let is_known = paths::tell(rt, alloc, &row, &mut told)
            || atoms::tell(rt, alloc, &row, &mut told)
            || tables::tell(rt, alloc, &row, &mut table, &mut told)
            || descriptions::tell(rt, alloc, &row, &mut told);
        same(rt, (line, told.as_str(), is_known), (line, row.gives, true));
    }
}

pub fn say(rt: &impl Abort, told: &mut String, text: &str) {
    must(rt, told.push_str(text));
}

pub fn say_number(rt: &impl Abort, told: &mut String, number: u64) {
    must(rt, write!(told, "{number}"));
}

pub fn yes(is: bool) -> &'static str {
    if is { "yes" } else { "no" }
}

/// The number that the text is, 0 where it is none.
pub fn number(text: &str) -> u32 {
    match text.parse() {
        Ok(number) => number,
        Err(_) => 0,
    }
}

/// The text, or where it is a number, a star and a piece, so many pieces.
pub fn spelt(rt: &impl Abort, alloc: Global, text: &str) -> String {
    let mut whole = String::new(alloc);
    match text.split_once('*') {
        None => say(rt, &mut whole, text),
        Some((count, piece)) => {
            for _ in 0..number(count) {
                say(rt, &mut whole, piece);
            }
        }
    }
    whole
}
