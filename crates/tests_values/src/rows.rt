//! A table of rows, a line each: a word, what it gives, and what it is given, with bars between.
use crate::asserting::must;
use std::fmt::Display;
use std::process::Abort;

/// One row. Of the parts that it doesn't have each is empty.
#[derive(Clone, Copy)]
pub struct Row<'a> {
    pub word: &'a str,
    pub gives: &'a str,
    pub one: &'a str,
    pub two: &'a str,
}

/// What is before the mark, and what is after it.
pub fn cut(text: &str, mark: char) -> (&str, &str) {
    match text.split_once(mark) {
        Some(parts) => parts,
        None => (text, ""),
    }
}

pub fn row_of(line: &str) -> Row<'_> {
    let (word, rest) = cut(line, '|');
    let (gives, rest) = cut(rest, '|');
    let (one, two) = cut(rest, '|');
    Row {
        word,
        gives,
        one,
        two,
    }
}

/// The number that the text is, 0 where it is none.
pub fn number(text: &str) -> u32 {
    match text.parse() {
        Ok(number) => number,
        Err(_) => 0,
    }
}

/// The text, or where it is a number, a star and a piece, so many pieces.
pub fn spelt(rt: &(impl Abort + AllocGlobal), text: &str) -> String {
    let (count, piece) = match text.split_once('*') {
        Some((count, piece)) => (number(count), piece),
        None => (1, text),
    };
    let mut whole = String::new(rt.alloc());
    for _ in 0..count {
        put(rt, &mut whole, piece);
    }
    whole
}

pub fn put(rt: &(impl Abort + AllocGlobal), out: &mut String, text: &str) {
    must(rt, out.push_str(text));
}

pub fn put_shown(rt: &(impl Abort + AllocGlobal), out: &mut String, value: &impl Display) {
    let shown = must(rt, format!(in rt.alloc(); "{value}"));
    put(rt, out, shown.as_str());
}

/// What was told is what the row gives.
pub fn check(rt: &(impl Abort + AllocGlobal), row: &Row<'_>, told: &str) {
    let Row { word, one, two, .. } = *row;
    assert!(rt; told == row.gives, "{word}|{told}|{one}|{two}");
}
