//! A table of rows, a line each, whose words stand apart by blanks; and texts of what was told.
use crate::asserting::must;
use std::alloc::Global;
use std::process::Abort;
use std::str::SplitWhitespace;

/// The next word of a row, empty behind the last one.
pub fn word<'a>(words: &mut SplitWhitespace<'a>) -> &'a str {
    match words.next() {
        Some(word) => word,
        None => "",
    }
}

/// The number that a word is, 0 where it is none.
pub fn number(word: &str) -> u64 {
    match word.parse() {
        Ok(number) => number,
        Err(_) => 0,
    }
}

/// A byte as the digit that it is.
pub fn digit(byte: u8) -> u64 {
    u64::from(byte.saturating_sub(b'0'))
}

/// The digits of a word, a number each; none where it is a dash.
pub fn digits(rt: &impl Abort, alloc: Global, word: &str) -> Vec<u64> {
    let mut numbers = Vec::new(alloc);
    for byte in word.bytes() {
        if byte != b'-' {
            must(rt, numbers.push(digit(byte)));
        }
    }
    numbers
}

/// Adds bytes to a text, a character each.
pub fn put(rt: &impl Abort, text: &mut String, bytes: &[u8]) {
    for byte in bytes {
        must(rt, text.push(char::from(*byte)));
    }
}
