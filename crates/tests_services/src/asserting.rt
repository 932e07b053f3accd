//! The assertions, and what rows are taken apart by. None has a clause, so that a test carries nothing of them.
use std::process::Abort;

pub fn must<T, E>(rt: &impl Abort, it: Result<T, E>) -> T {
    match it {
        Ok(value) => value,
        Err(_) => panic!(rt; "memory"),
    }
}

pub fn holds(rt: &impl Abort, is: bool) {
    assert!(rt; is);
}

/// Drops the value, of which a proof sees here only that it may be dropped: the drop of a core where all that it has is
/// seen is dear.
pub fn let_go<T: Drop>(it: T) {
    drop(it);
}

/// What the event gives is what the row says.
pub fn gives(rt: &impl Abort, event: &str, found: &str, wanted: &str) {
    assert!(rt; found == wanted, "{event} gives {found}");
}

/// What is before the mark, and what is after it.
pub fn cut(text: &str, mark: char) -> (&str, &str) {
    match text.split_once(mark) {
        Some(parts) => parts,
        None => (text, ""),
    }
}

/// The number that the text is, 0 where it is none.
pub fn number(text: &str) -> u64 {
    match text.parse() {
        Ok(number) => number,
        Err(_) => 0,
    }
}
