//! The assertions, and what is cut from rows. None has a clause, so that a test carries nothing of them.
use std::process::Abort;

pub fn holds(rt: &impl Abort, is: bool) {
    assert!(rt; is);
}

pub fn must<T: Drop, E: Drop>(rt: &impl Abort, it: Result<T, E>) -> T {
    match it {
        Ok(value) => value,
        Err(_) => panic!(rt; "an error"),
    }
}

/// What is there.
pub fn some<T: Drop>(rt: &impl Abort, it: Option<T>) -> T {
    match it {
        Some(value) => value,
        None => panic!(rt; "nothing is there"),
    }
}

/// What is before the mark, and what is after it.
pub fn cut<'a>(text: &'a str, mark: &str) -> (&'a str, &'a str) {
    match text.split_once(mark) {
        Some(parts) => parts,
        None => (text, ""),
    }
}

/// The number that the text is, 0 where it is none.
pub fn number(text: &str) -> u64 {
    match text.parse::<u64>() {
        Ok(number) => number,
        Err(_) => 0,
    }
}

/// Lets the value go, which is dear to prove wherever its type has many forms.
pub fn let_go<T: Drop>(_: T) {}
