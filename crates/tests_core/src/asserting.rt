//! The assertions. None has a clause, so that a test carries nothing of them.
use std::fmt::Debug;
use std::process::Abort;

/// In this case both are equal.
pub fn same<T: PartialEq + Debug + Drop>(rt: &impl Abort, case: &str, one: T, other: T) {
    assert_eq!(rt; one, other, "{case}");
}

/// In this case the bytes are those of the text.
pub fn reads(rt: &impl Abort, case: &str, bytes: &[u8], text: &str) {
    assert_eq!(rt; str::from_utf8(bytes), Ok(text), "{case}");
}

pub fn holds(rt: &impl Abort, case: &str, is: bool) {
    assert!(rt; is, "{case}");
}

pub fn must<T: Drop, E: Drop>(rt: &impl Abort, it: Result<T, E>) -> T {
    match it {
        Ok(value) => value,
        Err(_) => panic!(rt; "an error"),
    }
}

/// What is there.
pub fn some<T: Drop>(rt: &impl Abort, it: Option<T>) -> T {
    match it {
        Some(value) => value,
        None => panic!(rt; "nothing is there"),
    }
}

/// Lets the value go, which is dear to prove wherever its type has many forms.
pub fn let_go<T: Drop>(_: T) {}
