//! The assertions. None has a clause, so that a test carries nothing of them.
use std::process::Abort;

pub fn holds(rt: &impl Abort, is: bool, case: &str) {
    assert!(rt; is, "{case}");
}

pub fn must<T: Drop, E: Drop>(rt: &impl Abort, it: Result<T, E>) -> T {
    match it {
        Ok(value) => value,
        Err(_) => panic!(rt; "memory"),
    }
}
