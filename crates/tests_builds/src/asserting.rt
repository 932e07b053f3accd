//! The assertions, and what tests make names of. None has a clause, so that a test carries nothing of them.
use res_path::Name;
use std::process::Abort;

pub fn holds(rt: &impl Abort, is: bool) {
    assert!(rt; is);
}

pub fn must<T: Drop, E: Drop>(rt: &impl Abort, it: Result<T, E>) -> T {
    match it {
        Ok(value) => value,
        Err(_) => panic!(rt; "memory"),
    }
}

pub fn name_of(rt: &(impl Abort + AllocGlobal), text: &str) -> Name {
    must(rt, Name::parse(rt.alloc(), text))
}
