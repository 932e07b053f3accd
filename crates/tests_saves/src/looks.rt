//! What areas are told to hold.
use crate::areas::area_of;
use crate::asserting::{must, same};
use crate::opened::{disk_of, fault_text};
use crate::stops::saved;
use save_store::{Found, Store};
use std::alloc::Global;
use std::process::Abort;
use ws_outside::{MemDisk, Which};

fn number_text(rt: &impl Abort, alloc: Global, area: Option<(u64, u64)>) -> String {
    match area {
        Some((number, records)) => must(rt, format!(in alloc; "{number},{records}")),
        None => must(rt, String::from_str(alloc, "closed")),
    }
}

/// What both areas are told to hold, or the fault.
pub fn looked_at(rt: &impl Abort, alloc: Global, disk: MemDisk) -> String {
    let mut disk = disk;
    match Store::check(alloc, &mut disk) {
        Ok(found) => found_text(rt, alloc, found),
        Err(fault) => fault_text(rt, alloc, fault),
    }
}

fn found_text(rt: &impl Abort, alloc: Global, found: Found) -> String {
    let left = number_text(rt, alloc, found.left);
    let right = number_text(rt, alloc, found.right);
    let chosen = match found.chosen {
        Some(Which::Left) => "left",
        Some(Which::Right) => "right",
        None => "none",
    };
    let elements = found.elements;
    let (left, right) = (left.as_str(), right.as_str());
    must(rt, format!(in alloc; "{left} {right} {chosen} {elements}"))
}

#[test]
fn areas_are_told_to_hold_what_was_saved(rt: HostRuntime) {
    let alloc = rt.alloc();
    let text = looked_at(&rt, alloc, disk_of(&rt, alloc, b"", b""));
    same(&rt, text.as_str(), "closed closed none 1");
    let left = area_of(&rt, alloc, "f", "-");
    let text = looked_at(&rt, alloc, disk_of(&rt, alloc, &left, b""));
    same(&rt, text.as_str(), "1,0 closed left 1");
    let (disk, _) = saved(&rt, alloc, Vec::new(alloc));
    let text = looked_at(&rt, alloc, disk);
    same(&rt, text.as_str(), "1,1 2,1 right 3");
    let disk = disk_of(&rt, alloc, b"", b"").failing_at(must(&rt, vec![in alloc; 0u64]));
    let text = looked_at(&rt, alloc, disk);
    same(&rt, text.as_str(), "disk");
}
