//! Saves, stopped or failed at every call.
use crate::asserting::{holds, must, same};
use crate::opened::{disk_of, open_on, opened};
use crate::saves;
use save_store::{SaveFault, Store};
use std::alloc::Global;
use std::process::Abort;
use ws_outside::{MemDisk, Remnant, Which};

/// What a crash leaves of each call that no sync followed.
const REMNANTS: [Remnant<'static>; 5] = [
    Remnant::Nothing,
    Remnant::Whole,
    Remnant::Front(1),
    Remnant::Filled(0x5a),
    Remnant::Filled(1),
];

/// A save of this state is begun: each that may be opened to stands between blanks.
fn begun(rt: &impl Abort, may: &mut String, name: &str) {
    must(rt, may.push_str(name));
    must(rt, may.push(' '));
}

/// What a save answered.
fn answered(rt: &impl Abort, may: &mut String, name: &str, answer: Result<(), SaveFault>) {
    match answer {
        Ok(()) => {
            may.clear();
            must(rt, may.push(' '));
            begun(rt, may, name);
        }
        Err(fault) => same(rt, fault, SaveFault::Disk),
    }
}

fn full(rt: &impl Abort, alloc: Global, store: &mut Store<MemDisk>, may: &mut String, name: &str) {
    begun(rt, may, name);
    let answer = saves::full(rt, alloc, store, name);
    answered(rt, may, name, answer);
}

fn snapshot(
    rt: &impl Abort,
    alloc: Global,
    store: &mut Store<MemDisk>,
    may: &mut String,
    name: &str,
) {
    begun(rt, may, name);
    let answer = saves::snapshot(rt, alloc, store, name);
    answered(rt, may, name, answer);
}

/// Two full saves, each with a snapshot behind it, on empty areas; and what the areas may be opened to then. A call that is
/// to fail fails.
pub fn saved(rt: &impl Abort, alloc: Global, failing: Vec<u64>) -> (MemDisk, String) {
    let mut may = must(rt, String::from_str(alloc, " f "));
    let disk = disk_of(rt, alloc, b"", b"").failing_at(failing);
    match Store::open(alloc, disk) {
        Ok((store, _)) => {
            let mut store = store;
            full(rt, alloc, &mut store, &mut may, "o");
            snapshot(rt, alloc, &mut store, &mut may, "c");
            full(rt, alloc, &mut store, &mut may, "y");
            snapshot(rt, alloc, &mut store, &mut may, "k");
            (store.into_disk(), may)
        }
        Err((_, disk)) => (disk, may),
    }
}

/// Whether what a crash after so many calls leaves is opened to one of these states.
fn is_kept(rt: &impl Abort, alloc: Global, disk: &MemDisk, calls: usize, may: &str) -> bool {
    let calls = calls.min(disk.calls().len());
    let mut is = true;
    for remnant in REMNANTS {
        let remnants = must(rt, vec![in alloc; remnant; calls]);
        let left = must(rt, disk.crash(alloc, calls, &remnants));
        let text = opened(rt, alloc, left.of(Which::Left), left.of(Which::Right));
        let wanted = must(rt, format!(in alloc; " {} ", text.as_str()));
        is = is && may.contains(wanted.as_str());
    }
    is
}

/// What the areas may be opened to once so many calls were made: opening makes eight, a full save ten and a record six.
fn may_read(calls: usize) -> &'static str {
    if calls <= 8 {
        " f "
    } else if calls < 18 {
        " f o "
    } else if calls < 24 {
        " o c "
    } else if calls < 34 {
        " c y "
    } else if calls < 40 {
        " y k "
    } else {
        " k "
    }
}

fn is_kept_failing(rt: &impl Abort, alloc: Global, call: u64) {
    let failing = must(rt, vec![in alloc; call]);
    let (disk, may) = saved(rt, alloc, failing);
    same(rt, disk.faults(), 1);
    let calls = disk.calls().len();
    holds(rt, is_kept(rt, alloc, &disk, calls, may.as_str()));
}

#[test]
fn a_stop_at_any_call_leaves_the_last_save_or_one_begun_after_it(rt: HostRuntime) {
    let (disk, may) = saved(&rt, rt.alloc(), Vec::new(rt.alloc()));
    same(&rt, disk.calls().len(), 40);
    same(&rt, may.as_str(), " k ");
    for calls in 0..=40 {
        holds(&rt, is_kept(&rt, rt.alloc(), &disk, calls, may_read(calls)));
    }
}

#[test]
fn a_fault_at_any_call_leaves_the_last_save_or_one_begun_after_it(rt: HostRuntime) {
    for call in 0..40 {
        is_kept_failing(&rt, rt.alloc(), call);
    }
}

#[test]
fn the_save_behind_one_that_failed_is_a_full_one(rt: HostRuntime) {
    let alloc = rt.alloc();
    // the first call of the first snapshot
    let failing = must(&rt, vec![in alloc; 18]);
    let disk = disk_of(&rt, alloc, b"", b"").failing_at(failing);
    let (store, _) = open_on(&rt, alloc, disk);
    holds(&rt, store.is_some());
    if let Some(mut store) = store {
        same(&rt, saves::full(&rt, alloc, &mut store, "o"), Ok(()));
        let failed = Err(SaveFault::Disk);
        same(&rt, saves::snapshot(&rt, alloc, &mut store, "c"), failed);
        same(&rt, saves::snapshot(&rt, alloc, &mut store, "c"), Ok(()));
        let mut disk = store.into_disk();
        let found = must(&rt, Store::check(alloc, &mut disk));
        same(&rt, found.right, Some((2, 0)));
    }
}
