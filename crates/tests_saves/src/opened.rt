//! Opening two areas, as one text.
use crate::asserting::must;
use crate::states::name_of;
use disk_area::{Damage, DamageCause};
use save_store::{OpenFault, Store};
use std::alloc::Global;
use std::process::Abort;
use ws_outside::{Contents, Disk, MemDisk, Octets, Which};

/// A disk that holds these bytes.
pub fn disk_of(rt: &impl Abort, alloc: Global, left: &[u8], right: &[u8]) -> MemDisk {
    let first = Contents {
        left: must(rt, Octets::of(alloc, left)),
        right: must(rt, Octets::of(alloc, right)),
    };
    must(rt, MemDisk::new(alloc, first))
}

fn word_of(cause: DamageCause) -> &'static str {
    match cause {
        DamageCause::TooLarge => "large",
        DamageCause::BadMagic => "magic",
        DamageCause::BadVersion(_) => "version",
        DamageCause::BadNumber => "number",
        DamageCause::Truncated => "truncated",
        DamageCause::BadDigest { .. } => "digest",
        DamageCause::BadText => "text",
        DamageCause::BadState => "state",
    }
}

fn damage_text(rt: &impl Abort, alloc: Global, damage: Damage) -> String {
    let area = match damage.area {
        Which::Left => "left",
        Which::Right => "right",
    };
    let at = damage.at;
    let word = word_of(damage.cause);
    match damage.cause {
        DamageCause::BadVersion(version) => {
            must(rt, format!(in alloc; "{area}:{at}:{word}.{version}"))
        }
        _ => must(rt, format!(in alloc; "{area}:{at}:{word}")),
    }
}

/// A fault as one word.
pub fn fault_text(rt: &impl Abort, alloc: Global, fault: OpenFault) -> String {
    match fault {
        OpenFault::Damaged(damage) => damage_text(rt, alloc, damage),
        OpenFault::Disk => must(rt, String::from_str(alloc, "disk")),
        OpenFault::Memory => must(rt, String::from_str(alloc, "memory")),
    }
}

/// A store over the disk, with the name of the state that it was opened to; or the text of the fault.
pub fn open_on<D: Disk>(rt: &impl Abort, alloc: Global, disk: D) -> (Option<Store<D>>, String) {
    match Store::open(alloc, disk) {
        Ok((store, durable)) => (Some(store), name_of(rt, alloc, &durable)),
        Err((fault, _)) => (None, fault_text(rt, alloc, fault)),
    }
}

/// What these areas are opened to.
pub fn opened(rt: &impl Abort, alloc: Global, left: &[u8], right: &[u8]) -> String {
    let (_, text) = open_on(rt, alloc, disk_of(rt, alloc, left, right));
    text
}
