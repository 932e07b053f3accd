//! Opening two areas, as one text.
use crate::asserting::must;
use area_pair::Texts;
use area_store::AreaStore;
use disk_area::{AreaFault, Damage, DamageCause};
use std::alloc::Global;
use std::process::Abort;
use ws_outside::{Contents, Disk, MemDisk, Octets, Which};

/// A disk that holds these bytes.
pub fn disk_of(rt: &impl Abort, alloc: Global, left: &[u8], right: &[u8]) -> MemDisk {
    let first = Contents {
        left: must(rt, Octets::of(alloc, left)),
        right: must(rt, Octets::of(alloc, right)),
    };
    must(rt, MemDisk::new(alloc, first))
}

pub fn word_of(cause: DamageCause) -> &'static str {
    match cause {
        DamageCause::TooLarge => "large",
        DamageCause::BadMagic => "magic",
        DamageCause::BadVersion(_) => "version",
        DamageCause::BadNumber => "number",
        DamageCause::Truncated => "truncated",
        DamageCause::BadDigest { .. } => "digest",
        DamageCause::BadText | DamageCause::BadState => "text",
    }
}

pub fn damage_text(rt: &impl Abort, alloc: Global, damage: Damage) -> String {
    let area = match damage.area {
        Which::Left => "left",
        Which::Right => "right",
    };
    let at = damage.at;
    let word = word_of(damage.cause);
    must(rt, format!(in alloc; "{area}:{at}:{word}"))
}

/// Adds bytes to a text, a character each.
fn put(rt: &impl Abort, text: &mut String, bytes: &[u8]) {
    for byte in bytes {
        must(rt, text.push(char::from(*byte)));
    }
}

/// The image and the bodies of the records, with a bar before each; `none` where no area is open.
fn texts_text(rt: &impl Abort, alloc: Global, texts: Option<Texts>) -> String {
    let Some(texts) = texts else {
        return must(rt, String::from_str(alloc, "none"));
    };
    let mut text = String::new(alloc);
    put(rt, &mut text, b"|");
    put(rt, &mut text, texts.image.as_slice());
    for body in texts.records.into_vec() {
        put(rt, &mut text, b"|");
        put(rt, &mut text, body.as_slice());
    }
    text
}

/// A store over the disk with the text of what it was opened to; or the text of the fault.
pub fn open_on<D: Disk>(rt: &impl Abort, alloc: Global, disk: D) -> (Option<AreaStore<D>>, String) {
    match AreaStore::open(alloc, disk) {
        Ok((store, texts)) => (Some(store), texts_text(rt, alloc, texts)),
        Err((AreaFault::Damaged(damage), _)) => (None, damage_text(rt, alloc, damage)),
        Err((AreaFault::Disk, _)) => (None, must(rt, String::from_str(alloc, "disk"))),
        Err((AreaFault::Memory, _)) => (None, must(rt, String::from_str(alloc, "memory"))),
    }
}

/// What these areas are opened to.
pub fn opened(rt: &impl Abort, alloc: Global, left: &[u8], right: &[u8]) -> String {
    let (_, text) = open_on(rt, alloc, disk_of(rt, alloc, left, right));
    text
}
