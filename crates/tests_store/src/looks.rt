//! What both areas hold, looked at without opening a store.
use crate::areas::{area_of, word};
use crate::asserting::{must, same, same_at};
use crate::opened::{damage_text, disk_of, word_of};
use crate::stops::saved;
use area_pair::{Holding, check};
use disk_area::AreaFault;
use std::alloc::Global;
use std::process::Abort;
use ws_outside::{MemDisk, Which};

/// A row: the areas, as for opening them, what each holds and which one decides. An area that is open is told by its number
/// and by how many records it has, or by the damage of its image.
const ROWS: &str = "\
- - closed closed none
3 - 3,0 closed left
- 3 closed 3,0 right
3 3 3,0 3,0 left
3 4 3,0 4,0 right
3d 4 3,57:digest 4,0 right
4g 3 closed 3,0 right
3m 4 left:1:magic
3 4m right:1:magic
";

fn holding_text(rt: &impl Abort, alloc: Global, holding: &Holding) -> String {
    let number = match holding.head {
        Some(head) => head.number,
        None => return must(rt, String::from_str(alloc, "closed")),
    };
    match &holding.area {
        Ok(Some(area)) => {
            let count = area.records.as_slice().len();
            must(rt, format!(in alloc; "{number},{count}"))
        }
        Ok(None) => String::new(alloc),
        Err((at, cause)) => {
            let word = word_of(*cause);
            must(rt, format!(in alloc; "{number},{at}:{word}"))
        }
    }
}

/// What both areas hold, and which one decides; or the damage of a head.
fn looked_at(rt: &impl Abort, alloc: Global, disk: &mut MemDisk) -> String {
    match check(alloc, disk) {
        Ok(holdings) => {
            let left = holding_text(rt, alloc, &holdings.left);
            let right = holding_text(rt, alloc, &holdings.right);
            let chosen = match holdings.chosen() {
                Some(Which::Left) => "left",
                Some(Which::Right) => "right",
                None => "none",
            };
            let (left, right) = (left.as_str(), right.as_str());
            must(rt, format!(in alloc; "{left} {right} {chosen}"))
        }
        Err(AreaFault::Damaged(damage)) => damage_text(rt, alloc, damage),
        Err(AreaFault::Disk | AreaFault::Memory) => String::new(alloc),
    }
}

/// The words that are left of a row, with a blank between two.
fn rest(rt: &impl Abort, alloc: Global, row: &str) -> String {
    let mut text = String::new(alloc);
    for word in row.split_whitespace().skip(2) {
        if !text.is_empty() {
            must(rt, text.push(' '));
        }
        must(rt, text.push_str(word));
    }
    text
}

fn is_looked_at_so(rt: &impl Abort, alloc: Global, row: &str) {
    let mut words = row.split_whitespace();
    let left = area_of(rt, alloc, word(&mut words), b"l");
    let right = area_of(rt, alloc, word(&mut words), b"r");
    let mut disk = disk_of(rt, alloc, &left, &right);
    let text = looked_at(rt, alloc, &mut disk);
    same_at(rt, row, text.as_str(), rest(rt, alloc, row).as_str());
}

#[test]
fn both_areas_are_looked_at_as_they_are(rt: HostRuntime) {
    for row in ROWS.lines() {
        is_looked_at_so(&rt, rt.alloc(), row);
    }
    same(&rt, ROWS.lines().count(), 9);
    let (mut disk, _) = saved(&rt, rt.alloc(), b"", Vec::new(rt.alloc()));
    let text = looked_at(&rt, rt.alloc(), &mut disk);
    same(&rt, text.as_str(), "1,1 2,1 right");
}
