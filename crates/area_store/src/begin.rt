// What a store knows when it begins.
ghost use Rattle.std.specs.Prelude.{◌≡◌};
ghost use Rattle.ws_outside.specs.Disk.{picked};
ghost use Rattle.area_pair.specs.Found.{texts_with};
ghost use Rattle.area_pair.specs.Reads.{number_of, greatest};
ghost use Rattle.area_store.specs.Begun.{gate_in, desk_with};

use crate::desk::{Desk, other_of};
use area_pair::{Found, Texts, choose};
use disk_area::Head;
use ws_outside::{Disk, Which};

/// What a store knows of its areas once these were found, and the texts.
pub(crate) fn begin<D: Disk>(disk: D, found: Found) -> (Desk<D>, Option<Texts>)
    ensures desk { result.0 ≡ desk_with disk found }
    ensures texts { result.1 ≡ texts_with found.ended }
{
    let Found {
        heads,
        left_shut,
        right_shut,
        ended,
    } = found;
    let home = choose(heads).unwrap_or(Which::Right);
    let (gate, texts) = split(ended);
    let desk = Desk {
        disk,
        home,
        gate,
        top: greatest_of(heads),
        home_shut: of_area(home, left_shut, right_shut),
        spare_shut: of_area(other_of(home), left_shut, right_shut),
        failed: false,
    };
    (desk, texts)
}

/// The place of the gate, and the texts.
fn split(ended: Option<(u64, Texts)>) -> (Option<u64>, Option<Texts>)
    ensures gate { result.0 ≡ gate_in ended }
    ensures texts { result.1 ≡ texts_with ended }
{
    match ended {
        None => (None, None),
        Some((gate, texts)) => (Some(gate), Some(texts)),
    }
}

/// The greatest number of an open area, 0 where none is open.
fn greatest_of(heads: (Option<Head>, Option<Head>)) -> u64
    ensures { result ≡ greatest heads }
{
    let (left, right) = heads;
    number(left).max(number(right))
}

fn number(head: Option<Head>) -> u64
    ensures { result ≡ number_of head }
{
    match head {
        None => 0,
        Some(head) => head.number,
    }
}

/// What belongs to an area.
fn of_area(area: Which, left: bool, right: bool) -> bool
    ensures { result ≡ picked area left right }
{
    match area {
        Which::Left => left,
        Which::Right => right,
    }
}
