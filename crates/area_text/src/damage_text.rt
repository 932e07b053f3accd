//! The line of a damage.
ghost use Rattle.std.specs.Prelude.{◌≡◌, ◌++◌, codes, decimal, OnOk};
ghost use Rattle.report_text.specs.Words.{hexadecimal};
ghost use Rattle.area_text.specs.Damages.{place_words, cause_words, damage_line};

use crate::NoMemory;
use crate::area_words::area_word;
use disk_area::{Damage, DamageCause};
use report_text::{put_counted, put_hexadecimal, put_text};
use ws_outside::Which;

/// Appends the line with which the program ends on damaged areas: the status 7, the area, the place of the byte, and what
/// is wrong there.
pub fn put_damage(out: &mut Vec<u8>, damage: Damage) -> Result<(), NoMemory>
    ensures { OnOk result (out.new.items ≡ out.old.items ++ damage_line damage) }
{
    put_text(out, "status 7 ")?;
    put_place(out, damage.area, damage.at)?;
    put_cause(out, &damage.cause)?;
    put_text(out, "\n")
}

/// Appends an area and a place in it, a space behind them.
fn put_place(out: &mut Vec<u8>, area: Which, at: u64) -> Result<(), NoMemory>
    ensures { OnOk result (out.new.items ≡ out.old.items ++ place_words area at) }
{
    put_text(out, area_word(area))?;
    put_counted(out, " ", at)?;
    put_text(out, " ")
}

fn put_cause(out: &mut Vec<u8>, cause: &DamageCause) -> Result<(), NoMemory>
    ensures { OnOk result (out.new.items ≡ out.old.items ++ cause_words cause.now) }
{
    match cause {
        DamageCause::TooLarge => put_text(out, "large"),
        DamageCause::BadMagic => put_text(out, "magic"),
        DamageCause::BadVersion(version) => put_counted(out, "version ", u64::from(*version)),
        DamageCause::BadNumber => put_text(out, "number"),
        DamageCause::Truncated => put_text(out, "truncated"),
        DamageCause::BadDigest { kept, found } => put_digests(out, kept, found),
        DamageCause::BadText => put_text(out, "text"),
        DamageCause::BadState => put_text(out, "state"),
    }
}

/// Appends the digest that is kept, and that of the bytes.
fn put_digests(out: &mut Vec<u8>, kept: &[u8], found: &[u8]) -> Result<(), NoMemory>
    ensures { OnOk result (out.new.items ≡ out.old.items ++ codes "digest " ++ hexadecimal kept.now ++ codes " " ++ hexadecimal found.now) }
{
    put_text(out, "digest ")?;
    put_hexadecimal(out, kept)?;
    put_text(out, " ")?;
    put_hexadecimal(out, found)
}
