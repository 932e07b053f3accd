//! What both areas hold.
ghost use Rattle.std.specs.Prelude.{◌≡◌, ◌++◌, OnOk};
ghost use Rattle.area_text.specs.Looks.{held_words, area_line, chosen_word, chosen_line, elements_line, found_text};

use crate::NoMemory;
use crate::area_words::area_word;
use report_text::{put_counted, put_text};
use save_store::Found;
use ws_outside::Which;

/// Appends what both areas hold: a line for each, `closed`, or `open` with its save number and how many records were read;
/// the area that decides, or `none`; and how many elements the tree has that they hold.
pub fn put_found(out: &mut Vec<u8>, found: Found) -> Result<(), NoMemory>
    ensures { OnOk result (out.new.items ≡ out.old.items ++ found_text found) }
{
    put_area(out, Which::Left, found.left)?;
    put_area(out, Which::Right, found.right)?;
    put_chosen(out, found.chosen)?;
    put_elements(out, found.elements)
}

fn put_area(out: &mut Vec<u8>, area: Which, held: Option<(u64, u64)>) -> Result<(), NoMemory>
    ensures { OnOk result (out.new.items ≡ out.old.items ++ area_line area held) }
{
    put_text(out, area_word(area))?;
    put_held(out, held)?;
    put_text(out, "\n")
}

fn put_held(out: &mut Vec<u8>, held: Option<(u64, u64)>) -> Result<(), NoMemory>
    ensures { OnOk result (out.new.items ≡ out.old.items ++ held_words held) }
{
    match held {
        None => put_text(out, " closed"),
        Some((number, records)) => {
            put_counted(out, " open ", number)?;
            put_counted(out, " ", records)
        }
    }
}

fn put_chosen(out: &mut Vec<u8>, chosen: Option<Which>) -> Result<(), NoMemory>
    ensures { OnOk result (out.new.items ≡ out.old.items ++ chosen_line chosen) }
{
    put_text(out, "chosen ")?;
    put_text(out, chosen_word(chosen))?;
    put_text(out, "\n")
}

fn chosen_word(chosen: Option<Which>) -> &'static str
    ensures { result.now ≡ chosen_word chosen }
{
    match chosen {
        None => "none",
        Some(area) => area_word(area),
    }
}

fn put_elements(out: &mut Vec<u8>, elements: u64) -> Result<(), NoMemory>
    ensures { OnOk result (out.new.items ≡ out.old.items ++ elements_line elements) }
{
    put_counted(out, "elements ", elements)?;
    put_text(out, "\n")
}
