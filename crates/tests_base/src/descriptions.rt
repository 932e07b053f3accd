//! The canonical texts of descriptions of the project P.
use crate::asserting::must;
use crate::paths::name;
use crate::rows::{Row, play, say};
use proj_desc::Desc;
use std::alloc::Global;
use std::process::Abort;

/// `canonical` gives the canonical text.
const ROWS: &str = r#"canonical|{"commands":[],"references":[]}|{}
canonical|{"commands":[],"references":["B"]}| {"references" : ["A"], "references":["B"]} 
canonical|{"commands":[{"builder":"copy","inputs":["src","/Q/é"],"output":"bin"}],"references":["Q"]}|{"references":["Q"],"commands":[{"output":"bin","inputs":["src","/Q/\u00e9"],"builder":"copy"}]}"#;

/// The canonical text of the description that is read.
fn written(rt: &impl Abort, alloc: Global, text: &[u8]) -> Vec<u8> {
    let read = must(rt, Desc::parse(alloc, &name(rt, alloc, "P"), text));
    must(rt, must(rt, read.copy()).text(alloc))
}

/// The canonical text, where it is also that of the description that is read.
fn say_canonical(rt: &impl Abort, alloc: Global, told: &mut String, text: &[u8]) {
    let bytes = must(rt, Desc::canonical(alloc, &name(rt, alloc, "P"), text));
    if bytes.as_slice() == written(rt, alloc, text).as_slice() {
        say(rt, told, must(rt, std::str::from_utf8(bytes.as_slice())));
    }
}

/// Whether the row's word is one of descriptions, of which then it tells.
pub fn tell(rt: &impl Abort, alloc: Global, row: &Row<'_>, told: &mut String) -> bool {
    if row.word != "canonical" {
        return false;
    }
    say_canonical(rt, alloc, told, row.one.as_bytes());
    true
}

#[test]
fn canonical_texts_are_what_the_rows_say(rt: HostRuntime) {
    play(&rt, rt.alloc(), ROWS);
}
