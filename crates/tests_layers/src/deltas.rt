//! The deltas of changes.
use crate::elements::put;
use crate::rows::check_all;
use delta_kind::{DeltaNode, Place};
use delta_make::delta_of;
use layer_log::Changes;
use std::alloc::Global;
use ws_elem::NoMemory;

/// Of each node the path, the kind, the flags in base 16, where what is there was and where what was there is.
const ROWS: &str = "delta|/ 4 0, /P 4 0, /P/a 4 40100, |/P/a=-; /P/a=f4.3|/=r1 /P=p2 /P/a=f3.2
deltas|/ 4 0, /P 4 0, /P/a 4 40100, ; |/P/a=- /P/a=f4.3|/=r1 /P=p2 /P/a=f3.2
delta|/ 4 0, /P 4 0, /P/a 2 2000 to /P/c, /P/c 1 1000 from /P/a, |/P/a=- /P/b=f3.2; /P/b=- /P/c=f3.2|/=r1 /P=p2 /P/a=f3.2
deltas|/ 4 0, /P 4 0, /P/a 2 2000 to /P/b, /P/b 1 1000 from /P/a, ; / 4 0, /P 4 0, /P/b 2 2000 to /P/c, /P/c 1 1000 from /P/b, ; |/P/a=- /P/b=f3.2; /P/b=- /P/c=f3.2|/=r1 /P=p2 /P/a=f3.2
deltas|/ 4 0, /P 4 0, /P/a 2 2000 to /P/c, /P/c 1 1000 from /P/a, ; |/P/a=- /P/b=f3.2 /P/b=- /P/c=f3.2|/=r1 /P=p2 /P/a=f3.2
delta|/ 4 0, /P 4 0, /P/a 4 43100 from /P/b to /P/b, /P/b 4 43100 from /P/a to /P/a, |/P/a=- /P/t=f3.2; /P/b=- /P/a=f4.3; /P/t=- /P/b=f3.2|/=r1 /P=p2 /P/a=f3.2 /P/b=f4.3
delta|/ 4 0, /P 4 0, /P/a 4 48000, |/P/a=-; /P/a=d4|/=r1 /P=p2 /P/a=f3.2
deltas|/ 4 0, /P 4 0, /P/a 2 0, ; / 4 0, /P 4 0, /P/a 1 0, ; |/P/a=-; /P/a=d4|/=r1 /P=p2 /P/a=f3.2
delta||/P=q2 /P/a=-; /P=p2 /P/a=f3.2|/=r1 /P=p2 /P/a=f3.2
deltas|; |/P=q2 /P/a=- /P=p2 /P/a=f3.2|/=r1 /P=p2 /P/a=f3.2
deltas|/ 4 0, /P 4 4000, /P/a 2 0, ; / 4 0, /P 4 4000, /P/a 1 0, ; |/P=q2 /P/a=-; /P=p2 /P/a=f3.2|/=r1 /P=p2 /P/a=f3.2
delta|/ 4 0, /P 4 0, /P/a 4 42100 to /P/x, /P/x 1 1000 from /P/a, |/P/a=- /P/x=f3.1; /P/a=f4.2|/=r1 /P=p2 /P/a=f3.1
delta||";

fn put_place(out: &mut String, word: &str, place: &Place) -> Result<(), NoMemory> {
    if let Some(path) = place.path() {
        put(out, word)?;
        put(out, path.as_str())?;
    }
    Ok(())
}

fn put_node(alloc: Global, out: &mut String, node: &DeltaNode) -> Result<(), NoMemory> {
    let kind = node.kind;
    let flags = node.flags;
    put(out, node.path.as_str())?;
    put(out, format!(in alloc; " {kind} {flags:x}")?.as_str())?;
    put_place(out, " from ", &node.moved_from)?;
    put_place(out, " to ", &node.moved_to)?;
    put(out, ", ")
}

/// The nodes of the changes' delta.
pub fn put_delta_of(alloc: Global, out: &mut String, changes: &Changes) -> Result<(), NoMemory> {
    for node in delta_of(alloc, changes)?.iter() {
        put_node(alloc, out, node)?;
    }
    Ok(())
}

/// The nodes of the delta of each.
pub fn put_deltas_of(alloc: Global, out: &mut String, layers: &[Changes]) -> Result<(), NoMemory> {
    for layer in layers {
        put_delta_of(alloc, out, layer)?;
        put(out, "; ")?;
    }
    Ok(())
}

#[test]
fn deltas_of_changes_are_what_the_rows_say(rt: HostRuntime) {
    check_all(&rt, ROWS);
}
