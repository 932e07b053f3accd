//! Rows played on a core over a tree with layers.
use crate::asserting::{cut, gives, holds, let_go, must, number};
use crate::events::event;
use crate::services::project;
use crate::telling::{told, told_kept};
use core_event::NoMemory;
use elem_tree::LayerTree;
use std::alloc::Global;
use std::process::Abort;
use ws_core::{BuilderNames, Core};
use ws_elem::ElemMap;

fn fresh(alloc: Global, builders: BuilderNames) -> Result<Core<LayerTree>, NoMemory> {
    let tree = ElemMap::fresh(alloc)?;
    Core::over(alloc, LayerTree::of(alloc, tree), builders)
}

/// A fresh workspace with the builders `copy` and `concat`.
pub fn start(rt: &(impl Abort + AllocGlobal)) -> Core<LayerTree> {
    let mut names = Vec::new(rt.alloc());
    must(rt, names.push(project(rt, "/copy")));
    must(rt, names.push(project(rt, "/concat")));
    must(rt, fresh(rt.alloc(), BuilderNames::of(names)))
}

/// Does the event of the pass, which is there. It leaves an entry.
fn perform(rt: &(impl Abort + AllocGlobal), core: &mut Core<LayerTree>, pass: u64, text: &str) {
    let entries = core.history().len();
    if core.has_entered(pass) {
        must(rt, core.perform(rt.alloc(), pass, event(rt, text)));
    }
    holds(rt, entries < core.history().len());
}

/// What the last entry tells.
fn last(rt: &(impl Abort + AllocGlobal), core: &Core<LayerTree>) -> String {
    match core.last() {
        Some(entry) => told(rt, entry),
        None => String::new(rt.alloc()),
    }
}

/// What the event of the pass gives; or what participants keep, where that is asked.
fn played(
    rt: &(impl Abort + AllocGlobal),
    core: &mut Core<LayerTree>,
    pass: u64,
    text: &str,
) -> String {
    if text == "kept" {
        return told_kept(rt, must(rt, core.kept_states(rt.alloc())).as_slice());
    }
    perform(rt, core, pass, text);
    last(rt, core)
}

/// The row has a pass, some events, and what each of them gives; the last of these holds for the rest.
fn play_row(rt: &(impl Abort + AllocGlobal), core: &mut Core<LayerTree>, row: &str) {
    let (pass, rest) = cut(row, '|');
    let (events, answers) = cut(rest, '|');
    let mut answers = answers.split("; ");
    let mut wanted = "";
    for text in events.split("; ") {
        if let Some(answer) = answers.next() {
            wanted = answer;
        }
        gives(
            rt,
            text,
            played(rt, core, number(pass), text).as_str(),
            wanted,
        );
    }
}

pub fn play(rt: &(impl Abort + AllocGlobal), core: &mut Core<LayerTree>, rows: &str) {
    for row in rows.lines() {
        play_row(rt, core, row);
    }
}

/// Plays the rows on a fresh workspace.
pub fn play_all(rt: &(impl Abort + AllocGlobal), rows: &str) {
    let mut core = start(rt);
    play(rt, &mut core, rows);
    let_go(core);
}
