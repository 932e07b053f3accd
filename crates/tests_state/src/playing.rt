//! Events done on two cores: one over a tree with layers, and one over a tree that is copied.
ghost use Rattle.std.specs.Prelude.{◌≡◌, true};
ghost use Rattle.ws_core.specs.Histories.{has_entered};

use crate::asserting::{holds, let_go, must};
use crate::events::event;
use core_event::Entry;
use elem_tree::LayerTree;
use report_text::{delta_lines, put_rule, put_text};
use run_text::{Current, put_line};
use std::alloc::Global;
use std::process::Abort;
use tree_memory::{CopyTree, Remembers};
use ws_core::{BuilderNames, Core, NoMemory};
use ws_elem::ElemMap;

/// Two cores in which the same was done.
#[derive(Drop)]
pub struct Both {
    pub layered: Core<LayerTree>,
    pub copied: Core<CopyTree>,
}

fn fresh(alloc: Global) -> Result<Both, NoMemory> {
    let tree = ElemMap::fresh(alloc)?;
    Ok(Both {
        layered: Core::fresh(alloc)?,
        copied: Core::over(alloc, CopyTree::of(alloc, tree), BuilderNames::empty(alloc))?,
    })
}

pub fn start(rt: &(impl Abort + AllocGlobal)) -> Both {
    must(rt, fresh(rt.alloc()))
}

/// The line of an entry, and what it tells.
fn lines(rt: &(impl Abort + AllocGlobal), entry: &Entry) -> Vec<u8> {
    let mut out = Vec::new(rt.alloc());
    must(rt, put_line(&mut out, &Current::none(), entry));
    if let Some(delta) = entry.reply.notice.delta() {
        let told = must(rt, delta_lines(rt.alloc(), delta));
        must(rt, out.extend_from_slice(told.as_slice()));
    }
    out
}

/// Does the event of a pass that is there, and gives the lines of what is answered and told, with one more where no entry is
/// left.
fn step<T: Remembers + Drop>(
    rt: &(impl Abort + AllocGlobal),
    core: &mut Core<T>,
    pass: u64,
    text: &str,
) -> Vec<u8>
    requires { has_entered pass core.old.state ≡ true }
{
    let entries = core.history().len();
    let reply = must(rt, core.step(rt.alloc(), pass, event(rt, text)));
    let is_left = core.history().len() > entries;
    let event = event(rt, text);
    let entry = Entry { pass, event, reply };
    let mut out = lines(rt, &entry);
    let_go(entry);
    if !is_left {
        must(rt, put_text(&mut out, "no entry\n"));
    }
    out
}

/// The same of any pass: none where it isn't there.
fn done<T: Remembers + Drop>(
    rt: &(impl Abort + AllocGlobal),
    core: &mut Core<T>,
    pass: u64,
    text: &str,
) -> Vec<u8> {
    if core.has_entered(pass) {
        return step(rt, core, pass, text);
    }
    Vec::new(rt.alloc())
}

/// What both answer and tell alike.
pub fn told_by_both(
    rt: &(impl Abort + AllocGlobal),
    both: &mut Both,
    pass: u64,
    text: &str,
) -> Vec<u8> {
    let one = done(rt, &mut both.layered, pass, text);
    holds(rt, one == done(rt, &mut both.copied, pass, text));
    one
}

/// What changed since the workspace was opened.
fn since_start<T: Remembers + Drop>(rt: &(impl Abort + AllocGlobal), core: &Core<T>) -> Vec<u8> {
    let since = must(rt, core.since_start(rt.alloc()));
    must(rt, delta_lines(rt.alloc(), &since))
}

/// The same has changed in both since they were opened.
pub fn are_alike(rt: &(impl Abort + AllocGlobal), both: &Both) {
    holds(
        rt,
        since_start(rt, &both.layered) == since_start(rt, &both.copied),
    );
}

/// Ends the topmost rule of the pass that isn't null, or the null rule where it has none.
pub fn end_outer(rt: &(impl Abort + AllocGlobal), both: &mut Both, pass: u64) {
    let mut text = Vec::new(rt.alloc());
    must(rt, put_text(&mut text, "end "));
    match both.layered.outer(pass) {
        Some(rule) => must(rt, put_rule(&mut text, rule)),
        None => must(rt, put_text(&mut text, "null")),
    }
    drop(told_by_both(rt, both, pass, must(rt, str::from_utf8(text.as_slice()))));
}
