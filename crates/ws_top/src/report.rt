//! What was given back, what was done, and what changed since the start, or a summary, is written to a sink.
ghost use Rattle.std.specs.Prelude.{◌≡◌, ◌++◌, codes, map};
ghost use Rattle.std.specs.Option.{option_copied};
ghost use Rattle.script_words.specs.Words.{word_text};
ghost use Rattle.run_text.specs.Lines.{some_lines};
ghost use Rattle.run_text.specs.Printing.{Printed};
ghost use Rattle.save_round.specs.Restoring.{kept_for_each};
ghost use Rattle.ws_core.specs.Durables.{kept_since};
ghost use Rattle.ws_top.specs.Inside.Parts.{WritesLast, WritesReport, WritesRun};
ghost use Rattle.ws_top.specs.Texts.{changes_from, done_from, report_from, report_of, restored_block, restored_blocks, status_line};

use delta_kind::Delta;
use elem_tree::LayerTree;
use load_text::print_summary;
use report_text::{put_named, put_text};
use run_text::{Unwritten, print_entries, print_headed, write_all};
use save_round::{KeptState, Participant, Participants, kept_for};
use std::alloc::Global;
use std::mem;
use ws_core::Core;
use ws_outside::Sink;

/// What is told of a run.
#[derive(Clone, Copy, Debug, PartialEq, Eq)]
pub enum Telling {
    /// What participants got back, what was done, and what changed since the start.
    All,
    /// A summary of it.
    Summary,
}

/// Ends a line of which some was gathered, and prints what changed, where that is told.
fn print_changed<K: Sink>(
    sink: &mut K,
    out: &mut Vec<u8>,
    delta: Option<&Delta>,
) -> Result<(), Unwritten>
    ensures printed { Printed (K.written sink.old) (K.written sink.new) (K.faults sink.old) (K.faults sink.new) out.old.items (codes "\n" ++ some_lines (option_copied delta.entry)) out.new.items result }
{
    match delta {
        Some(delta) => print_headed(sink, out, "\n", delta),
        None => match put_text(out, "\n") {
            Ok(()) => Ok(()),
            Err(_) => Err(Unwritten::Memory),
        },
    }
}

/// Prints what was given back.
fn print_state<K: Sink>(sink: &mut K, out: &mut Vec<u8>, state: &KeptState) -> Result<(), Unwritten>
    ensures printed { Printed (K.written sink.old) (K.written sink.new) (K.faults sink.old) (K.faults sink.new) out.old.items (codes "restored " ++ word_text state.now.name ++ (codes "\n" ++ some_lines state.now.delta)) out.new.items result }
{
    match put_named(out, "restored ", state.name.text().as_bytes()) {
        Ok(()) => print_changed(sink, out, state.delta.as_ref()),
        Err(_) => Err(Unwritten::Memory),
    }
}

/// Prints what was given back, if something was.
fn print_block<K: Sink>(
    sink: &mut K,
    out: &mut Vec<u8>,
    kept: Option<&KeptState>,
) -> Result<(), Unwritten>
    ensures printed { Printed (K.written sink.old) (K.written sink.new) (K.faults sink.old) (K.faults sink.new) out.old.items (restored_block (option_copied kept.entry)) out.new.items result }
{
    match kept {
        Some(state) => print_state(sink, out, state),
        None => Ok(()),
    }
}

/// Prints what each participant got back of these states, in their order.
fn print_restored<K: Sink, P: Participant>(
    sink: &mut K,
    out: &mut Vec<u8>,
    parts: &Participants<P>,
    states: &[KeptState],
) -> Result<(), Unwritten>
    ensures printed { Printed (K.written sink.old) (K.written sink.new) (K.faults sink.old) (K.faults sink.new) out.old.items (restored_blocks (kept_for_each states.now (map (λ p. P.tells p) parts.now))) out.new.items result }
{
    for at in 0..parts.as_slice().len() {
        match print_block(sink, out, kept_for(parts, states, at)) {
            Ok(()) => {}
            Err(error) => return Err(error),
        }
    }
    Ok(())
}

/// Prints what changed since the start.
fn print_changes<K: Sink>(
    sink: &mut K,
    out: &mut Vec<u8>,
    alloc: Global,
    core: &Core<LayerTree>,
) -> Result<(), Unwritten>
    ensures printed { Printed (K.written sink.old) (K.written sink.new) (K.faults sink.old) (K.faults sink.new) out.old.items (changes_from core.now.opened core.now.history) out.new.items result }
{
    match core.since_start(alloc) {
        Ok(delta) => {
            let printed = print_headed(sink, out, "since start\n", &delta);
            mem::forget(delta);
            printed
        }
        Err(_) => Err(Unwritten::Memory),
    }
}

/// Prints what was done and what changed since the start.
fn print_done<K: Sink>(
    sink: &mut K,
    out: &mut Vec<u8>,
    alloc: Global,
    core: &Core<LayerTree>,
) -> Result<(), Unwritten>
    ensures printed { Printed (K.written sink.old) (K.written sink.new) (K.faults sink.old) (K.faults sink.new) out.old.items (done_from core.now.opened core.now.history) out.new.items result }
{
    match print_entries(sink, out, core.history()) {
        Ok(()) => print_changes(sink, out, alloc, core),
        Err(error) => Err(error),
    }
}

/// Prints what participants got back of these states, what was done, and what changed since the start.
fn print_report<K: Sink, P: Participant>(
    sink: &mut K,
    out: &mut Vec<u8>,
    alloc: Global,
    core: &Core<LayerTree>,
    parts: &Participants<P>,
    states: &[KeptState],
) -> Result<(), Unwritten>
    requires states { states.now ≡ kept_since core.now.opened }
    ensures printed { Printed (K.written sink.old) (K.written sink.new) (K.faults sink.old) (K.faults sink.new) out.old.items (report_from (map (λ p. P.tells p) parts.now) core.now.opened core.now.history) out.new.items result }
{
    match print_restored(sink, out, parts, states) {
        Ok(()) => print_done(sink, out, alloc, core),
        Err(error) => Err(error),
    }
}

/// Prints of these what is to be told.
fn print_told<K: Sink, P: Participant>(
    sink: &mut K,
    out: &mut Vec<u8>,
    alloc: Global,
    core: &Core<LayerTree>,
    parts: &Participants<P>,
    states: &[KeptState],
    telling: Telling,
) -> Result<(), Unwritten>
    requires states { states.now ≡ kept_since core.now.opened }
    ensures printed { Printed (K.written sink.old) (K.written sink.new) (K.faults sink.old) (K.faults sink.new) out.old.items (report_of telling (map (λ p. P.tells p) parts.now) core.now.opened core.now.history) out.new.items result }
{
    match telling {
        Telling::All => print_report(sink, out, alloc, core, parts, states),
        Telling::Summary => print_summary(sink, out, alloc, core),
    }
}

/// Writes what is to be told, all of it where nothing fails. What is written before a want of memory or a failed write is a
/// front of it.
fn write_report<K: Sink, P: Participant>(
    sink: &mut K,
    alloc: Global,
    core: &Core<LayerTree>,
    parts: &Participants<P>,
    states: &[KeptState],
    telling: Telling,
) -> Result<(), Unwritten>
    requires states { states.now ≡ kept_since core.now.opened }
    ensures written { WritesReport (K.written sink.old) (K.written sink.new) (K.faults sink.old) (K.faults sink.new) (report_of telling (map (λ p. P.tells p) parts.now) core.now.opened core.now.history) result }
{
    let mut out = Vec::new(alloc);
    match print_told(sink, &mut out, alloc, core, parts, states, telling) {
        Ok(()) => write_last(sink, out.as_slice()),
        Err(error) => Err(error),
    }
}

/// Writes the bytes, which are the last ones.
fn write_last<K: Sink>(sink: &mut K, bytes: &[u8]) -> Result<(), Unwritten>
    ensures written { WritesLast (K.written sink.old) (K.written sink.new) (K.faults sink.old) (K.faults sink.new) bytes.now result }
{
    match write_all(sink, bytes) {
        Ok(()) => Ok(()),
        Err(_) => Err(Unwritten::Fault),
    }
}

/// Writes the text of a run: what is to be told, which is what participants got back of these states, what was done and what
/// changed since the start, or a summary; and then the status, whose line is given.
pub fn write_run<K: Sink, P: Participant>(
    sink: &mut K,
    alloc: Global,
    core: &Core<LayerTree>,
    parts: &Participants<P>,
    states: &[KeptState],
    telling: Telling,
    status: u8,
    line: &[u8],
) -> Result<(), Unwritten>
    requires states { states.now ≡ kept_since core.now.opened }
    requires line { line.now ≡ status_line status }
    ensures written { WritesRun (K.written sink.old) (K.written sink.new) (K.faults sink.old) (K.faults sink.new) (report_of telling (map (λ p. P.tells p) parts.now)) core.now.opened core.now.history status result }
{
    match write_report(sink, alloc, core, parts, states, telling) {
        Ok(()) => write_last(sink, line),
        Err(error) => Err(error),
    }
}
