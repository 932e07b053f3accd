//! The lines of entries and deltas are written to a sink, gathered in pieces.
ghost use Rattle.std.specs.Prelude.{◌≡◌, ◌<◌, ◌++◌, [], length, OnOk};
ghost use Rattle.std.specs.Option.{option_copied};
ghost use Rattle.report_text.specs.Deltas.{node_lines, delta_lines};
ghost use Rattle.run_text.specs.Lines.{entry_blocks, entry_lines, handed_lines, history_lines, notice_lines, some_lines};
ghost use Rattle.run_text.specs.Printing.{Printed};
ghost use Rattle.run_text.specs.Replies.{entry_line};

use crate::entry_text::{is_shown, put_line};
use crate::under_way::Current;
use crate::writing::{Unwritten, write_waiting};
use builder_api::Handed;
use core_event::{Answer, Entry};
use delta_kind::{Delta, DeltaNode};
use report_text::{put_node, put_text};
use ws_outside::Sink;

/// So many bytes are gathered before they are written.
const PIECE: usize = 65_536;

/// Writes what was gathered, where that is a piece.
fn print_gathered<K: Sink>(sink: &mut K, out: &mut Vec<u8>) -> Result<(), Unwritten>
    ensures printed { Printed (K.written sink.old) (K.written sink.new) (K.faults sink.old) (K.faults sink.new) out.old.items [] out.new.items result }
    // less than a piece is left to wait
    ensures little { OnOk result (length out.new.items < 65536) }
{
    if out.len() < PIECE {
        return Ok(());
    }
    match write_waiting(sink, out) {
        Ok(()) => Ok(()),
        Err(_) => Err(Unwritten::Fault),
    }
}

/// Prints a text.
fn print_text<K: Sink>(sink: &mut K, out: &mut Vec<u8>, text: &str) -> Result<(), Unwritten>
    ensures printed { Printed (K.written sink.old) (K.written sink.new) (K.faults sink.old) (K.faults sink.new) out.old.items text.now out.new.items result }
{
    match put_text(out, text) {
        Ok(()) => print_gathered(sink, out),
        Err(_) => Err(Unwritten::Memory),
    }
}

/// Prints the lines of a node.
fn print_node<K: Sink>(sink: &mut K, out: &mut Vec<u8>, node: &DeltaNode) -> Result<(), Unwritten>
    ensures printed { Printed (K.written sink.old) (K.written sink.new) (K.faults sink.old) (K.faults sink.new) out.old.items (node_lines node.now) out.new.items result }
{
    match put_node(out, node) {
        Ok(()) => print_gathered(sink, out),
        Err(_) => Err(Unwritten::Memory),
    }
}

/// Prints the lines of these nodes.
fn print_nodes<K: Sink>(
    sink: &mut K,
    out: &mut Vec<u8>,
    nodes: &[DeltaNode],
) -> Result<(), Unwritten>
    ensures printed { Printed (K.written sink.old) (K.written sink.new) (K.faults sink.old) (K.faults sink.new) out.old.items (delta_lines nodes.now) out.new.items result }
{
    for node in nodes {
        match print_node(sink, out, node) {
            Ok(()) => {}
            Err(error) => return Err(error),
        }
    }
    Ok(())
}

/// Prints a line, and the lines of a delta after it. What is gathered is written in pieces; less than a piece waits.
pub fn print_headed<K: Sink>(
    sink: &mut K,
    out: &mut Vec<u8>,
    head: &str,
    delta: &Delta,
) -> Result<(), Unwritten>
    ensures printed { Printed (K.written sink.old) (K.written sink.new) (K.faults sink.old) (K.faults sink.new) out.old.items (head.now ++ delta_lines delta.now) out.new.items result }
{
    match print_text(sink, out, head) {
        Ok(()) => print_nodes(sink, out, delta.nodes()),
        Err(error) => Err(error),
    }
}

/// Prints a notice, where there is one.
fn print_notice<K: Sink>(
    sink: &mut K,
    out: &mut Vec<u8>,
    notice: Option<&Delta>,
) -> Result<(), Unwritten>
    ensures printed { Printed (K.written sink.old) (K.written sink.new) (K.faults sink.old) (K.faults sink.new) out.old.items (notice_lines (option_copied notice.entry)) out.new.items result }
{
    match notice {
        None => Ok(()),
        Some(delta) => print_headed(sink, out, "notice\n", delta),
    }
}

/// Prints the lines of the delta that is handed, if one is.
fn print_delta<K: Sink>(sink: &mut K, out: &mut Vec<u8>, handed: &Handed) -> Result<(), Unwritten>
    ensures printed { Printed (K.written sink.old) (K.written sink.new) (K.faults sink.old) (K.faults sink.new) out.old.items (some_lines handed.now.delta) out.new.items result }
{
    match &handed.delta {
        None => Ok(()),
        Some(delta) => print_nodes(sink, out, delta.nodes()),
    }
}

/// Prints the lines of the delta that an answer hands, if it does.
fn print_handed<K: Sink>(sink: &mut K, out: &mut Vec<u8>, answer: &Answer) -> Result<(), Unwritten>
    ensures printed { Printed (K.written sink.old) (K.written sink.new) (K.faults sink.old) (K.faults sink.new) out.old.items (handed_lines answer.now) out.new.items result }
{
    match answer {
        Answer::Handed(handed) => print_delta(sink, out, handed.value()),
        Answer::Done
        | Answer::Id(_)
        | Answer::Count(_)
        | Answer::None
        | Answer::Job(_)
        | Answer::Seen(_)
        | Answer::Plan(_)
        | Answer::Committed { .. }
        | Answer::Refused(_) => Ok(()),
    }
}

/// Prints the lines of the delta that is handed, and the notice.
fn print_blocks<K: Sink>(sink: &mut K, out: &mut Vec<u8>, entry: &Entry) -> Result<(), Unwritten>
    ensures printed { Printed (K.written sink.old) (K.written sink.new) (K.faults sink.old) (K.faults sink.new) out.old.items (entry_blocks entry.now) out.new.items result }
{
    match print_handed(sink, out, &entry.reply.answer) {
        Ok(()) => print_notice(sink, out, entry.reply.notice.delta()),
        Err(error) => Err(error),
    }
}

/// Prints an entry's line, where this command is under way.
fn print_line<K: Sink>(
    sink: &mut K,
    out: &mut Vec<u8>,
    under: &Current<'_>,
    entry: &Entry,
) -> Result<(), Unwritten>
    ensures printed { Printed (K.written sink.old) (K.written sink.new) (K.faults sink.old) (K.faults sink.new) out.old.items (entry_line under.now entry.now) out.new.items result }
{
    match put_line(out, under, entry) {
        Ok(()) => print_gathered(sink, out),
        Err(_) => Err(Unwritten::Memory),
    }
}

/// Prints an entry's line, and what follows it.
fn print_shown<K: Sink>(
    sink: &mut K,
    out: &mut Vec<u8>,
    under: &Current<'_>,
    entry: &Entry,
) -> Result<(), Unwritten>
    ensures printed { Printed (K.written sink.old) (K.written sink.new) (K.faults sink.old) (K.faults sink.new) out.old.items (entry_line under.now entry.now ++ entry_blocks entry.now) out.new.items result }
{
    match print_line(sink, out, under, entry) {
        Ok(()) => print_blocks(sink, out, entry),
        Err(error) => Err(error),
    }
}

/// Prints an entry, where it is shown.
fn print_entry<K: Sink>(
    sink: &mut K,
    out: &mut Vec<u8>,
    under: &Current<'_>,
    entry: &Entry,
) -> Result<(), Unwritten>
    ensures printed { Printed (K.written sink.old) (K.written sink.new) (K.faults sink.old) (K.faults sink.new) out.old.items (entry_lines under.now entry.now) out.new.items result }
{
    if is_shown(&entry.event) {
        print_shown(sink, out, under, entry)
    } else {
        Ok(())
    }
}

/// Prints the entries: each one's line, the delta that it hands, and what it told. What is gathered is written in pieces;
/// less than a piece waits. No command is under way before the first one.
pub fn print_entries<K: Sink>(
    sink: &mut K,
    out: &mut Vec<u8>,
    entries: &[Entry],
) -> Result<(), Unwritten>
    ensures printed { Printed (K.written sink.old) (K.written sink.new) (K.faults sink.old) (K.faults sink.new) out.old.items (history_lines entries.now) out.new.items result }
{
    let mut under = Current::none();
    for entry in entries {
        match print_entry(sink, out, &under, entry) {
            Ok(()) => {}
            Err(error) => return Err(error),
        }
        under = under.after(entry);
    }
    Ok(())
}
