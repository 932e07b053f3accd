//! A script is read and run on what the areas hold.
ghost use Rattle.std.specs.Prelude.{◌≡◌, ◌⊎◌, ◌++◌, [], map, None, OnOk};
ghost use Rattle.builder_api.specs.Told.{HaveMeanings};
ghost use Rattle.ws_opening.specs.Opened.{opened_state};
ghost use Rattle.ws_top.specs.Builds.{MakesBuilds};
ghost use Rattle.ws_top.specs.Inside.Opening.{OpensAreas};
ghost use Rattle.ws_top.specs.Inside.Parts.{Performs, IsRefused, SaysBadLine, Responds};
ghost use Rattle.ws_top.specs.Outcomes.{Shuffle, CutShuffle, StoppedShuffle, HaveTakenPart, HearsNotices, Tells, Writes};
ghost use Rattle.ws_top.specs.Texts.{report_of, status_line, bad_line};

use crate::NoMemory;
use crate::kit::{Areas, Kit};
use crate::opening::open_areas;
use crate::refusal::refuse;
use crate::report::Telling;
use crate::running::perform_from;
use builder_api::{Builder, Meanings};
use bytes::Bytes;
use report_text::{put_counted, put_text};
use run_text::write_all;
use save_parts::Listener;
use save_round::Participant;
use script_lang::{Script, ScriptError, parse_shared};
use std::alloc::Global;
use ws_core::History;
use ws_opening::Kept;
use ws_outside::{Disk, Sink};

/// What a run ended with.
#[derive(Drop)]
pub struct Outcome<D: Disk, L: Listener, B: Builder, P: Participant> {
    /// 0; or 2 for words of no form, 3 for a failed read, 9 for too long a script, 6 for bytes that spell no script,
    /// 5 for a call on the disk that failed while the areas were opened, 7 for damaged areas, 8 for want of memory, 4 for a
    /// failed write, 5 for a call on the disk that failed in a save; the first of these that applies.
    pub status: u8,
    /// What was done, in order.
    pub history: History,
    /// Which state it was done from, for contracts alone.
    pub kept: Kept,
    /// The areas of the caller.
    pub areas: Areas<D>,
    /// What the caller brought.
    pub kit: Kit<L, B, P>,
}

/// Runs the script that the bytes spell.
pub fn respond<K: Sink, D: Disk, L: Listener, B: Builder, P: Participant, M: Meanings>(
    alloc: Global,
    sink: &mut K,
    areas: Areas<D>,
    kit: Kit<L, B, P>,
    bytes: Vec<u8>,
) -> Outcome<D, L, B, P>
    requires means { HaveMeanings M.meaning (map (λ b. B.tells b) kit.builders) }
    ensures responds { Responds M.meaning result.kept (map (λ p. P.tells p) kit.participants) (opened_state result.kept (map (λ b. B.tells b) kit.builders)) bytes.items (K.written sink.old) (K.written sink.new) (K.faults sink.old) (K.faults sink.new) result.status result.history }
    ensures areas { OpensAreas D.moment D.left_since D.may_leave D.seen D.faults areas.disk result.areas.disk (K.written sink.old) (K.written sink.new) (K.faults sink.old) (K.faults sink.new) result.kept (opened_state result.kept (map (λ b. B.tells b) kit.builders)) result.status result.history }
    ensures heard { HearsNotices (opened_state result.kept (map (λ b. B.tells b) kit.builders)) result.status result.history (map (λ l. L.heard l) kit.listeners) (map (λ l. L.heard l) result.kit.listeners) }
    ensures builds { MakesBuilds M.meaning (opened_state result.kept (map (λ b. B.tells b) kit.builders)) result.history (map (λ b. B.tells b) kit.builders) (map (λ b. B.tells b) result.kit.builders) }
    ensures participants { HaveTakenPart result.kept (opened_state result.kept (map (λ b. B.tells b) kit.builders)) result.status result.history (map (λ p. P.tells p) kit.participants) (map (λ p. P.tells p) result.kit.participants) }
{
    match Bytes::from_vec(bytes) {
        Ok(text) => respond_to::<K, D, L, B, P, M>(alloc, sink, areas, kit, text),
        Err(_) => want(alloc, sink, areas, kit),
    }
}

/// Runs the script that the text spells.
fn respond_to<K: Sink, D: Disk, L: Listener, B: Builder, P: Participant, M: Meanings>(
    alloc: Global,
    sink: &mut K,
    areas: Areas<D>,
    kit: Kit<L, B, P>,
    text: Bytes,
) -> Outcome<D, L, B, P>
    requires means { HaveMeanings M.meaning (map (λ b. B.tells b) kit.builders) }
    ensures responds { Responds M.meaning result.kept (map (λ p. P.tells p) kit.participants) (opened_state result.kept (map (λ b. B.tells b) kit.builders)) text (K.written sink.old) (K.written sink.new) (K.faults sink.old) (K.faults sink.new) result.status result.history }
    ensures areas { OpensAreas D.moment D.left_since D.may_leave D.seen D.faults areas.disk result.areas.disk (K.written sink.old) (K.written sink.new) (K.faults sink.old) (K.faults sink.new) result.kept (opened_state result.kept (map (λ b. B.tells b) kit.builders)) result.status result.history }
    ensures heard { HearsNotices (opened_state result.kept (map (λ b. B.tells b) kit.builders)) result.status result.history (map (λ l. L.heard l) kit.listeners) (map (λ l. L.heard l) result.kit.listeners) }
    ensures builds { MakesBuilds M.meaning (opened_state result.kept (map (λ b. B.tells b) kit.builders)) result.history (map (λ b. B.tells b) kit.builders) (map (λ b. B.tells b) result.kit.builders) }
    ensures participants { HaveTakenPart result.kept (opened_state result.kept (map (λ b. B.tells b) kit.builders)) result.status result.history (map (λ p. P.tells p) kit.participants) (map (λ p. P.tells p) result.kit.participants) }
{
    match parse_shared(alloc, text) {
        Ok(script) => { perform::<K, D, L, B, P, M>(alloc, sink, areas, kit, script, Telling::All) }
        Err(ScriptError::BadLine(line)) => say_bad_line(alloc, sink, areas, kit, line),
        Err(ScriptError::Memory) => want(alloc, sink, areas, kit),
    }
}

/// Tells at which line the reading stopped.
fn say_bad_line<K: Sink, D: Disk, L: Listener, B: Builder, P: Participant>(
    alloc: Global,
    sink: &mut K,
    areas: Areas<D>,
    kit: Kit<L, B, P>,
    line: u64,
) -> Outcome<D, L, B, P>
    ensures told { SaysBadLine line (K.written sink.old) (K.written sink.new) (K.faults sink.old) (K.faults sink.new) result.status }
    ensures nothing { result.history ≡ [] }
    ensures none { result.kept ≡ None }
    ensures areas { result.areas ≡ areas }
    ensures kit { result.kit ≡ kit }
{
    let mut text = Vec::new(alloc);
    match put_bad_line(&mut text, line) {
        Ok(()) => say(alloc, sink, areas, kit, 6, text.as_slice()),
        Err(_) => want(alloc, sink, areas, kit),
    }
}

/// Appends the line of a script that no bytes spell.
fn put_bad_line(out: &mut Vec<u8>, line: u64) -> Result<(), NoMemory>
    ensures { OnOk result (out.new.items ≡ out.old.items ++ bad_line line) }
{
    put_counted(out, "status ", 6)?;
    put_counted(out, " line ", line)?;
    put_text(out, "\n")
}

/// Opens the areas, and runs the script on the workspace that they hold. What was done is told as it is asked for.
pub fn perform<K: Sink, D: Disk, L: Listener, B: Builder, P: Participant, M: Meanings>(
    alloc: Global,
    sink: &mut K,
    areas: Areas<D>,
    kit: Kit<L, B, P>,
    script: Script,
    telling: Telling,
) -> Outcome<D, L, B, P>
    requires means { HaveMeanings M.meaning (map (λ b. B.tells b) kit.builders) }
    ensures performs { Performs (Shuffle M.meaning (opened_state result.kept (map (λ b. B.tells b) kit.builders)) script) (CutShuffle M.meaning (opened_state result.kept (map (λ b. B.tells b) kit.builders)) script) (StoppedShuffle M.meaning (opened_state result.kept (map (λ b. B.tells b) kit.builders)) script) result.kept (report_of telling (map (λ p. P.tells p) kit.participants)) (opened_state result.kept (map (λ b. B.tells b) kit.builders)) (K.written sink.old) (K.written sink.new) (K.faults sink.old) (K.faults sink.new) result.status result.history ⊎ IsRefused result.kept result.status result.history }
    ensures areas { OpensAreas D.moment D.left_since D.may_leave D.seen D.faults areas.disk result.areas.disk (K.written sink.old) (K.written sink.new) (K.faults sink.old) (K.faults sink.new) result.kept (opened_state result.kept (map (λ b. B.tells b) kit.builders)) result.status result.history }
    ensures heard { HearsNotices (opened_state result.kept (map (λ b. B.tells b) kit.builders)) result.status result.history (map (λ l. L.heard l) kit.listeners) (map (λ l. L.heard l) result.kit.listeners) }
    ensures builds { MakesBuilds M.meaning (opened_state result.kept (map (λ b. B.tells b) kit.builders)) result.history (map (λ b. B.tells b) kit.builders) (map (λ b. B.tells b) result.kit.builders) }
    ensures participants { HaveTakenPart result.kept (opened_state result.kept (map (λ b. B.tells b) kit.builders)) result.status result.history (map (λ p. P.tells p) kit.participants) (map (λ p. P.tells p) result.kit.participants) }
{
    match open_areas(alloc, areas) {
        Ok((store, durable)) => {
            perform_from::<K, D, L, B, P, M>(alloc, sink, store, kit, durable, script, telling)
        }
        Err((fault, areas)) => refuse(alloc, sink, areas, kit, fault),
    }
}

/// Tells that memory wanted before anything was done.
pub fn want<K: Sink, D: Disk, L: Listener, B: Builder, P: Participant>(
    alloc: Global,
    sink: &mut K,
    areas: Areas<D>,
    kit: Kit<L, B, P>,
) -> Outcome<D, L, B, P>
    ensures status { result.status ≡ 8 }
    ensures line { Writes (K.written sink.old) (K.written sink.new) (K.faults sink.old) (K.faults sink.new) (status_line 8) }
    ensures nothing { result.history ≡ [] }
    ensures none { result.kept ≡ None }
    ensures areas { result.areas ≡ areas }
    ensures kit { result.kit ≡ kit }
{
    stop(alloc, sink, areas, kit, 8, b"status 8\n")
}

/// Ends with the status, whose line is given, where nothing was done. A line that isn't written whole leaves the status.
pub fn stop<K: Sink, D: Disk, L: Listener, B: Builder, P: Participant>(
    alloc: Global,
    sink: &mut K,
    areas: Areas<D>,
    kit: Kit<L, B, P>,
    status: u8,
    line: &[u8],
) -> Outcome<D, L, B, P>
    requires { line.now ≡ status_line status }
    ensures status { result.status ≡ status }
    ensures line { Writes (K.written sink.old) (K.written sink.new) (K.faults sink.old) (K.faults sink.new) (status_line status) }
    ensures nothing { result.history ≡ [] }
    ensures none { result.kept ≡ None }
    ensures areas { result.areas ≡ areas }
    ensures kit { result.kit ≡ kit }
{
    say(alloc, sink, areas, kit, status, line)
}

/// Writes a text and ends with the status, where nothing was done.
pub fn say<K: Sink, D: Disk, L: Listener, B: Builder, P: Participant>(
    alloc: Global,
    sink: &mut K,
    areas: Areas<D>,
    kit: Kit<L, B, P>,
    status: u8,
    text: &[u8],
) -> Outcome<D, L, B, P>
    ensures status { result.status ≡ status }
    ensures written { Writes (K.written sink.old) (K.written sink.new) (K.faults sink.old) (K.faults sink.new) text.now }
    ensures nothing { result.history ≡ [] }
    ensures none { result.kept ≡ None }
    ensures areas { result.areas ≡ areas }
    ensures kit { result.kit ≡ kit }
{
    let _ = write_all(sink, text);
    nothing_done(alloc, areas, kit, status)
}

/// Writes a text, where nothing else is asked.
pub fn tell<K: Sink, D: Disk, L: Listener, B: Builder, P: Participant>(
    alloc: Global,
    sink: &mut K,
    areas: Areas<D>,
    kit: Kit<L, B, P>,
    text: &[u8],
) -> Outcome<D, L, B, P>
    ensures tells { Tells text.now (K.written sink.old) (K.written sink.new) (K.faults sink.old) (K.faults sink.new) result.status }
    ensures nothing { result.history ≡ [] }
    ensures none { result.kept ≡ None }
    ensures areas { result.areas ≡ areas }
    ensures kit { result.kit ≡ kit }
{
    match write_all(sink, text) {
        Ok(()) => nothing_done(alloc, areas, kit, 0),
        Err(_) => nothing_done(alloc, areas, kit, 4),
    }
}

/// What the program ends with where nothing was done.
fn nothing_done<D: Disk, L: Listener, B: Builder, P: Participant>(
    alloc: Global,
    areas: Areas<D>,
    kit: Kit<L, B, P>,
    status: u8,
) -> Outcome<D, L, B, P>
    ensures status { result.status ≡ status }
    ensures nothing { result.history ≡ [] }
    ensures none { result.kept ≡ None }
    ensures areas { result.areas ≡ areas }
    ensures kit { result.kit ≡ kit }
{
    Outcome {
        status,
        history: History::empty(alloc),
        kept: Kept::none(),
        areas,
        kit,
    }
}
