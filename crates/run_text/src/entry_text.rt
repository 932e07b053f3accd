//! The lines of entries.
ghost use Rattle.std.specs.Prelude.{◌≡◌, ◌++◌, codes, decimal, OnOk};
ghost use Rattle.run_text.specs.Replies.{answer_text, entry_line, handed_word, is_shown};

use crate::NoMemory;
use crate::event_text::put_event;
use crate::read_text::put_seen;
use crate::refusal_text::put_refused;
use crate::under_way::Current;
use builder_api::Handed;
use core_event::{Answer, Entry, Event};
use report_text::{put_counted, put_text};
use script_words::put_word;

/// Whether a delta is handed, in a word.
fn handed_word(handed: &Handed) -> &'static str
    ensures { result.now ≡ handed_word handed.now.delta }
{
    match &handed.delta {
        None => "none",
        Some(_) => "delta",
    }
}

fn put_committed(out: &mut Vec<u8>, touched: u64, problems: u64) -> Result<(), NoMemory>
    ensures { OnOk result (out.new.items ≡ out.old.items ++ codes "touched " ++ decimal touched ++ codes " problems " ++ decimal problems) }
{
    put_counted(out, "touched ", touched)?;
    put_counted(out, " problems ", problems)
}

fn put_answer(out: &mut Vec<u8>, event: &Event, answer: &Answer) -> Result<(), NoMemory>
    ensures { OnOk result (out.new.items ≡ out.old.items ++ answer_text event.now answer.now) }
{
    match answer {
        Answer::Done => put_text(out, "ok"),
        Answer::Id(id) => put_counted(out, "id ", *id),
        Answer::Count(count) => put_counted(out, "count ", *count),
        Answer::None => put_text(out, "none"),
        Answer::Job(name) => put_word(out, name.value().text().as_bytes()),
        Answer::Seen(seen) => {
            let (entries, partners) = seen.value();
            put_seen(out, event, entries, partners)
        }
        Answer::Plan(_) => put_text(out, "ok"),
        Answer::Handed(handed) => put_text(out, handed_word(handed.value())),
        Answer::Committed { touched, problems } => put_committed(out, *touched, *problems),
        Answer::Refused(refusal) => put_refused(out, refusal.value()),
    }
}

/// Appends the line of an entry, where this command is under way.
pub fn put_line(out: &mut Vec<u8>, under: &Current<'_>, entry: &Entry) -> Result<(), NoMemory>
    ensures { OnOk result (out.new.items ≡ out.old.items ++ entry_line under.now entry.now) }
{
    put_counted(out, "p", entry.pass)?;
    put_text(out, " ")?;
    put_event(out, under, &entry.event)?;
    put_text(out, " -> ")?;
    put_answer(out, &entry.event, &entry.reply.answer)?;
    put_text(out, "\n")
}

/// Whether the event has a line.
pub fn is_shown(event: &Event) -> bool
    ensures { result ≡ is_shown event.now }
{
    match event {
        Event::Enter | Event::Leave => false,
        Event::Schedule(_, _, _, _)
        | Event::Sleep(_)
        | Event::Wake(_)
        | Event::Cancel(_)
        | Event::Take
        | Event::Finish
        | Event::Begin(_)
        | Event::TryBegin(_)
        | Event::End(_)
        | Event::Transfer(_)
        | Event::Batch
        | Event::EndBatch
        | Event::Checkpoint
        | Event::Operation(_)
        | Event::Service(_) => true,
    }
}
