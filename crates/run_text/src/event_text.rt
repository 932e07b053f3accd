//! The words of events.
ghost use Rattle.std.specs.Prelude.{◌≡◌, ◌++◌, codes, decimal, OnOk};
ghost use Rattle.report_text.specs.Rules.{rule_words};
ghost use Rattle.run_text.specs.Replies.{asleep_text, event_text};
ghost use Rattle.script_words.specs.Words.{word_text};

use crate::NoMemory;
use crate::service_text::put_service;
use crate::under_way::Current;
use core_event::{Event, WsRule};
use report_text::{put_counted, put_named, put_rule, put_text};
use res_path::Name;
use script_ops::put_operation;

/// Appends a text and the words of a rule.
pub(crate) fn put_ruled(out: &mut Vec<u8>, before: &str, rule: &WsRule) -> Result<(), NoMemory>
    ensures { OnOk result (out.new.items ≡ out.old.items ++ before.now ++ rule_words rule.now) }
{
    put_text(out, before)?;
    put_rule(out, rule)
}

/// Appends a text and the name of a job.
fn put_job(out: &mut Vec<u8>, before: &str, name: &Name) -> Result<(), NoMemory>
    ensures { OnOk result (out.new.items ≡ out.old.items ++ before.now ++ word_text name.now) }
{
    put_named(out, before, name.text().as_bytes())
}

/// The word of a job that is scheduled asleep.
fn asleep_text(asleep: bool) -> &'static str
    ensures { result.now ≡ asleep_text asleep }
{
    if asleep { " asleep" } else { "" }
}

fn put_schedule(
    out: &mut Vec<u8>,
    name: &Name,
    priority: u8,
    rule: &WsRule,
    asleep: bool,
) -> Result<(), NoMemory>
    ensures { OnOk result (out.new.items ≡ out.old.items ++ codes "schedule " ++ word_text name.now ++ codes " " ++ decimal priority ++ asleep_text asleep ++ codes " " ++ rule_words rule.now) }
{
    put_job(out, "schedule ", name)?;
    put_counted(out, " ", u64::from(priority))?;
    put_text(out, asleep_text(asleep))?;
    put_ruled(out, " ", rule)
}

/// Appends the words of an event: the command of a script that it is, or what stands for it, where this command is under
/// way.
pub fn put_event(out: &mut Vec<u8>, under: &Current<'_>, event: &Event) -> Result<(), NoMemory>
    ensures { OnOk result (out.new.items ≡ out.old.items ++ event_text under.now event.now) }
{
    match event {
        Event::Enter => put_text(out, "enter"),
        Event::Leave => put_text(out, "leave"),
        Event::Schedule(name, priority, rule, asleep) => {
            put_schedule(out, name, *priority, rule, *asleep)
        }
        Event::Sleep(name) => put_job(out, "sleep ", name),
        Event::Wake(name) => put_job(out, "wake ", name),
        Event::Cancel(name) => put_job(out, "cancel ", name),
        Event::Take => put_text(out, "take"),
        Event::Finish => put_text(out, "finish"),
        Event::Begin(rule) => put_ruled(out, "begin ", rule),
        Event::TryBegin(rule) => put_ruled(out, "trybegin ", rule),
        Event::End(rule) => put_ruled(out, "end ", rule),
        Event::Transfer(to) => put_counted(out, "transfer ", *to),
        Event::Batch => put_text(out, "batch"),
        Event::EndBatch => put_text(out, "endbatch"),
        Event::Checkpoint => put_text(out, "checkpoint"),
        Event::Operation(op) => put_operation(out, op),
        Event::Service(event) => put_service(out, under, event),
    }
}
