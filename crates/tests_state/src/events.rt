//! Events as texts of runs have them.
use crate::asserting::{cut, let_go, must, number, some};
use script_lang::{Command, Script, parse};
use std::process::Abort;
use ws_core::Event;

/// The script of a job with this head and this line.
fn script(rt: &(impl Abort + AllocGlobal), head: &str, line: &str) -> Script {
    let mut text = Vec::new(rt.alloc());
    for part in ["phase\njob ", head, "\n", line, "\nendjob\nendphase\n"] {
        must(rt, text.extend_from_slice(part.as_bytes()));
    }
    must(rt, parse(rt.alloc(), text.as_slice()))
}

/// The event that schedules the job of this head.
fn scheduled(rt: &(impl Abort + AllocGlobal), head: &str) -> Event {
    let script = script(rt, head, "");
    let phase = some(rt, script.phases.as_slice().first());
    let job = some(rt, phase.jobs.as_slice().first());
    let name = must(rt, job.name.copy());
    let rule = must(rt, job.rule.as_rule().copy());
    let event = Event::Schedule(name, job.priority.number(), rule, job.asleep);
    let_go(script);
    event
}

/// The event that a command asks.
fn of_command(rt: &impl Abort, command: &Command) -> Event {
    match command {
        Command::Operation(op) => Event::Operation(must(rt, op.copy())),
        Command::Batch => Event::Batch,
        Command::EndBatch => Event::EndBatch,
        Command::Checkpoint => Event::Checkpoint,
        Command::Begin(rule) => Event::Begin(must(rt, rule.as_rule().copy())),
        Command::TryBegin(rule) => Event::TryBegin(must(rt, rule.as_rule().copy())),
        Command::End(rule) => Event::End(must(rt, rule.as_rule().copy())),
        Command::Sleep(name) => Event::Sleep(must(rt, name.copy())),
        Command::Wake(name) => Event::Wake(must(rt, name.copy())),
        Command::Cancel(name) => Event::Cancel(must(rt, name.copy())),
        Command::Build(_, _) | Command::Save(_) => panic!(rt; "no event"),
    }
}

fn asked(rt: &(impl Abort + AllocGlobal), line: &str) -> Event {
    let script = script(rt, "j 30 null", line);
    let phase = some(rt, script.phases.as_slice().first());
    let job = some(rt, phase.jobs.as_slice().first());
    let event = of_command(rt, some(rt, job.commands.as_slice().first()));
    let_go(script);
    event
}

pub fn event(rt: &(impl Abort + AllocGlobal), text: &str) -> Event {
    let (word, rest) = cut(text, " ");
    match word {
        "enter" => Event::Enter,
        "leave" => Event::Leave,
        "take" => Event::Take,
        "finish" => Event::Finish,
        "transfer" => Event::Transfer(number(rest)),
        "schedule" => scheduled(rt, rest),
        _ => asked(rt, text),
    }
}
