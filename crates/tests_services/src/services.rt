//! What concerns the services, as it is written in rows: projects by their paths, kinds of builds by their numbers. Of edits
//! a word each: `/a=x` puts a file, `/a` removes one, `!/P/a=text` tells a problem of one; `/a*9` is `/a` nine times over. Of
//! states that are kept too: `a=x` is the state `x` of `a`, and `a*=x` the same where it asks for what changes.
use crate::asserting::{cut, must, number};
use crate::events::{bytes, path_of};
use builder_api::{BuildKind, BuildOutcome, Edits, FileEdits, Knot, Problem, Problems};
use bytes::Bytes;
use core_event::{Outcomes, Purpose, ServiceEvent};
use mark_set::MarkText;
use res_path::{Name, Path};
use save_kind::{PartState, PartStates, SaveAnswer, SaveKind};
use std::process::Abort;

fn kind(text: &str) -> BuildKind {
    match text {
        "6" => BuildKind::Full,
        "9" => BuildKind::Auto,
        "15" => BuildKind::Clean,
        _ => BuildKind::Incremental,
    }
}

/// The name of the project at the path.
pub fn project(rt: &(impl Abort + AllocGlobal), path: &str) -> Name {
    must(rt, Name::parse(rt.alloc(), cut(path, '/').1))
}

fn index(text: &str) -> u16 {
    (number(text) % 65_536) as u16
}

fn purpose(rt: &(impl Abort + AllocGlobal), kind: BuildKind, path: &str) -> Purpose {
    if path.is_empty() {
        return Purpose::Build(kind, None);
    }
    Purpose::Build(kind, Some(project(rt, path)))
}

fn save_kind(text: &str) -> SaveKind {
    match text {
        "2" => SaveKind::Snapshot,
        _ => SaveKind::Full,
    }
}

/// How a save ended; none where the word tells how a build did.
fn save_answer(rt: &(impl Abort + AllocGlobal), text: &str) -> Option<SaveAnswer> {
    let (word, rest) = cut(text, ' ');
    match word {
        "saved" => Some(SaveAnswer::Saved),
        "save-failed" => Some(SaveAnswer::SaveFailed),
        "save-too-large" => Some(SaveAnswer::SaveTooLarge),
        "save-numbers" => Some(SaveAnswer::SaveNumbers),
        "save-no-memory" => Some(SaveAnswer::NoMemory),
        "participant" => Some(SaveAnswer::ParticipantFailed(named(rt, rest))),
        _ => None,
    }
}

fn named(rt: &(impl Abort + AllocGlobal), text: &str) -> Name {
    must(rt, Name::parse(rt.alloc(), text))
}

/// The state of the word, with its participant's name.
fn state(rt: &(impl Abort + AllocGlobal), word: &str) -> (Name, PartState) {
    let (told, kept) = cut(word, '=');
    let name = match told.strip_suffix('*') {
        Some(name) => name,
        None => told,
    };
    let state = PartState {
        bytes: bytes(rt, kept),
        needs_delta: name.len() < told.len(),
    };
    (named(rt, name), state)
}

fn states(rt: &(impl Abort + AllocGlobal), text: &str) -> PartStates {
    let mut states = Vec::new(rt.alloc());
    for word in text.split_whitespace() {
        must(rt, states.push(state(rt, word)));
    }
    PartStates::of(states)
}

fn outcomes(rt: &(impl Abort + AllocGlobal), text: &str) -> Outcomes {
    match save_answer(rt, text) {
        Some(answer) => Outcomes::Save(answer),
        None => Outcomes::Build(outcome(rt, text)),
    }
}

fn checkout(rt: &(impl Abort + AllocGlobal), text: &str) -> Purpose {
    let (what, more) = cut(text, ' ');
    let (second, third) = cut(more, ' ');
    match what {
        "save" => Purpose::Save(save_kind(second)),
        _ => purpose(rt, kind(second), third),
    }
}

fn knot(rt: &(impl Abort + AllocGlobal), paths: &str) -> Knot {
    let mut names = Vec::new(rt.alloc());
    for path in paths.split_whitespace() {
        must(rt, names.push(project(rt, path)));
    }
    Knot::of(names)
}

fn outcome(rt: &(impl Abort + AllocGlobal), text: &str) -> BuildOutcome {
    let (word, rest) = cut(text, ' ');
    let (first, second) = cut(rest, ' ');
    match word {
        "unsettled" => BuildOutcome::Unsettled(knot(rt, rest)),
        "failed" => BuildOutcome::BuilderFailed(project(rt, first), index(second)),
        "refused" => BuildOutcome::Refused((number(first) % 256) as u8),
        "cleaned" => BuildOutcome::Cleaned,
        "no-memory" => BuildOutcome::NoMemory,
        _ => BuildOutcome::Settled,
    }
}

fn edited(rt: &(impl Abort + AllocGlobal), text: &str) -> Path {
    let (names, times) = cut(text, '*');
    let mut path = String::new(rt.alloc());
    for _ in 0..number(times).max(1) {
        must(rt, path.push_str(names));
    }
    path_of(rt, path.as_str())
}

fn problem(rt: &(impl Abort + AllocGlobal), text: &str) -> Problem {
    let (path, message) = cut(text, '=');
    Problem {
        location: path_of(rt, path),
        line: 1,
        severity: 2,
        message: must(rt, MarkText::parse(rt.alloc(), message)),
    }
}

/// Adds the edit or the problem of the word.
fn add_edit(
    rt: &(impl Abort + AllocGlobal),
    files: &mut Vec<(Path, Option<Bytes>)>,
    problems: &mut Vec<Problem>,
    word: &str,
) {
    if let Some(told) = word.strip_prefix('!') {
        must(rt, problems.push(problem(rt, told)));
    } else if let Some((path, contents)) = word.split_once('=') {
        must(
            rt,
            files.push((edited(rt, path), Some(bytes(rt, contents)))),
        );
    } else {
        must(rt, files.push((edited(rt, word), None)));
    }
}

fn edits(rt: &(impl Abort + AllocGlobal), text: &str) -> Edits {
    let mut files = Vec::new(rt.alloc());
    let mut problems = Vec::new(rt.alloc());
    for word in text.split_whitespace() {
        add_edit(rt, &mut files, &mut problems, word);
    }
    Edits {
        files: FileEdits::of(files),
        problems: Problems::of(problems),
    }
}

pub fn service(rt: &(impl Abort + AllocGlobal), word: &str, rest: &str) -> ServiceEvent {
    let (first, more) = cut(rest, ' ');
    let (second, third) = cut(more, ' ');
    match word {
        "checkout" => ServiceEvent::Checkout(checkout(rt, rest)),
        "checkin" => ServiceEvent::CheckIn(outcomes(rt, rest)),
        "saving" => ServiceEvent::Saving(states(rt, rest)),
        "handed" => ServiceEvent::Handed(project(rt, first), index(second), kind(third)),
        "clean" => ServiceEvent::Clean(project(rt, first), index(second)),
        _ => ServiceEvent::Commit(edits(rt, rest)),
    }
}
