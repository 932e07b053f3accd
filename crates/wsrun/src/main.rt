//! The program: its words, standard input, standard output, the area files, the standard builders and the participant
//! `notes` go to `answer`, with whose status it ends.
#![tactic(auto)]

ghost use Rattle.std.specs.Prelude.{◌≡◌, map, None};
ghost use Rattle.std.specs.Process.{exit_status};
ghost use Rattle.builder_api.specs.Told.{HaveMeanings};
ghost use Rattle.std_builders.specs.Builders.{told};
ghost use Rattle.std_builders.specs.Standards.{standard};

use builder_api::Builders;
use delta_kind::Delta;
use save_round::Notes;
use std::alloc::{AllocError, Global};
use std::process::ExitCode;
use std::{env, io, mem};
use std_builders::{Standard, StandardBuilder, standard_builders};
use ws_outside::{FileDisk, StdSink, StdSource};
use ws_top::{Areas, Kit, Listener, Listeners, Outcome, Participants, answer};

/// The two area files.
type Files = FileDisk<HostRuntime>;

/// A listener that keeps nothing. The program has none.
#[derive(Drop)]
struct Nobody;

impl Listener for Nobody {
    ghost heard = { λ _. None };

    fn told(&mut self, _: &Delta) {}
}

fn main(rt: HostRuntime) -> ExitCode {
    let alloc = rt.alloc();
    let mut source = StdSource::new(rt.stdin());
    let mut sink = StdSink::new(rt.stdout());
    let (builders, words) = brought(&rt, alloc);
    let (participants, words) = attended(alloc, words);
    let (words, left, right) = named(alloc, words);
    let areas = Areas {
        disk: FileDisk::new(rt, left, right),
    };
    let kit = Kit {
        builders,
        listeners: Listeners::<Nobody>::of(Vec::new(alloc)),
        participants,
    };
    ended(answer::<StdSource, StdSink, Files, Nobody, StandardBuilder, Notes, Standard>(
        alloc,
        words,
        &mut source,
        &mut sink,
        areas,
        kit,
    ))
}

/// The standard builders, and the words that the program was called with. Where memory wants for the builders, there is
/// none of them, and it wants for the words too.
fn brought(
    rt: &HostRuntime,
    alloc: Global,
) -> (Builders<StandardBuilder>, Result<Vec<String>, AllocError>)
    ensures means { HaveMeanings standard (map told result.0) }
{
    match standard_builders(alloc) {
        Ok(builders) => (builders, words(rt, alloc)),
        Err(wanted) => (Builders::of(Vec::new(alloc)), Err(wanted)),
    }
}

/// The participant `notes` alone. Where memory wants for it, there is none, and it wants for the words too.
fn attended(
    alloc: Global,
    words: Result<Vec<String>, AllocError>,
) -> (Participants<Notes>, Result<Vec<String>, AllocError>) {
    match notes(alloc) {
        Ok(all) => (Participants::of(all), words),
        Err(wanted) => (Participants::of(Vec::new(alloc)), Err(wanted)),
    }
}

fn notes(alloc: Global) -> Result<Vec<Notes>, AllocError> {
    let mut all = Vec::new(alloc);
    all.push(Notes::new(alloc))?;
    Ok(all)
}

/// The status with which the program ends. What was done is not let go entry by entry: the system takes the memory back
/// at once.
fn ended(outcome: Outcome<Files, Nobody, StandardBuilder, Notes>) -> ExitCode
    ensures { exit_status result ≡ outcome.status }
{
    let Outcome {
        status: code,
        history,
        ..
    } = outcome;
    mem::forget(history);
    ExitCode::from(code)
}

/// The words, and the names of the area files. Where memory wants for the names, it wants for the words too.
fn named(
    alloc: Global,
    words: Result<Vec<String>, AllocError>,
) -> (Result<Vec<String>, AllocError>, String, String) {
    match names_in(alloc, words) {
        Ok((words, left, right)) => (Ok(words), left, right),
        Err(wanted) => (Err(wanted), String::new(alloc), String::new(alloc)),
    }
}

/// The words, and the last two of them, which name the area files in each form that touches these.
fn names_in(
    alloc: Global,
    words: Result<Vec<String>, AllocError>,
) -> Result<(Vec<String>, String, String), AllocError> {
    let words = words?;
    let left = word_from_end(alloc, words.as_slice(), 2)?;
    let right = word_from_end(alloc, words.as_slice(), 1)?;
    Ok((words, left, right))
}

/// The word so many places before the end, empty where there are fewer: no area is opened then.
fn word_from_end(alloc: Global, words: &[String], back: usize) -> Result<String, AllocError> {
    match words.len().checked_sub(back) {
        Some(at) => word_at(alloc, words, at),
        None => Ok(String::new(alloc)),
    }
}

/// The word at this place, empty where there is none.
fn word_at(alloc: Global, words: &[String], at: usize) -> Result<String, AllocError> {
    match words.get(at) {
        Some(word) => String::from_str(alloc, word.as_str()),
        None => Ok(String::new(alloc)),
    }
}

/// The words that the program was called with, without its name: none where one of them is no UTF-8.
fn words(rt: &HostRuntime, alloc: Global) -> Result<Vec<String>, AllocError> {
    match given(rt, alloc) {
        Ok(words) => Ok(words),
        Err(error) if error.kind() == io::ErrorKind::InvalidData => Ok(Vec::new(alloc)),
        Err(_) => Err(AllocError),
    }
}

fn given(rt: &HostRuntime, alloc: Global) -> io::Result<Vec<String>> {
    let mut words = Vec::new(alloc);
    for word in env::args(rt)?.skip(1) {
        if words.push(word).is_err() {
            return Err(io::Error::from(io::ErrorKind::OutOfMemory));
        }
    }
    Ok(words)
}
