//! Rows of tables, each of a command and what it gives, and the script that spells the command.
use crate::asserting::{must, some};
use bytes::Bytes;
use script_lang::{Command, Job, Script, parse_shared};
use std::process::Abort;

/// What is before the mark, and what is after it.
pub fn cut<'a>(text: &'a str, mark: &str) -> (&'a str, &'a str) {
    match text.split_once(mark) {
        Some(parts) => parts,
        None => (text, ""),
    }
}

/// The number that the text is, 0 where it is none.
pub fn number(text: &str) -> u64 {
    match text.parse::<u64>() {
        Ok(number) => number,
        Err(_) => 0,
    }
}

/// The text, in which `/` ends a line.
pub fn lines_of(rt: &(impl Abort + AllocGlobal), text: &str) -> String {
    must(rt, text.replace(rt.alloc(), "/", "\n"))
}

pub fn script(rt: &(impl Abort + AllocGlobal), text: &str) -> Script {
    let text = must(rt, Bytes::copy_from_slice(rt.alloc(), text.as_bytes()));
    must(rt, parse_shared(rt.alloc(), text))
}

/// The text of one job with this head and these lines.
pub fn job_text(rt: &(impl Abort + AllocGlobal), head: &str, lines: &str) -> String {
    let mut text = must(rt, String::from_str(rt.alloc(), "phase\n"));
    for part in [head, "\n", lines, "\nendjob\nendphase\n"] {
        must(rt, text.push_str(part));
    }
    text
}

/// The job of the script's first phase.
pub fn job<'a>(rt: &impl Abort, script: &'a Script) -> &'a Job {
    let phase = some(rt, script.phases.as_slice().first());
    some(rt, phase.jobs.as_slice().first())
}

/// Its first command.
pub fn command<'a>(rt: &impl Abort, script: &'a Script) -> &'a Command {
    some(rt, job(rt, script).commands.as_slice().first())
}

/// The lines of which one of the first two words is one of these, each with the lines behind it that begin with two blanks.
pub fn lines_with(rt: &(impl Abort + AllocGlobal), text: &[u8], words: &str) -> String {
    let mut out = String::new(rt.alloc());
    let mut follows = false;
    for line in must(rt, str::from_utf8(text)).lines() {
        follows = begins_with(line, words) || follows && line.starts_with("  ");
        if follows {
            must(rt, out.push_str(line));
            must(rt, out.push_str("\n"));
        }
    }
    out
}

/// One of the line's first two words is one of these.
fn begins_with(line: &str, words: &str) -> bool {
    for word in words.split(' ') {
        for first in line.split(' ').take(2) {
            if first == word {
                return true;
            }
        }
    }
    false
}
