//! Events as they are written in rows: a word, and what it takes, with blanks between.
use crate::asserting::{cut, must, number};
use crate::services::service;
use bytes::Bytes;
use core_event::{Event, WsRule};
use op_kind::{Op, Want};
use res_path::Path;
use sched_rules::{Rule, WsAtom};
use std::process::Abort;

pub fn path_of(rt: &(impl Abort + AllocGlobal), text: &str) -> Path {
    must(rt, Path::parse(rt.alloc(), text))
}

pub fn bytes(rt: &(impl Abort + AllocGlobal), text: &str) -> Bytes {
    must(rt, Bytes::copy_from_slice(rt.alloc(), text.as_bytes()))
}

/// The rule of one path, or the null rule.
fn rule(rt: &(impl Abort + AllocGlobal), path: &str) -> WsRule {
    if path.is_empty() {
        return Rule::null(rt.alloc());
    }
    must(rt, Rule::of(rt.alloc(), WsAtom::Path(path_of(rt, path))))
}

/// A word that is none of an operation's shows what is there.
fn operation(rt: &(impl Abort + AllocGlobal), word: &str, rest: &str) -> Op {
    let (first, second) = cut(rest, ' ');
    let path = path_of(rt, first);
    match word {
        "file" => Op::CreateFile(path, bytes(rt, second)),
        "folder" => Op::CreateFolder(path),
        "project" => Op::CreateProject(path),
        "delete" => Op::Delete(path),
        "write" => Op::Write(path, bytes(rt, second)),
        "move" => Op::Move(path, path_of(rt, second)),
        "copy" => Op::Copy(path, path_of(rt, second)),
        "open" => Op::Open(path),
        "close" => Op::Close(path),
        "describe" => Op::Describe(path, bytes(rt, second)),
        "forget" => Op::Forget(path),
        "unmark" => Op::Unmark(path, number(second)),
        _ => Op::Read(path, Want::Show),
    }
}

pub fn event(rt: &(impl Abort + AllocGlobal), text: &str) -> Event {
    let (word, rest) = cut(text, ' ');
    match word {
        "enter" => Event::Enter,
        "leave" => Event::Leave,
        "take" => Event::Take,
        "begin" => Event::Begin(rule(rt, rest)),
        "end" => Event::End(rule(rt, rest)),
        "batch" => Event::Batch,
        "endbatch" => Event::EndBatch,
        "checkout" | "checkin" | "handed" | "commit" | "clean" | "saving" => {
            Event::Service(service(rt, word, rest))
        }
        _ => Event::Operation(operation(rt, word, rest)),
    }
}
