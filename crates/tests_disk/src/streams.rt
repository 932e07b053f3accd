//! Sources and sinks, in memory and of the process.
use crate::asserting::{holds, must, same};
use crate::rows::digits;
use std::process::Abort;
use ws_outside::{Failed, MemSink, MemSource, Sink, Source, StdSink, StdSource};

#[test]
fn a_source_gives_its_bytes_once_and_then_its_end(rt: HostRuntime) {
    let bytes = must(&rt, b"abcde".to_vec(rt.alloc()));
    let failing = digits(&rt, rt.alloc(), "13");
    let mut source = MemSource::new(rt.alloc(), bytes)
        .giving_at_most(3)
        .failing_at(failing);
    let mut buf = *b"----";
    same(&rt, source.read(&mut buf), Ok(3));
    same(&rt, source.read(&mut buf), Err(Failed));
    same(&rt, buf, *b"abc-");
    same(&rt, source.left(), b"de".as_slice());
    same(&rt, source.read(&mut []), Ok(0));
    same(&rt, source.read(&mut buf), Err(Failed));
    same(&rt, source.read(&mut buf), Ok(2));
    same(&rt, buf, *b"dec-");
    same(&rt, source.read(&mut buf), Ok(0));
    same(&rt, source.calls(), 6);
    same(&rt, source.faults(), 2);
}

#[test]
fn a_sink_keeps_what_it_took(rt: HostRuntime) {
    let failing = digits(&rt, rt.alloc(), "1");
    let mut sink = MemSink::new(rt.alloc())
        .taking_at_most(2)
        .failing_at(failing);
    must(&rt, sink.reserve(5));
    same(&rt, sink.write(b"abc"), Ok(2));
    same(&rt, sink.write(b"c"), Err(Failed));
    same(&rt, sink.write(b"c"), Ok(1));
    same(&rt, sink.write(b""), Ok(0));
    same(&rt, sink.written(), b"abc".as_slice());
    same(&rt, sink.calls(), 4);
    same(&rt, sink.faults(), 1);
}

/// An answer, and the count of faults after it.
fn is_told(rt: &impl Abort, answer: Result<usize, Failed>, size: usize, faults: u64) {
    match answer {
        Ok(count) => holds(rt, count <= size && faults == 0),
        Err(Failed) => holds(rt, faults == 1),
    }
}

#[test]
fn the_streams_of_the_process_answer_within_their_piece(rt: HostRuntime) {
    let mut source = StdSource::new(rt.stdin());
    let answer = source.read(&mut []);
    is_told(&rt, answer, 0, source.faults());
    let mut sink = StdSink::new(rt.stdout());
    let answer = sink.write(b"written by a test\n");
    is_told(&rt, answer, 18, sink.faults());
}
