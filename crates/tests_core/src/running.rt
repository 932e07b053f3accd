//! Runs of the program in memory.
use crate::asserting::must;
use crate::builders::Asked;
use crate::listening::Note;
use builder_api::{Builders, Silent};
use save_round::Notes;
use std::process::Abort;
use ws_outside::{Contents, MemDisk, MemSink, MemSource, Octets};
use ws_top::{Areas, Kit, Listeners, Outcome, Participant, Participants, top};

/// What comes of a run over empty areas, with these words, builders and listeners, and the participant `notes`. Nothing is
/// claimed of the builders.
pub fn run(
    rt: &(impl Abort + AllocGlobal),
    asked: &str,
    source: &mut MemSource,
    sink: &mut MemSink,
    builders: Vec<Asked>,
    listeners: Vec<Note>,
) -> Outcome<MemDisk, Note, Asked, Notes> {
    let kit = Kit {
        builders: Builders::of(builders),
        listeners: Listeners::of(listeners),
        participants: Participants::of(notes(rt)),
    };
    run_over(rt, asked, source, sink, disk(rt, b"", b""), kit)
}

/// The same over the areas of this disk, with this kit.
pub fn run_over<P: Participant>(
    rt: &(impl Abort + AllocGlobal),
    asked: &str,
    source: &mut MemSource,
    sink: &mut MemSink,
    disk: MemDisk,
    kit: Kit<Note, Asked, P>,
) -> Outcome<MemDisk, Note, Asked, P> {
    let mut words = Vec::new(rt.alloc());
    for word in asked.split(' ') {
        must(rt, words.push(must(rt, String::from_str(rt.alloc(), word))));
    }
    let areas = Areas { disk };
    top::<MemSource, MemSink, MemDisk, Note, Asked, P, Silent>(
        rt.alloc(),
        words.as_slice(),
        source,
        sink,
        areas,
        kit,
    )
}

/// A kit with these participants, and nobody else.
pub fn kit_of<P: Participant>(
    rt: &(impl Abort + AllocGlobal),
    participants: Vec<P>,
) -> Kit<Note, Asked, P> {
    Kit {
        builders: Builders::of(Vec::new(rt.alloc())),
        listeners: Listeners::of(Vec::new(rt.alloc())),
        participants: Participants::of(participants),
    }
}

/// The participant `notes` alone.
pub fn notes(rt: &(impl Abort + AllocGlobal)) -> Vec<Notes> {
    let mut all = Vec::new(rt.alloc());
    must(rt, all.push(Notes::new(rt.alloc())));
    all
}

/// A disk that holds these bytes.
pub fn disk(rt: &(impl Abort + AllocGlobal), left: &[u8], right: &[u8]) -> MemDisk {
    let first = Contents {
        left: must(rt, Octets::of(rt.alloc(), left)),
        right: must(rt, Octets::of(rt.alloc(), right)),
    };
    must(rt, MemDisk::new(rt.alloc(), first))
}

/// A source of the text.
pub fn source(rt: &(impl Abort + AllocGlobal), text: &str) -> MemSource {
    let text = must(rt, String::from_str(rt.alloc(), text));
    MemSource::new(rt.alloc(), text.into_bytes())
}
