//! Builders of a caller's own: those that give no edits once, and one whose edits are refused.
ghost use Rattle.std.specs.Prelude.{None};

use crate::asserting::{let_go, must, reads, same};
use crate::rows::lines_with;
use crate::running::{run, source};
use builder_api::{BuildFault, Builder, Edits, FileEdits, Handed, Problems};
use bytes::Bytes;
use proj_desc::Command;
use res_path::{Name, NoMemory, Path};
use std::alloc::{AllocError, Global};
use std::process::Abort;
use ws_outside::MemSink;

/// A builder that puts a file, and one below it where it nests them, but at its third call, at which it answers the fault.
#[derive(Drop)]
pub struct Asked {
    alloc: Global,
    name: Name,
    nests: bool,
    fault: BuildFault,
    calls: u64,
    faults: u64,
}

impl Builder for Asked {
    ghost tells = { λ b. record { named = b.name; means = None; calls = None; faults = b.faults } };

    fn name(&self) -> &str {
        self.name.text()
    }

    fn build(&mut self, _command: &Command, _handed: &Handed) -> Result<Edits, BuildFault> {
        self.calls = self.calls.saturating_add(1);
        if self.calls == 3 {
            self.faults = self.faults.saturating_add(1);
            return Err(self.fault);
        }
        Ok(edits(self.alloc, if self.nests { "/a /a/b" } else { "/a" })?)
    }

    fn clean(&mut self) {}
}

/// The files of these paths.
fn edits(alloc: Global, paths: &str) -> Result<Edits, NoMemory> {
    let mut files = Vec::new(alloc);
    for text in paths.split(' ') {
        let Ok(path) = Path::parse(alloc, text) else {
            return Err(AllocError);
        };
        files.push((path, Some(Bytes::copy_from_slice(alloc, b"x")?)))?;
    }
    Ok(Edits {
        files: FileEdits::of(files),
        problems: Problems::empty(alloc),
    })
}

/// Their names, whether they nest their files, and how they fail.
const BUILDERS: [(&str, bool, BuildFault); 3] = [
    ("failing", false, BuildFault::Failed),
    ("wanting", false, BuildFault::Memory),
    ("nested", true, BuildFault::Failed),
];

/// One builder of each of these names.
pub fn builders(rt: &(impl Abort + AllocGlobal)) -> Vec<Asked> {
    let mut builders = Vec::new(rt.alloc());
    for (name, nests, fault) in BUILDERS {
        let builder = Asked {
            alloc: rt.alloc(),
            name: must(rt, Name::parse(rt.alloc(), name)),
            nests,
            fault,
            calls: 0,
            faults: 0,
        };
        must(rt, builders.push(builder));
    }
    builders
}

/// `@` stands for a builder's name.
const SCRIPT: &str = "phase
job j 30 path /
create project /P
create folder /P/src
create file /P/src/a 1
create folder /P/out
create file /P/out/k kept
describe /P \"{\\\"commands\\\":[{\\\"builder\\\":\\\"@\\\",\\\"inputs\\\":[\\\"src\\\"],\\\"output\\\":\\\"out\\\"}]}\"
build incr
write /P/src/a 2
build incr
write /P/src/a 3
build incr
build incr
describe /P \"{\\\"commands\\\":[{\\\"builder\\\":\\\"nested\\\",\\\"inputs\\\":[\\\"src\\\"],\\\"output\\\":\\\"out\\\"}]}\"
build incr
cat /P/out/a
cat /P/out/k
endjob
endphase
";

/// The first builds, with what is handed. The third call gives no edits, for which `@` stands.
const BUILDS: &str = "p1 handed /P 0 10 -> none
p1 commit /P 0 -> touched 1 problems 0
p1 checkin settled -> ok
p1 handed /P 0 10 -> delta
  /P *
  /P/src *
  /P/src/a * CONTENT
p1 commit /P 0 -> touched 0 problems 0
p1 checkin settled -> ok
p1 handed /P 0 10 -> delta
  /P *
  /P/src *
  /P/src/a * CONTENT
p1 checkin @ -> ok
";

/// Those after it. The fourth call is handed what the third one was. What the other builder answers puts a file above another,
/// and nothing of it is done.
const LATER: &str = "p1 handed /P 0 10 -> delta
  /P *
  /P/src *
  /P/src/a * CONTENT
p1 commit /P 0 -> touched 0 problems 0
p1 checkin settled -> ok
p1 handed /P 0 10 -> none
p1 commit /P 0 -> refused 34 /a
p1 checkin refused 34 -> ok
p1 cat /P/out/a -> x
p1 cat /P/out/k -> kept
";

/// What the program writes of the script, whose run ends so.
fn written(rt: &(impl Abort + AllocGlobal), script: &str, status: u8) -> Vec<u8> {
    let mut source = source(rt, script);
    let mut sink = MemSink::new(rt.alloc());
    let listeners = Vec::new(rt.alloc());
    let builders = builders(rt);
    let outcome = run(rt, "run a b", &mut source, &mut sink, builders, listeners);
    same(rt, "status", outcome.status, status);
    let_go(outcome);
    let mut out = Vec::new(rt.alloc());
    must(rt, out.extend_from_slice(sink.written()));
    out
}

/// Where the builder answers that memory wants, the run stops behind its build.
#[test]
fn builders_that_give_no_edits_and_one_that_is_refused(rt: HostRuntime) {
    for (name, outcome, later, status) in [
        ("failing", "failed /P 0", LATER, 0),
        ("wanting", "no-memory", "", 8),
    ] {
        let script = must(&rt, SCRIPT.replace(rt.alloc(), "@", name));
        let text = written(&rt, script.as_str(), status);
        let found = lines_with(&rt, text.as_slice(), "handed commit checkin cat");
        let mut wanted = must(&rt, BUILDS.replace(rt.alloc(), "@", outcome));
        must(&rt, wanted.push_str(later));
        reads(&rt, name, found.as_str().as_bytes(), wanted.as_str());
    }
}
