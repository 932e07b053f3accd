//! Builders in order, called by name.
ghost use Rattle.std.specs.Prelude.{None};

use crate::asserting::{holds, must};
use crate::views::{command_of, handed_of};
use builder_api::{BuildFault, Builder, Builders, Edits, FileEdits, Handed, Problems, View};
use proj_desc::Command;
use res_path::{Name, NoMemory};
use std::alloc::{AllocError, Global};
use std::collections::BTreeMap;
use std::process::Abort;

/// A builder that counts its calls. It may fail, which it counts too.
#[derive(Drop)]
struct Counter {
    alloc: Global,
    name: Name,
    fails: bool,
    built: u64,
    cleaned: u64,
    faults: u64,
}

impl Builder for Counter {
    ghost tells = { λ c. record { named = c.name; means = None; calls = None; faults = c.faults } };

    fn name(&self) -> &str {
        self.name.text()
    }

    fn build(&mut self, _command: &Command, _handed: &Handed) -> Result<Edits, BuildFault> {
        self.built = self.built.saturating_add(1);
        if self.fails {
            self.faults = self.faults.saturating_add(1);
            return Err(BuildFault::Failed);
        }
        Ok(Edits {
            files: FileEdits::empty(self.alloc),
            problems: Problems::empty(self.alloc),
        })
    }

    fn clean(&mut self) {
        self.cleaned = self.cleaned.saturating_add(1);
    }
}

fn one(alloc: Global, name: &str, fails: bool) -> Result<Counter, NoMemory> {
    let Ok(name) = Name::parse(alloc, name) else {
        return Err(AllocError);
    };
    Ok(Counter {
        alloc,
        name,
        fails,
        built: 0,
        cleaned: 0,
        faults: 0,
    })
}

/// One `a`, one `b` that fails, and one more `a`.
fn three(alloc: Global) -> Result<Builders<Counter>, NoMemory> {
    let mut all = Vec::new(alloc);
    all.push(one(alloc, "a", false)?)?;
    all.push(one(alloc, "b", true)?)?;
    all.push(one(alloc, "a", false)?)?;
    Ok(Builders::of(all))
}

/// How a build by the builder of this name ends.
fn told<B: Builder>(
    alloc: Global,
    builders: &mut Builders<B>,
    name: &str,
) -> Result<&'static str, NoMemory> {
    let command = command_of(alloc, name)?;
    let handed = handed_of(alloc, "/P/src", BTreeMap::new(alloc))?;
    Ok(match builders.build_first(&command, &handed) {
        None => "none",
        Some(Ok(_)) => "built",
        Some(Err(BuildFault::Failed)) => "failed",
        Some(Err(BuildFault::Memory)) => "memory",
    })
}

fn build(rt: &(impl Abort + AllocGlobal), builders: &mut Builders<Counter>) {
    holds(rt, must(rt, told(rt.alloc(), builders, "a")) == "built");
    holds(rt, must(rt, told(rt.alloc(), builders, "b")) == "failed");
    holds(rt, must(rt, told(rt.alloc(), builders, "c")) == "none");
    holds(rt, builders.clean_first("a"));
    holds(rt, !builders.clean_first("c"));
    holds(rt, builders.place_of("b") == Some(1));
}

/// The first two were called, and the third was not.
fn were_called(rt: &impl Abort, builders: &[Counter]) {
    let [first, second, third] = builders else {
        panic!(rt; "not three");
    };
    holds(
        rt,
        first.built == 1 && first.cleaned == 1 && first.faults == 0,
    );
    holds(
        rt,
        second.built == 1 && second.cleaned == 0 && second.faults == 1,
    );
    holds(rt, third.built == 0 && third.cleaned == 0);
}

#[test]
fn the_first_builder_of_a_name_is_called(rt: HostRuntime) {
    let mut builders = must(&rt, three(rt.alloc()));
    build(&rt, &mut builders);
    were_called(&rt, builders.as_slice());
}

fn has_found(alloc: Global) -> Result<bool, NoMemory> {
    let handed = handed_of(
        alloc,
        "/P/src",
        crate::views::files_of(alloc, "/P/src/a=1 /P/src/b=2")?,
    )?;
    let copy = handed.copy()?;
    let none = View::empty(alloc);
    let at = crate::views::path(alloc, "/P/src/b")?;
    Ok(copy.view.find(&at).is_some() && none.find(&at).is_none())
}

#[test]
fn a_view_finds_its_files(rt: HostRuntime) {
    holds(&rt, must(&rt, has_found(rt.alloc())));
}
