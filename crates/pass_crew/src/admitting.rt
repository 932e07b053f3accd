//! Passes are let in.
ghost use Rattle.std.specs.Prelude.{◌≡◌, ◌≤◌, ◌+◌, [], length, map, OnErr, OnOk};
ghost use Rattle.std.specs.List.{AllByRecursion};
ghost use Rattle.pass_table.specs.Passes.{first_pass};
ghost use Rattle.phase_pool.specs.Workers.{hand};
ghost use Rattle.pass_crew.specs.Inside.Admitted.{Admitted};

use crate::NoMemory;
use crate::crew::Crew;
use phase_pool::{Worker, gather};
use std::alloc::Global;
use std::sync::Wait;

/// Pass 0 lets one more pass in, and then all passes meet, both ways. Where memory wants it lets none in.
fn admit_one<R: Wait, C: Crew>(
    rt: &R,
    alloc: Global,
    crew: &C,
    first: &mut C::Pass,
    workers: &mut Vec<Worker<C::Pass>>,
) -> Result<(), NoMemory>
    requires here { C.here crew.now first.old × AllByRecursion (λ w. C.here crew.now w.pass) workers.old.items }
    requires admitted { Admitted (C.opened crew.now) (C.knows first.old) (map (hand C.knows) workers.old.items) }
    ensures here { C.here crew.now first.new × AllByRecursion (λ w. C.here crew.now w.pass) workers.new.items }
    ensures admitted { Admitted (C.opened crew.now) (C.knows first.new) (map (hand C.knows) workers.new.items) }
    ensures one { OnOk result (length workers.new.items ≡ length workers.old.items + 1) }
    ensures none { OnErr result (length workers.new.items ≡ length workers.old.items) }
{
    workers.reserve(1)?;
    match crew.let_in(rt, alloc, first) {
        Ok(pass) => {
            workers.push_reserved(Worker {
                pass,
                stopped: false,
            });
            gather(crew, first, workers);
            Ok(())
        }
        Err(error) => {
            gather(crew, first, workers);
            Err(error)
        }
    }
}

/// Pass 0 lets in so many passes. Where memory wants there are fewer.
pub(crate) fn admit_all<R: Wait, C: Crew>(
    rt: &R,
    alloc: Global,
    crew: &C,
    first: &mut C::Pass,
    workers: &mut Vec<Worker<C::Pass>>,
    count: usize,
) -> Result<(), NoMemory>
    requires here { C.here crew.now first.old }
    requires none { workers.old.items ≡ [] }
    requires admitted { Admitted (C.opened crew.now) (C.knows first.old) [] }
    ensures here { C.here crew.now first.new × AllByRecursion (λ w. C.here crew.now w.pass) workers.new.items }
    ensures admitted { Admitted (C.opened crew.now) (C.knows first.new) (map (hand C.knows) workers.new.items) }
    ensures all { OnOk result (length workers.new.items ≡ count) }
    ensures few { length workers.new.items ≤ count }
{
    for _ in 0..count {
        admit_one(rt, alloc, crew, first, workers)?;
    }
    Ok(())
}
