//! Workers that take numbers from a board.
use crate::asserting::{holds, must, same};
use job_pool::{Board, run_phase};
use std::alloc::Global;
use std::process::Abort;
use std::sync::{Mutex, Wait};

/// The numbers up to 1000, each of which is handed out once.
#[derive(Drop)]
struct Numbers {
    last: Mutex<u64>,
}

/// How many numbers a worker ran, and their sum.
#[derive(Drop)]
struct Tally {
    place: u64,
    count: u64,
    sum: u64,
}

impl Board for Numbers {
    ghost use Rattle.std.specs.Prelude.{◌≡◌, true};
    ghost use Rattle.std.proofs.Common.{refl, ◌∙◌};

    type Worker = Tally;

    type Job = u64;

    ghost ready = { λ b w. true ≡ true };

    ghost goes = { λ b v w. w.place ≡ v.place };

    ghost took = { λ b v job w. w.place ≡ v.place };

    ghost over = { λ b w. true ≡ true };

    fn take<R: Wait>(&self, rt: &R, worker: &mut Tally) -> Option<u64> {
        worker.count = worker.count.saturating_add(1);
        let mut last = self.last.lock(rt);
        if *last >= 1000 {
            return None;
        }
        *last += 1;
        Some(*last)
    }

    fn run<R: Wait>(&self, rt: &R, worker: &mut Tally, job: u64) {
        let _ = rt;
        worker.sum = worker.sum.saturating_add(job);
    }

    fn ended<R: Wait>(&self, rt: &R, worker: &mut Tally) -> bool {
        worker.count = worker.count.saturating_sub(1);
        *self.last.lock(rt) >= 1000
    }

    ghost stays = { λ b w. refl };

    ghost goes_on = { λ b u v w before after. after ∙ before };
}

/// So many workers, each with its place.
fn workers(rt: &impl Abort, alloc: Global, count: u64) -> Vec<Tally> {
    let mut all = Vec::new(alloc);
    for place in 0..count {
        must(
            rt,
            all.push(Tally {
                place,
                count: 0,
                sum: 0,
            }),
        );
    }
    all
}

/// The places in order, how many numbers were run, and their sum.
fn told(rt: &impl Abort, all: &[Tally]) -> (u64, u64) {
    let mut place = 0;
    let mut count: u64 = 0;
    let mut sum: u64 = 0;
    for tally in all {
        holds(rt, tally.place == place);
        place = place.saturating_add(1);
        count = count.saturating_add(tally.count);
        sum = sum.saturating_add(tally.sum);
    }
    (count, sum)
}

#[test]
fn each_number_is_run_once_by_workers_that_keep_their_places(rt: HostRuntime) {
    let alloc = rt.alloc();
    for count in [0, 1, 4] {
        let board = Numbers {
            last: Mutex::new(0),
        };
        let done = run_phase(&rt, &board, workers(&rt, alloc, count));
        same(&rt, done.len() as u64, count);
        let all = if count == 0 { (0, 0) } else { (1000, 500_500) };
        same(&rt, told(&rt, done.as_slice()), all);
    }
}
