//! The workers.
ghost use Rattle.std.specs.Prelude.{◌≡◌, ◌<◌, ℕ, All, length, slice_index_or};
ghost use Rattle.job_pool.specs.Workers.{Pairs, Worked};

use crate::board::Board;
use std::sync::Wait;
use std::thread;
use std::thread::Threads;

/// One worker's work: it takes jobs and runs each, until there is none and the board says that it may leave.
fn work<R: Wait, B: Board>(rt: &R, board: &B, worker: &mut B::Worker)
    requires { B.ready board.now worker.old }
    ensures ready { B.ready board.now worker.new }
    ensures goes { B.goes board.now worker.old worker.new }
    ensures over { B.over board.now worker.new }
{
    for _ in rt.forever() {
        match board.take(rt, worker) {
            Some(job) => board.run(rt, worker, job),
            None => {
                if board.ended(rt, worker) {
                    break;
                }
                thread::yield_now();
            }
        }
    }
}

/// The work of all workers, in as many threads as there are workers.
fn work_all<R: Threads + Wait + Sync, B: Board + Sync>(rt: &R, board: &B, workers: &mut [B::Worker])
    requires { All (λ w. B.ready board.now w) workers.old }
    ensures len { length workers.new ≡ length workers.old }
    ensures each { (i : ℕ) (d : B.Worker) → i < length workers.old → Worked B.ready B.goes B.over board.now (slice_index_or workers.old i d) (slice_index_or workers.new i d) }
{
    let threads = workers.len().max(1);
    thread::for_each_mut(
        rt,
        workers,
        threads,
        &|_, worker|
            requires { B.ready board.now worker.now }
        { work(rt, board, worker) },
    );
}

/// Lets all workers work until each may leave, and gives them back, each in its place. The caller's thread does the work of
/// one, and a thread of its own that of each other; with one worker none is started. Where a thread can't be started the
/// thread that wanted it does that work too, one worker's after another's, and a worker that waits for what another is to do
/// may then wait for ever. Nothing is said of how long it takes.
pub fn run_phase<R: Threads + Wait + Sync, B: Board + Sync>(
    rt: &R,
    board: &B,
    mut workers: Vec<B::Worker>,
) -> Vec<B::Worker>
    requires { All (λ w. B.ready board.now w) workers.items }
    ensures { Pairs (Worked B.ready B.goes B.over board.now) workers.items result.items }
{
    work_all(rt, board, workers.as_mut_slice());
    workers
}
