//! What workers work at.
ghost use Rattle.std.specs.Prelude.{◌≡◌, true, MatchOption};

use std::sync::Wait;

/// What many workers take jobs from, each by calls that may wait for others. A worker makes whole jobs: it takes one, and
/// runs it before it takes the next.
pub trait Board {
    type Worker: Send;

    type Job;

    // the worker may work here
    ghost ready: { Self → Self.Worker → Type 0 };

    // by whole jobs the worker came from what it was to what it is
    ghost goes: { Self → Self.Worker → Self.Worker → Type 0 };

    // the worker took the job, and hasn't run it
    ghost took: { Self → Self.Worker → Self.Job → Self.Worker → Type 0 };

    // the worker may leave
    ghost over: { Self → Self.Worker → Type 0 };

    /// Takes a job for the worker; none where there is none to take now.
    fn take<R: Wait>(&self, rt: &R, worker: &mut Self::Worker) -> Option<Self::Job>
        requires { ready self.now worker.old }
        ensures ready { ready self.now worker.new }
        ensures took { MatchOption result (goes self.now worker.old worker.new) (λ job. took self.now worker.old job worker.new) };

    /// Runs the job that the worker took, which is then done.
    fn run<R: Wait>(&self, rt: &R, worker: &mut Self::Worker, job: Self::Job)
        requires ready { ready self.now worker.old }
        requires took { (before : Self.Worker) × took self.now before job worker.old }
        ensures ready { ready self.now worker.new }
        ensures goes { (before : Self.Worker) → took self.now before job worker.old → goes self.now before worker.new };

    /// Whether nothing is left to do, so that the worker may leave.
    fn ended<R: Wait>(&self, rt: &R, worker: &mut Self::Worker) -> bool
        requires { ready self.now worker.old }
        ensures ready { ready self.now worker.new }
        ensures goes { goes self.now worker.old worker.new }
        ensures over { result ≡ true → over self.now worker.new };

    // no job at all is a way to go
    ghost stays: { (b : Self) (w : Self.Worker) → goes b w w };

    // whole jobs after whole jobs are whole jobs
    ghost goes_on: { (b : Self) (u v w : Self.Worker) → goes b u v → goes b v w → goes b u w };
}
