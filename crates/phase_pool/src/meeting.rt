//! How all passes meet.
ghost use Rattle.std.specs.Prelude.{◌≡◌, map};
ghost use Rattle.std.specs.List.{AllByRecursion};
ghost use Rattle.job_pool.specs.Workers.{Pairs};
ghost use Rattle.run_order.specs.Lists.{Begins};
ghost use Rattle.phase_pool.specs.Passes.{Meets};
ghost use Rattle.phase_pool.specs.Workers.{hand};
ghost use Rattle.phase_pool.specs.Inside.Meeting.{Collects, Gathers, HasSeen};

use crate::host::Host;
use crate::worker::Worker;

/// Pass 0 has then seen what each of the two had; the worker stays as it is.
fn collect<H: Host>(host: &H, first: &mut H::Pass, worker: &mut Worker<H::Pass>)
    requires { H.here host.now first.old × H.here host.now worker.old.pass }
    ensures here { H.here host.now first.new × H.here host.now worker.new.pass }
    ensures meets { Meets (H.knows first.old) (H.knows worker.old.pass) (H.knows first.new) }
    ensures worker { hand H.knows worker.new ≡ hand H.knows worker.old }
{
    host.meet(first, &mut worker.pass);
}

/// Pass 0 has then seen what each of all passes had; the workers stay as they are.
fn collect_all<H: Host>(host: &H, first: &mut H::Pass, workers: &mut Vec<Worker<H::Pass>>)
    requires here { H.here host.now first.old }
    requires workers { AllByRecursion (λ w. H.here host.now w.pass) workers.old.items }
    ensures here { H.here host.now first.new }
    ensures first { Collects (H.knows first.old) (map (hand H.knows) workers.old.items) (H.knows first.new) }
    ensures workers { Pairs (λ v w. H.here host.now w.pass × (hand H.knows w ≡ hand H.knows v)) workers.old.items workers.new.items }
{
    for at in 0..workers.len() {
        collect(host, first, &mut workers[at]);
    }
}

/// The worker's pass has then seen what pass 0 has, which stays as it is.
fn tell<H: Host>(host: &H, first: &mut H::Pass, worker: &mut Worker<H::Pass>)
    requires here { H.here host.now first.old × H.here host.now worker.old.pass }
    requires begins { Begins (H.knows worker.old.pass).seen (H.knows first.old).seen }
    ensures here { H.here host.now first.new × H.here host.now worker.new.pass }
    ensures first { H.knows first.new ≡ H.knows first.old }
    ensures worker { HasSeen (H.knows first.old).seen (hand H.knows worker.old) (hand H.knows worker.new) }
{
    host.meet(&mut worker.pass, first);
}

/// Each worker's pass has then seen what pass 0 has, which stays as it is.
fn tell_all<H: Host>(host: &H, first: &mut H::Pass, workers: &mut Vec<Worker<H::Pass>>)
    requires here { H.here host.now first.old }
    requires workers { AllByRecursion (λ w. H.here host.now w.pass) workers.old.items }
    requires begin { AllByRecursion (λ v. Begins v.known.seen (H.knows first.old).seen) (map (hand H.knows) workers.old.items) }
    ensures here { H.here host.now first.new }
    ensures first { H.knows first.new ≡ H.knows first.old }
    ensures workers { Pairs (λ v w. H.here host.now w.pass × HasSeen (H.knows first.old).seen (hand H.knows v) (hand H.knows w)) workers.old.items workers.new.items }
{
    for at in 0..workers.len() {
        tell(host, first, &mut workers[at]);
    }
}

/// Pass 0 and each worker's pass meet, both ways.
pub fn gather<H: Host>(host: &H, first: &mut H::Pass, workers: &mut Vec<Worker<H::Pass>>)
    requires here { H.here host.now first.old }
    requires workers { AllByRecursion (λ w. H.here host.now w.pass) workers.old.items }
    ensures here { H.here host.now first.new }
    ensures workers { AllByRecursion (λ w. H.here host.now w.pass) workers.new.items }
    ensures gathers { Gathers (H.knows first.old) (H.knows first.new) (map (hand H.knows) workers.old.items) (map (hand H.knows) workers.new.items) }
{
    collect_all(host, first, workers);
    tell_all(host, first, workers);
}
