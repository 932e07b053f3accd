//! 10,000 jobs, and as many that sleep: which comes next is told by arithmetic.
use crate::asserting::{holds, must};
use crate::many::{COUNT, numbered};
use job_queue::JobQueue;
use res_path::Name;
use rule_table::RuleTable;
use sched_rules::{Rule, WsAtom};
use std::process::Abort;

/// The job of the number has one of 100 priorities, which rise with the number.
fn priority(number: u32) -> u8 {
    (number / 100 % 100) as u8
}

/// Schedules the jobs of the numbers from `from` on, not in their order.
fn schedule(
    rt: &(impl Abort + AllocGlobal),
    queue: &mut JobQueue<WsAtom>,
    from: u32,
    asleep: bool,
) {
    for step in 0..COUNT {
        let number = step * 7919 % COUNT;
        let name = numbered(rt, from.saturating_add(number));
        let rule = Rule::null(rt.alloc());
        must(rt, queue.schedule(name, priority(number), rule, asleep));
    }
}

/// Runs all jobs that wait. Their priorities rise, and there are as many of each.
fn run_all(rt: &(impl Abort + AllocGlobal), queue: &mut JobQueue<WsAtom>) {
    let held = RuleTable::empty(rt.alloc());
    for place in 0..COUNT {
        let name = match queue.next(&held) {
            Some(name) => must(rt, name.copy()),
            None => numbered(rt, COUNT),
        };
        holds(rt, is_placed(queue, &name, place));
        must(rt, queue.start(&name));
        must(rt, queue.finish(&name));
    }
    holds(rt, queue.next(&held).is_none());
}

/// Whether the job's priority is that of this place.
fn is_placed(queue: &JobQueue<WsAtom>, name: &Name, place: u32) -> bool {
    match queue.get(name) {
        Some(job) => job.turn.priority == priority(place),
        None => false,
    }
}

#[test]
fn many_jobs_come_by_their_priorities(rt: HostRuntime) {
    let mut queue = JobQueue::empty(rt.alloc());
    schedule(&rt, &mut queue, COUNT, true);
    schedule(&rt, &mut queue, 0, false);
    run_all(&rt, &mut queue);
    holds(
        &rt,
        queue.live() == 0 && queue.finished() == u64::from(COUNT),
    );
}
