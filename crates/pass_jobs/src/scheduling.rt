//! Pass 0 schedules the jobs of a phase, and cancels those that sleep.
ghost use Rattle.std.specs.Prelude.{◌≡◌, ◌∷◌, [], map, IfOk};
ghost use Rattle.run_order.specs.Lists.{acts};
ghost use Rattle.run_order.specs.Orders.{scheduled};
ghost use Rattle.script_plan.specs.Plans.{job_plan, jobs_plan};
ghost use Rattle.pass_jobs.specs.Inside.Floors.{Does, IsHere, cancelling, known};

use crate::NoMemory;
use crate::commands::do_event;
use crate::room::{JobRoom, PassBuilds};
use core_event::Event;
use res_path::Name;
use script_lang::Job;
use script_plan::schedule_of;
use std::alloc::Global;
use std::sync::Wait;
use std::sync::atomic::AtomicBool;

/// Pass 0 schedules the job.
fn schedule_one<W: Wait, R: JobRoom>(
    rt: &W,
    room: &R,
    alloc: Global,
    pass: &mut R::Pass,
    job: &Job,
    never: &AtomicBool,
) -> Result<(), NoMemory>
    requires here { R.is_of room.now pass.old × IsHere (R.opened room.now) (R.Builds.good (R.opened room.now)) (R.knows pass.old) }
    requires zeroth { (R.knows pass.old).number ≡ 0 }
    ensures here { R.is_of room.now pass.new × IsHere (R.opened room.now) (R.Builds.good (R.opened room.now)) (R.knows pass.new) }
    ensures done { Does result (λ h. acts h ≡ scheduled (job_plan job.now) ∷ []) (known (R.knows pass.old)) (known (R.knows pass.new)) }
{
    match schedule_of(job) {
        Ok(event) => do_event(rt, room, alloc, pass, event, never),
        Err(error) => Err(error),
    }
}

/// Pass 0 schedules the jobs, in order.
pub(crate) fn schedule_all<W: Wait, R: JobRoom>(
    rt: &W,
    room: &R,
    alloc: Global,
    pass: &mut R::Pass,
    jobs: &[Job],
) -> Result<(), NoMemory>
    requires here { R.is_of room.now pass.old × IsHere (R.opened room.now) (R.Builds.good (R.opened room.now)) (R.knows pass.old) }
    requires zeroth { (R.knows pass.old).number ≡ 0 }
    ensures here { R.is_of room.now pass.new × IsHere (R.opened room.now) (R.Builds.good (R.opened room.now)) (R.knows pass.new) }
    ensures done { Does result (λ h. acts h ≡ map scheduled (jobs_plan jobs.now)) (known (R.knows pass.old)) (known (R.knows pass.new)) }
{
    let never = AtomicBool::new(false);
    for job in jobs {
        match schedule_one(rt, room, alloc, pass, job, &never) {
            Ok(()) => {}
            Err(error) => return Err(error),
        }
    }
    Ok(())
}

/// The names of the jobs, in order.
pub(crate) fn names_of(alloc: Global, jobs: &[Job]) -> Result<Vec<Name>, NoMemory>
    ensures { IfOk result (λ names. names.items ≡ map (λ job. job.name) jobs.now) }
{
    let mut names = Vec::with_capacity(alloc, jobs.len())?;
    for job in jobs {
        names.push(job.name.copy()?)?;
    }
    Ok(names)
}

/// Pass 0 cancels the job of this name.
fn cancel_one<W: Wait, R: JobRoom>(
    rt: &W,
    room: &R,
    alloc: Global,
    pass: &mut R::Pass,
    name: &Name,
    never: &AtomicBool,
) -> Result<(), NoMemory>
    requires here { R.is_of room.now pass.old × IsHere (R.opened room.now) (R.Builds.good (R.opened room.now)) (R.knows pass.old) }
    requires zeroth { (R.knows pass.old).number ≡ 0 }
    ensures here { R.is_of room.now pass.new × IsHere (R.opened room.now) (R.Builds.good (R.opened room.now)) (R.knows pass.new) }
    ensures done { Does result (λ h. acts h ≡ cancelling name.now ∷ []) (known (R.knows pass.old)) (known (R.knows pass.new)) }
{
    match name.copy() {
        Ok(name) => do_event(rt, room, alloc, pass, Event::Cancel(name), never),
        Err(error) => Err(error),
    }
}

/// Pass 0 cancels the jobs of these names, in order.
pub(crate) fn cancel_all<W: Wait, R: JobRoom>(
    rt: &W,
    room: &R,
    alloc: Global,
    pass: &mut R::Pass,
    names: &[Name],
) -> Result<(), NoMemory>
    requires here { R.is_of room.now pass.old × IsHere (R.opened room.now) (R.Builds.good (R.opened room.now)) (R.knows pass.old) }
    requires zeroth { (R.knows pass.old).number ≡ 0 }
    ensures here { R.is_of room.now pass.new × IsHere (R.opened room.now) (R.Builds.good (R.opened room.now)) (R.knows pass.new) }
    ensures done { Does result (λ h. acts h ≡ map cancelling names.now) (known (R.knows pass.old)) (known (R.knows pass.new)) }
{
    let never = AtomicBool::new(false);
    for name in names {
        match cancel_one(rt, room, alloc, pass, name, &never) {
            Ok(()) => {}
            Err(error) => return Err(error),
        }
    }
    Ok(())
}
