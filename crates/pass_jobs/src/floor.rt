//! A room as the place where phases are run.

use crate::NoMemory;
use crate::commands::do_job;
use crate::room::{JobRoom, PassBuilds};
use crate::scheduling::{cancel_all, names_of, schedule_all};
use phase_pool::Host;
use res_path::Name;
use script_lang::Command;
use script_plan::PhaseBook;
use std::alloc::Global;
use std::sync::Wait;
use std::sync::atomic::AtomicBool;

/// A room in which workers run the phases of scripts. Contracts of a run over it see of a pass its number and what it has seen;
/// what it tells of its own entries is that it knows them all, and what is known of its builds is as its room has it.
#[derive(Drop)]
pub struct Floor<R: JobRoom> {
    pub room: R,
}

impl<R: JobRoom> Host for Floor<R> {
    ghost use Rattle.std.specs.Prelude.{◌≡◌};
    ghost use Rattle.std.proofs.Common.{sym};
    ghost use Rattle.script_plan.specs.Plans.{Made, jobs_plan};
    ghost use Rattle.pass_jobs.specs.Inside.Floors.{IsHere, known};
    ghost use Rattle.pass_jobs.specs.Inside.Laws.{made_enters};

    type Pass = R::Pass;

    type Phase = PhaseBook;

    type Job = Name;

    type Command = Command;

    ghost opened = { λ f. R.opened f.room };

    ghost knows = { λ p. known (R.knows p) };

    ghost here = { λ f p. R.is_of f.room p × IsHere (R.opened f.room) (R.Builds.good (R.opened f.room)) (R.knows p) };

    ghost plan = { λ book. jobs_plan book };

    ghost name = { λ n. n };

    ghost makes = { λ f. Made (R.Builds.makes (R.opened f.room)) };

    ghost good = { λ f. R.Builds.good (R.opened f.room) };

    ghost tells = { λ f p h. (R.knows p).mine ≡ h };

    ghost here_legal = { λ f p h. h.1.legal };

    ghost here_good = { λ f p h. h.1.good };

    ghost here_tells = { λ f p h. sym h.1.faithful.own };

    ghost lets_none_in = { λ f k c h m. made_enters (R.Builds.makes (R.opened f.room)) (R.Builds.lets_none_in (R.opened f.room)) k c h m };

    fn take<W: Wait>(
        &self,
        rt: &W,
        alloc: Global,
        pass: &mut R::Pass,
    ) -> Result<Option<Name>, NoMemory> {
        self.room.take_job(rt, alloc, pass)
    }

    fn perform<W: Wait>(
        &self,
        rt: &W,
        alloc: Global,
        pass: &mut R::Pass,
        phase: &PhaseBook,
        job: Name,
        stop: &AtomicBool,
    ) -> Result<(), NoMemory> {
        let commands = phase.commands(&job);
        do_job(rt, &self.room, alloc, pass, &job, commands, stop)
    }

    fn live_jobs<W: Wait>(&self, rt: &W, alloc: Global, pass: &mut R::Pass) -> u64 {
        self.room.live_jobs(rt, alloc, pass)
    }

    fn schedule<W: Wait>(
        &self,
        rt: &W,
        alloc: Global,
        pass: &mut R::Pass,
        phase: &PhaseBook,
    ) -> Result<(), NoMemory> {
        schedule_all(rt, &self.room, alloc, pass, phase.jobs())
    }

    fn cancel<W: Wait>(
        &self,
        rt: &W,
        alloc: Global,
        pass: &mut R::Pass,
        phase: &PhaseBook,
    ) -> Result<(), NoMemory> {
        match names_of(alloc, phase.jobs()) {
            Ok(names) => {
                let asleep = self.room.asleep(rt, alloc, pass, names);
                cancel_all(rt, &self.room, alloc, pass, asleep.as_slice())
            }
            Err(error) => Err(error),
        }
    }

    fn meet(&self, pass: &mut R::Pass, other: &mut R::Pass) {
        self.room.meet(pass, other);
    }
}
