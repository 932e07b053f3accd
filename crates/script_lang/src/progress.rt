//! How far a script is read.
ghost use Rattle.std.specs.Prelude.{◌≡◌, IfOk, IsTrue, ◌↔◌, [], ◌∷◌, ◌++◌, if◌then◌else◌, Some, None};
ghost use Rattle.std.specs.Option.{option_map};
ghost use Rattle.script_lang.specs.declared.progress.Place.TheVariants.{Outside, WithinPhase, WithinJob};
ghost use Rattle.script_lang.specs.Inside.Reading.{goes, job_begun, with_job};
ghost use Rattle.script_lang.specs.declared.line.Line.TheVariants.{InJob};

use crate::NoMemory;
use crate::line::Line;
use crate::open_phase::OpenPhase;
use crate::script::{Command, Commands, Job, Phase, Phases};
use std::alloc::Global;
use std::mem;

/// What may follow the lines read.
#[derive(Drop)]
pub enum Place {
    /// A phase, or the end.
    Outside,
    /// A job, or the end of the phase of these jobs.
    WithinPhase(OpenPhase),
    /// A command of this job, or its end; the others are the jobs before it in its phase.
    WithinJob(OpenPhase, Job),
}

/// How far a script is read.
#[derive(Drop)]
pub struct Progress {
    /// The phases read to their ends.
    pub phases: Phases,
    /// What may follow.
    pub place: Place,
}

impl Progress {
    /// Nothing is read. It takes no memory.
    pub fn new(alloc: Global) -> Progress
        ensures phases { result.phases ≡ [] }
        ensures place { result.place ≡ Outside }
    {
        Progress {
            phases: Phases::new(alloc),
            place: Place::Outside,
        }
    }

    /// Whether no phase is open.
    pub fn is_outside(&self) -> bool
        ensures { IsTrue result ↔ (self.now.place ≡ Outside) }
    {
        match &self.place {
            Place::Outside => true,
            _ => false,
        }
    }

    /// Goes on by one more line. Whether the line may stand here; nothing is said of what was read where it may not.
    pub fn advance(&mut self, alloc: Global, line: Line) -> Result<bool, NoMemory>
        ensures { IfOk result (λ goes_on. goes self.old line ≡ (if goes_on then Some self.new else None)) }
    {
        match line {
            Line::InJob(command) => self.put_command(command),
            bound => self.pass_bound(alloc, bound),
        }
    }

    /// Goes on by a command of a job.
    fn put_command(&mut self, command: Command) -> Result<bool, NoMemory>
        ensures { IfOk result (λ goes_on. goes self.old (InJob command) ≡ (if goes_on then Some self.new else None)) }
    {
        match &mut self.place {
            Place::WithinJob(_, job) => {
                job.commands.push(command)?;
                Ok(true)
            }
            _ => {
                drop(command);
                Ok(false)
            }
        }
    }

    /// Goes on by the first or last line of a phase or a job.
    fn pass_bound(&mut self, alloc: Global, line: Line) -> Result<bool, NoMemory>
        ensures { IfOk result (λ goes_on. goes self.old line ≡ (if goes_on then Some self.new else None)) }
    {
        let so_far = mem::replace(self, Progress::new(alloc));
        match so_far.advanced(alloc, line)? {
            None => Ok(false),
            Some(next) => {
                *self = next;
                Ok(true)
            }
        }
    }

    /// After one more line, if the line may stand here.
    fn advanced(self, alloc: Global, line: Line) -> Result<Option<Progress>, NoMemory>
        ensures { IfOk result (λ next. next ≡ goes self line) }
    {
        let Progress { phases, place } = self;
        match place {
            Place::Outside => {
                let next = after_phases(alloc, phases, &line);
                drop(line);
                Ok(next)
            }
            Place::WithinPhase(jobs) => after_jobs(alloc, phases, jobs, line),
            Place::WithinJob(jobs, job) => after_command(phases, jobs, job, line),
        }
    }
}

fn after_phases(alloc: Global, phases: Phases, line: &Line) -> Option<Progress>
    ensures { result ≡ goes (record { phases = phases; place = Outside }) line.now }
{
    match line {
        Line::BeginPhase => Some(Progress {
            phases,
            place: Place::WithinPhase(OpenPhase::new(alloc)),
        }),
        _ => None,
    }
}

fn after_jobs(
    alloc: Global,
    phases: Phases,
    jobs: OpenPhase,
    line: Line,
) -> Result<Option<Progress>, NoMemory>
    ensures { IfOk result (λ next. next ≡ goes (record { phases = phases; place = WithinPhase jobs }) line) }
{
    match line {
        Line::BeginJob(name, priority, asleep, rule) => {
            let job = Job {
                name,
                priority,
                asleep,
                rule,
                commands: Commands::new(alloc),
            };
            Ok(begin_job(phases, jobs, job))
        }
        Line::EndPhase => {
            drop(line);
            end_phase(phases, jobs)
        }
        other => {
            drop(other);
            Ok(None)
        }
    }
}

/// The job begins, unless one of the jobs before it has its name.
fn begin_job(phases: Phases, jobs: OpenPhase, job: Job) -> Option<Progress>
    ensures { result ≡ option_map (λ place. record { phases = phases; place = place }) (job_begun jobs job) }
{
    if jobs.has(&job.name) {
        return None;
    }
    Some(Progress {
        phases,
        place: Place::WithinJob(jobs, job),
    })
}

/// The phase of these jobs ends.
fn end_phase(phases: Phases, jobs: OpenPhase) -> Result<Option<Progress>, NoMemory>
    ensures { IfOk result (λ next. next ≡ Some (record { phases = phases ++ (record { jobs = jobs }) ∷ []; place = Outside })) }
{
    let mut phases = phases;
    let jobs = jobs.close();
    phases.push(Phase { jobs })?;
    Ok(Some(Progress {
        phases,
        place: Place::Outside,
    }))
}

fn after_command(
    phases: Phases,
    jobs: OpenPhase,
    job: Job,
    line: Line,
) -> Result<Option<Progress>, NoMemory>
    ensures { IfOk result (λ next. next ≡ goes (record { phases = phases; place = WithinJob jobs job }) line) }
{
    let mut job = job;
    match line {
        Line::InJob(command) => {
            job.commands.push(command)?;
            Ok(Some(Progress {
                phases,
                place: Place::WithinJob(jobs, job),
            }))
        }
        Line::EndJob => {
            drop(line);
            end_job(phases, jobs, job)
        }
        other => {
            drop(other);
            Ok(None)
        }
    }
}

/// The job ends, unless one of the jobs before it has its name; none has where `begin_job` let it begin.
fn end_job(phases: Phases, jobs: OpenPhase, job: Job) -> Result<Option<Progress>, NoMemory>
    ensures { IfOk result (λ next. next ≡ option_map (λ more. record { phases = phases; place = WithinPhase more }) (with_job jobs job)) }
{
    match jobs.with(job)? {
        None => Ok(None),
        Some(jobs) => Ok(Some(Progress {
            phases,
            place: Place::WithinPhase(jobs),
        })),
    }
}
