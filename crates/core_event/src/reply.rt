//! What an event is answered.
ghost use Rattle.std.specs.Prelude.{◌≡◌, ◌&&◌, IfOk};
ghost use Rattle.core_event.specs.Replies.{refusal_number, answered, is_attempt, is_conflict};
ghost use Rattle.core_event.specs.Events.{waits};

use crate::{Apart, Event, NoMemory, Notice, WsRule};
use builder_api::{Handed, Plan};
use job_queue::JobState;
use op_kind::{Entries, OpAnswer, OpRefusal, Partners};
use res_path::{Name, Path};
use std::alloc::Global;

/// Why an event is refused. A refused event changes nothing.
#[derive(Drop)]
pub enum Refusal {
    /// The operation is refused.
    Operation(OpRefusal),
    /// The event's rule isn't within the topmost rule of the pass that isn't null, which is this one.
    NotContained(WsRule),
    /// Another pass has this rule, which conflicts with the event's: of several the pass with the least number, and the
    /// rule that it began first.
    Conflict(u64, WsRule),
    /// The pass began another rule last, and has so many.
    NotLast(u64),
    /// The pass has no rule.
    HoldsNothing,
    /// The pass that is to get the rules has one.
    TargetHolds,
    /// The number of a new job would pass 2^63 - 1.
    NumbersUsed,
    /// No job of this name was ever scheduled.
    UnknownJob,
    /// The event isn't for a job in this state.
    WrongState(JobState),
    /// The pass has a rule, an open batch or a job.
    PassBusy,
    /// There is no such pass.
    NoPass,
    /// The pass has no open batch.
    NoBatch,
    /// This pass has the services.
    ServicesOut(u64),
    /// The pass that asks hasn't the services, which this one has, or none.
    NotServices(Option<u64>),
    /// This path from the output is the root, comes twice among the edits, or is that of a file above another file.
    BadEdits(Path),
    /// There is no builder of this name.
    NoBuilder(Name),
    /// The project has only so many commands.
    NoCommand(u64),
    /// No command is under way.
    NoBuild,
}

impl Refusal {
    /// The refusal's number: that of the operation's refusal, 15 for a rule that isn't contained, 18 for used numbers, 19
    /// for a rule that isn't the last, 20 for no rule, 30 for a conflict, 31 for a target that has rules, 32 for services that
    /// are out, 33 for a pass that hasn't the services, 34 for bad edits, 35 for no builder, 36 for no command, 37 for no build,
    /// 40 for an unknown job, 41 for a job in another state, 42 for a busy pass, 43 for no pass, 44 for no batch.
    pub fn number(&self) -> u8
        ensures { result ≡ refusal_number self.now }
    {
        match self {
            Refusal::Operation(refusal) => refusal.number(),
            Refusal::NotContained(_) => 15,
            Refusal::NumbersUsed => 18,
            Refusal::NotLast(_) => 19,
            Refusal::HoldsNothing => 20,
            Refusal::Conflict(_, _) => 30,
            Refusal::TargetHolds => 31,
            Refusal::ServicesOut(_) => 32,
            Refusal::NotServices(_) => 33,
            Refusal::BadEdits(_) => 34,
            Refusal::NoBuilder(_) => 35,
            Refusal::NoCommand(_) => 36,
            Refusal::NoBuild => 37,
            Refusal::UnknownJob => 40,
            Refusal::WrongState(_) => 41,
            Refusal::PassBusy => 42,
            Refusal::NoPass => 43,
            Refusal::NoBatch => 44,
        }
    }

    /// Whether another pass has a rule that conflicts.
    pub fn is_conflict(&self) -> bool
        ensures { result ≡ is_conflict self.now }
    {
        matches!(self, Refusal::Conflict(_, _))
    }

    /// An equal refusal, which shares its texts.
    pub fn copy(&self) -> Result<Refusal, NoMemory>
        ensures { IfOk result (λ copy. copy ≡ self.now) }
    {
        match self {
            Refusal::Operation(refusal) => operation(refusal),
            Refusal::NotContained(outer) => not_contained(outer),
            Refusal::Conflict(holder, rule) => conflict(*holder, rule),
            Refusal::NotLast(held) => Ok(Refusal::NotLast(*held)),
            Refusal::HoldsNothing => Ok(Refusal::HoldsNothing),
            Refusal::TargetHolds => Ok(Refusal::TargetHolds),
            Refusal::NumbersUsed => Ok(Refusal::NumbersUsed),
            Refusal::UnknownJob => Ok(Refusal::UnknownJob),
            Refusal::WrongState(state) => Ok(Refusal::WrongState(*state)),
            Refusal::PassBusy => Ok(Refusal::PassBusy),
            Refusal::NoPass => Ok(Refusal::NoPass),
            Refusal::NoBatch => Ok(Refusal::NoBatch),
            Refusal::ServicesOut(holder) => Ok(Refusal::ServicesOut(*holder)),
            Refusal::NotServices(holder) => Ok(Refusal::NotServices(*holder)),
            Refusal::BadEdits(path) => bad_edits(path),
            Refusal::NoBuilder(name) => no_builder(name),
            Refusal::NoCommand(count) => Ok(Refusal::NoCommand(*count)),
            Refusal::NoBuild => Ok(Refusal::NoBuild),
        }
    }
}

impl Clone for Refusal {
    ghost is_clone = { λ refusal copy. copy ≡ refusal };

    fn clone(&self) -> Result<Refusal, NoMemory> {
        self.copy()
    }
}

fn operation(refusal: &OpRefusal) -> Result<Refusal, NoMemory>
    ensures { IfOk result (λ copy. copy ≡ Refusal.Operation refusal.now) }
{
    Ok(Refusal::Operation(refusal.copy()?))
}

fn not_contained(outer: &WsRule) -> Result<Refusal, NoMemory>
    ensures { IfOk result (λ copy. copy ≡ Refusal.NotContained outer.now) }
{
    Ok(Refusal::NotContained(outer.copy()?))
}

fn conflict(holder: u64, rule: &WsRule) -> Result<Refusal, NoMemory>
    ensures { IfOk result (λ copy. copy ≡ Refusal.Conflict holder rule.now) }
{
    Ok(Refusal::Conflict(holder, rule.copy()?))
}

fn bad_edits(path: &Path) -> Result<Refusal, NoMemory>
    ensures { IfOk result (λ copy. copy ≡ Refusal.BadEdits path.now) }
{
    Ok(Refusal::BadEdits(path.copy()?))
}

fn no_builder(name: &Name) -> Result<Refusal, NoMemory>
    ensures { IfOk result (λ copy. copy ≡ Refusal.NoBuilder name.now) }
{
    Ok(Refusal::NoBuilder(name.copy()?))
}

/// What an event is answered. What few answers have is kept apart, so that each answer is small.
#[derive(Drop)]
pub enum Answer {
    Done,
    /// The new pass's number, or the new marker's id.
    Id(u64),
    /// How many markers went, or how many resources lost a partner's bytes.
    Count(u64),
    /// No job waits whose rule is free.
    None,
    /// The job that is to be run.
    Job(Apart<Name>),
    /// What was read: elements with their paths, and the names of the synchronisation partners by their numbers.
    Seen(Apart<(Entries, Partners)>),
    /// What the build is to do.
    Plan(Apart<Plan>),
    /// What the builder of the command is to be handed.
    Handed(Apart<Handed>),
    /// How many files came, went or got other contents, and how many problems the command has.
    Committed { touched: u64, problems: u64 },
    Refused(Apart<Refusal>),
}

impl Answer {
    /// The answer to an operation that is done. Only what was read takes memory.
    pub fn of(alloc: Global, answer: OpAnswer) -> Result<Answer, NoMemory>
        ensures { IfOk result (λ a. a ≡ answered answer) }
    {
        match answer {
            OpAnswer::Done => Ok(Answer::Done),
            OpAnswer::Id(id) => Ok(Answer::Id(id)),
            OpAnswer::Count(count) => Ok(Answer::Count(count)),
            OpAnswer::Seen(entries, partners) => Answer::seen(alloc, entries, partners),
        }
    }

    /// The answer to an operation that read this.
    fn seen(alloc: Global, entries: Entries, partners: Partners) -> Result<Answer, NoMemory>
        ensures { IfOk result (λ a. a ≡ Answer.Seen (entries, partners)) }
    {
        let seen = Apart::of(alloc, (entries, partners))?;
        Ok(Answer::Seen(seen))
    }

    /// The answer to an event that is refused.
    pub fn refused(alloc: Global, refusal: Refusal) -> Result<Answer, NoMemory>
        ensures { IfOk result (λ a. a ≡ Answer.Refused refusal) }
    {
        let refusal = Apart::of(alloc, refusal)?;
        Ok(Answer::Refused(refusal))
    }

    /// Whether the event that is answered so is none: it only found that it must wait.
    pub fn is_attempt(&self, event: &Event) -> bool
        ensures { result ≡ is_attempt event.now self.now }
    {
        match self {
            Answer::Done
            | Answer::Id(_)
            | Answer::Count(_)
            | Answer::Job(_)
            | Answer::Seen(_)
            | Answer::Plan(_)
            | Answer::Handed(_)
            | Answer::Committed { .. } => false,
            Answer::None => true,
            Answer::Refused(refusal) => is_in_the_way(refusal, event),
        }
    }

    /// An equal answer, which shares its texts.
    pub fn copy(&self) -> Result<Answer, NoMemory>
        ensures { IfOk result (λ copy. copy ≡ self.now) }
    {
        match self {
            Answer::Done => Ok(Answer::Done),
            Answer::Id(id) => Ok(Answer::Id(*id)),
            Answer::Count(count) => Ok(Answer::Count(*count)),
            Answer::None => Ok(Answer::None),
            Answer::Job(name) => job(name),
            Answer::Seen(seen) => what_was_seen(seen),
            Answer::Plan(plan) => planned(plan),
            Answer::Handed(handed) => what_is_handed(handed),
            Answer::Committed { touched, problems } => Ok(Answer::Committed {
                touched: *touched,
                problems: *problems,
            }),
            Answer::Refused(refusal) => refused(refusal),
        }
    }
}

impl Clone for Answer {
    ghost is_clone = { λ answer copy. copy ≡ answer };

    fn clone(&self) -> Result<Answer, NoMemory> {
        self.copy()
    }
}

fn is_in_the_way(refusal: &Apart<Refusal>, event: &Event) -> bool
    ensures { result ≡ (is_conflict refusal.now && waits event.now) }
{
    refusal.value().is_conflict() && event.waits()
}

fn job(name: &Apart<Name>) -> Result<Answer, NoMemory>
    ensures { IfOk result (λ copy. copy ≡ Answer.Job name.now) }
{
    Ok(Answer::Job(name.clone()?))
}

fn what_was_seen(seen: &Apart<(Entries, Partners)>) -> Result<Answer, NoMemory>
    ensures { IfOk result (λ copy. copy ≡ Answer.Seen seen.now) }
{
    Ok(Answer::Seen(seen.clone()?))
}

fn planned(plan: &Apart<Plan>) -> Result<Answer, NoMemory>
    ensures { IfOk result (λ copy. copy ≡ Answer.Plan plan.now) }
{
    Ok(Answer::Plan(plan.clone()?))
}

fn what_is_handed(handed: &Apart<Handed>) -> Result<Answer, NoMemory>
    ensures { IfOk result (λ copy. copy ≡ Answer.Handed handed.now) }
{
    Ok(Answer::Handed(handed.clone()?))
}

fn refused(refusal: &Apart<Refusal>) -> Result<Answer, NoMemory>
    ensures { IfOk result (λ copy. copy ≡ Answer.Refused refusal.now) }
{
    Ok(Answer::Refused(refusal.clone()?))
}

/// What an event is answered, and what it tells: what changed in the tree since it was last told, where anything did.
#[derive(Drop)]
pub struct Reply {
    pub answer: Answer,
    pub notice: Notice,
}

impl Reply {
    /// An equal reply, which shares its texts.
    pub fn copy(&self) -> Result<Reply, NoMemory>
        ensures { IfOk result (λ copy. copy ≡ self.now) }
    {
        Ok(Reply {
            answer: self.answer.copy()?,
            notice: self.notice.copy()?,
        })
    }
}
