//! What a pass may ask.
ghost use Rattle.std.specs.Prelude.{◌≡◌, IfOk};
ghost use Rattle.std.specs.Option.{option_copied};
ghost use Rattle.core_event.specs.Events.{change_of, is_checkpoint, is_read, operation_of, service_of, waits};

use crate::{ServiceEvent, WsRule};
use op_kind::Op;
use res_path::{Name, NoMemory};

/// What a pass may ask of the core.
#[derive(Drop)]
pub enum Event {
    /// A new pass enters, with the next number. The pass that asks is the one that it is split from.
    Enter,
    /// The pass leaves.
    Leave,
    /// The job of this name and priority waits, or sleeps where the last part says so, and is to have this rule while it
    /// is run (`Job.schedule`).
    Schedule(Name, u8, WsRule, bool),
    /// The job that waits sleeps (`Job.sleep`).
    Sleep(Name),
    /// The job that sleeps waits (`Job.wakeUp`).
    Wake(Name),
    /// The job that waits or sleeps is over (`Job.cancel`).
    Cancel(Name),
    /// Of the jobs that wait, and whose rule conflicts with none that is held, the one with the least priority number,
    /// and of one priority the one that was scheduled first, is run by the pass, which gets its rule.
    Take,
    /// The pass's job is over, its batches are closed and its rules ended.
    Finish,
    /// The pass is to have this rule until it ends it (`IJobManager.beginRule`). Rules are nested: each is within those
    /// that the pass has.
    Begin(WsRule),
    /// The same, of who doesn't wait for it.
    TryBegin(WsRule),
    /// The pass gives back the rule that it began last (`IJobManager.endRule`).
    End(WsRule),
    /// All rules of the pass are this one's from now on (`IJobManager.transferRule`).
    Transfer(u64),
    /// A batch begins: until it ends nothing is told but at checkpoints (`IWorkspace.run`).
    Batch,
    /// The pass's newest batch ends.
    EndBatch,
    /// What changed is to be told (`IWorkspace.checkpoint`).
    Checkpoint,
    /// This is to be done to resources, or to be read of them.
    Operation(Op),
    /// This concerns the services.
    Service(ServiceEvent),
}

impl Event {
    /// The operation by which the event may change resources, if there is one. What only reads is none.
    pub fn change(&self) -> Option<&Op>
        ensures { option_copied result ≡ change_of self.now }
    {
        match self {
            Event::Operation(op) => change(op),
            Event::Enter
            | Event::Leave
            | Event::Schedule(_, _, _, _)
            | Event::Sleep(_)
            | Event::Wake(_)
            | Event::Cancel(_)
            | Event::Take
            | Event::Finish
            | Event::Begin(_)
            | Event::TryBegin(_)
            | Event::End(_)
            | Event::Transfer(_)
            | Event::Batch
            | Event::EndBatch
            | Event::Checkpoint
            | Event::Service(_) => None,
        }
    }

    /// The operation that the event is, if it is one.
    pub fn operation(&self) -> Option<&Op>
        ensures { option_copied result ≡ operation_of self.now }
    {
        match self {
            Event::Operation(op) => Some(op),
            Event::Enter
            | Event::Leave
            | Event::Schedule(_, _, _, _)
            | Event::Sleep(_)
            | Event::Wake(_)
            | Event::Cancel(_)
            | Event::Take
            | Event::Finish
            | Event::Begin(_)
            | Event::TryBegin(_)
            | Event::End(_)
            | Event::Transfer(_)
            | Event::Batch
            | Event::EndBatch
            | Event::Checkpoint
            | Event::Service(_) => None,
        }
    }

    /// What the event asks of the services, if it does.
    pub fn service(&self) -> Option<&ServiceEvent>
        ensures { option_copied result ≡ service_of self.now }
    {
        match self {
            Event::Service(event) => Some(event),
            _ => None,
        }
    }

    /// Whether the event is a checkpoint.
    pub fn is_checkpoint(&self) -> bool
        ensures { result ≡ is_checkpoint self.now }
    {
        matches!(self, Event::Checkpoint)
    }

    /// Whether the event is tried again, without an entry, where another pass's rule is in the way.
    pub fn waits(&self) -> bool
        ensures { result ≡ waits self.now }
    {
        !matches!(self, Event::TryBegin(_))
    }

    /// An equal event, which shares its texts.
    pub fn copy(&self) -> Result<Event, NoMemory>
        ensures { IfOk result (λ copy. copy ≡ self.now) }
    {
        match self {
            Event::Enter => Ok(Event::Enter),
            Event::Leave => Ok(Event::Leave),
            Event::Schedule(name, priority, rule, asleep) => {
                schedule(name, *priority, rule, *asleep)
            }
            Event::Sleep(name) => sleep(name),
            Event::Wake(name) => wake(name),
            Event::Cancel(name) => cancel(name),
            Event::Take => Ok(Event::Take),
            Event::Finish => Ok(Event::Finish),
            Event::Begin(rule) => begin(rule),
            Event::TryBegin(rule) => try_begin(rule),
            Event::End(rule) => end(rule),
            Event::Transfer(to) => Ok(Event::Transfer(*to)),
            Event::Batch => Ok(Event::Batch),
            Event::EndBatch => Ok(Event::EndBatch),
            Event::Checkpoint => Ok(Event::Checkpoint),
            Event::Operation(op) => operation(op),
            Event::Service(event) => service(event),
        }
    }
}

impl Clone for Event {
    ghost is_clone = { λ event copy. copy ≡ event };

    fn clone(&self) -> Result<Event, NoMemory> {
        self.copy()
    }
}

fn schedule(name: &Name, priority: u8, rule: &WsRule, asleep: bool) -> Result<Event, NoMemory>
    ensures { IfOk result (λ copy. copy ≡ Event.Schedule name.now priority rule.now asleep) }
{
    Ok(Event::Schedule(name.copy()?, priority, rule.copy()?, asleep))
}

fn sleep(name: &Name) -> Result<Event, NoMemory>
    ensures { IfOk result (λ copy. copy ≡ Event.Sleep name.now) }
{
    Ok(Event::Sleep(name.copy()?))
}

fn wake(name: &Name) -> Result<Event, NoMemory>
    ensures { IfOk result (λ copy. copy ≡ Event.Wake name.now) }
{
    Ok(Event::Wake(name.copy()?))
}

fn cancel(name: &Name) -> Result<Event, NoMemory>
    ensures { IfOk result (λ copy. copy ≡ Event.Cancel name.now) }
{
    Ok(Event::Cancel(name.copy()?))
}

fn begin(rule: &WsRule) -> Result<Event, NoMemory>
    ensures { IfOk result (λ copy. copy ≡ Event.Begin rule.now) }
{
    Ok(Event::Begin(rule.copy()?))
}

fn try_begin(rule: &WsRule) -> Result<Event, NoMemory>
    ensures { IfOk result (λ copy. copy ≡ Event.TryBegin rule.now) }
{
    Ok(Event::TryBegin(rule.copy()?))
}

fn end(rule: &WsRule) -> Result<Event, NoMemory>
    ensures { IfOk result (λ copy. copy ≡ Event.End rule.now) }
{
    Ok(Event::End(rule.copy()?))
}

fn operation(op: &Op) -> Result<Event, NoMemory>
    ensures { IfOk result (λ copy. copy ≡ Event.Operation op.now) }
{
    Ok(Event::Operation(op.copy()?))
}

fn service(event: &ServiceEvent) -> Result<Event, NoMemory>
    ensures { IfOk result (λ copy. copy ≡ Event.Service event.now) }
{
    Ok(Event::Service(event.copy()?))
}

/// The operation, unless it only reads.
fn change(op: &Op) -> Option<&Op>
    ensures { option_copied result ≡ change_of (Event.Operation op.now) }
{
    if is_read(op) { None } else { Some(op) }
}

/// Whether the operation only reads.
pub fn is_read(op: &Op) -> bool
    ensures { result ≡ is_read op.now }
{
    match op {
        Op::Read(_, _) => true,
        Op::CreateFile(_, _)
        | Op::CreateFolder(_)
        | Op::CreateProject(_)
        | Op::Delete(_)
        | Op::Write(_, _)
        | Op::Touch(_)
        | Op::Derived(_, _)
        | Op::Move(_, _)
        | Op::Copy(_, _)
        | Op::Open(_)
        | Op::Close(_)
        | Op::Describe(_, _)
        | Op::Forget(_)
        | Op::Mark(_, _, _)
        | Op::Attr(_, _, _, _)
        | Op::Unmark(_, _)
        | Op::ClearMarks(_, _, _)
        | Op::Partner(_)
        | Op::Sync(_, _, _)
        | Op::Flush(_, _, _) => false,
    }
}
