//! The command that is under way at each entry.
ghost use Rattle.std.specs.Prelude.{◌≡◌, Some, None as nothing};
ghost use Rattle.run_text.specs.UnderWay.{is_refused, under_after, under_done, under_served};
ghost use Rattle.service_desk.specs.Desks.{unless_stopped};

use core_event::{Answer, Entry, Event, ServiceEvent};
use op_kind::Op;
use res_path::Name;
use service_desk::stops;
use std::marker::Model;

/// The command that is under way, if one is: its project's name, which an entry has, and its number. A contract sees it as
/// the desk of the services has it.
#[derive(Drop)]
pub struct Current<'a> {
    pub(crate) command: Option<(&'a Name, u16)>,
}

impl<'a> Model for Current<'a> {
    ghost use Rattle.std.specs.Prelude.{Option, option_map};
    ghost use Rattle.std.specs.Coded.{coded_option};
    ghost use Rattle.service_desk.specs.contracts.desk.UnderWay as under_way;
    ghost use Rattle.service_desk.specs.declared.desk.UnderWay.{UnderWay};

    ghost Value = { Option UnderWay };

    ghost coded = { coded_option under_way.the_row.coded };

    ghost view = { λ c. option_map (λ x. record { project = x.0.now; index = x.1 }) c.command };
}

impl<'a> Current<'a> {
    /// No command is under way.
    pub fn none() -> Current<'a>
        ensures { result ≡ nothing }
    {
        Current { command: None }
    }

    /// The command that is under way after the entry: that for which something was handed last, until the services are given
    /// back, a command is cleaned, or its project is deleted, moved, closed or described. A refused event changes nothing.
    pub fn after(self, entry: &'a Entry) -> Current<'a>
        ensures { result ≡ under_after self.entry entry.now }
    {
        if is_refused(&entry.reply.answer) {
            return self;
        }
        self.done(&entry.event)
    }

    fn done(self, event: &'a Event) -> Current<'a>
        ensures { result ≡ under_done self.entry event.now }
    {
        match event {
            Event::Service(event) => self.served(event),
            Event::Operation(op) => self.left(op),
            Event::Enter
            | Event::Leave
            | Event::Schedule(_, _, _, _)
            | Event::Sleep(_)
            | Event::Wake(_)
            | Event::Cancel(_)
            | Event::Take
            | Event::Finish
            | Event::Begin(_)
            | Event::TryBegin(_)
            | Event::End(_)
            | Event::Transfer(_)
            | Event::Batch
            | Event::EndBatch
            | Event::Checkpoint => self,
        }
    }

    fn served(self, event: &'a ServiceEvent) -> Current<'a>
        ensures { result ≡ under_served self.entry event.now }
    {
        match event {
            ServiceEvent::Handed(project, index, _) => Current {
                command: Some((project, *index)),
            },
            ServiceEvent::CheckIn(_) | ServiceEvent::Clean(_, _) => Current::none(),
            ServiceEvent::Checkout(_) | ServiceEvent::Commit(_) | ServiceEvent::Saving(_) => self,
        }
    }

    fn left(self, op: &Op) -> Current<'a>
        ensures { result ≡ unless_stopped op.now self.entry }
    {
        let Current { command } = self;
        match command {
            None => Current::none(),
            Some((project, index)) => unless_stopped(op, project, index),
        }
    }
}

/// The command is under way still, unless the operation stops the build of its project.
fn unless_stopped<'a>(op: &Op, project: &'a Name, index: u16) -> Current<'a>
    ensures { result ≡ unless_stopped op.now (Some (record { project = project.now; index = index })) }
{
    if stops(op, project) {
        return Current::none();
    }
    Current {
        command: Some((project, index)),
    }
}

fn is_refused(answer: &Answer) -> bool
    ensures { result ≡ is_refused answer.now }
{
    match answer {
        Answer::Refused(_) => true,
        Answer::Done
        | Answer::Id(_)
        | Answer::Count(_)
        | Answer::None
        | Answer::Job(_)
        | Answer::Seen(_)
        | Answer::Plan(_)
        | Answer::Handed(_)
        | Answer::Committed { .. } => false,
    }
}
