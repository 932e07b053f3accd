//! The words of refusals.
ghost use Rattle.std.specs.Prelude.{◌≡◌, ◌++◌, codes, decimal, OnOk};
ghost use Rattle.proj_desc.specs.Words.{cause_words};
ghost use Rattle.report_text.specs.Rules.{rule_words};
ghost use Rattle.run_text.specs.Replies.{cause_text, holder_text, value_words, operation_refusal_text, refusal_text};

use crate::NoMemory;
use crate::event_text::put_ruled;
use core_event::{Refusal, WsRule};
use mark_set::ValueCause;
use op_kind::OpRefusal;
use proj_desc::DescCause;
use report_text::{put_counted, put_named, put_number, put_path, put_text};
use std::fmt::Write;

/// Appends a cause that names nothing.
fn put_plain_cause(out: &mut Vec<u8>, cause: &DescCause) -> Result<(), NoMemory>
    ensures { OnOk result (out.new.items ≡ out.old.items ++ cause_words cause.now) }
{
    let mut text = String::new(*out.allocator());
    write!(text, "{cause}")?;
    put_text(out, text.as_str())
}

fn put_cause(out: &mut Vec<u8>, cause: &DescCause) -> Result<(), NoMemory>
    ensures { OnOk result (out.new.items ≡ out.old.items ++ cause_text cause.now) }
{
    match cause {
        DescCause::Member(name) => put_named(out, "member ", name.as_bytes()),
        DescCause::Double(name) => put_named(out, "double ", name.text().as_bytes()),
        DescCause::NotJson
        | DescCause::NotObject
        | DescCause::Wrong(_)
        | DescCause::Many
        | DescCause::BadName
        | DescCause::BadPath
        | DescCause::SelfReference
        | DescCause::Foreign(_)
        | DescCause::Outputs(_, _)
        | DescCause::Inputs(_, _) => put_plain_cause(out, cause),
    }
}

fn put_description_refusal(out: &mut Vec<u8>, cause: &DescCause) -> Result<(), NoMemory>
    ensures { OnOk result (out.new.items ≡ out.old.items ++ codes "25 " ++ cause_text cause.now) }
{
    put_text(out, "25 ")?;
    put_cause(out, cause)
}

/// The number of a bad value's refusal, and its cause.
fn value_words(cause: &ValueCause) -> &'static str
    ensures { result.now ≡ value_words cause.now }
{
    match cause {
        ValueCause::EmptyName => "23 empty-name",
        ValueCause::LongName => "23 long-name",
        ValueCause::LongText => "23 long-text",
    }
}

fn put_operation_refusal(out: &mut Vec<u8>, refusal: &OpRefusal) -> Result<(), NoMemory>
    ensures { OnOk result (out.new.items ≡ out.old.items ++ operation_refusal_text refusal.now) }
{
    match refusal {
        OpRefusal::TooDeep => put_text(out, "2"),
        OpRefusal::TooLong => put_text(out, "3"),
        OpRefusal::NotFound(path) => put_path(out, "10 ", path),
        OpRefusal::Exists(path) => put_path(out, "11 ", path),
        OpRefusal::NotContainer(path) => put_path(out, "12 ", path),
        OpRefusal::WrongKind(path) => put_path(out, "13 ", path),
        OpRefusal::ProjectClosed(path) => put_path(out, "14 ", path),
        OpRefusal::TreeFull => put_text(out, "17"),
        OpRefusal::NumbersUsed => put_text(out, "18"),
        OpRefusal::PartnerUnknown => put_text(out, "21"),
        OpRefusal::MarkerUnknown(id) => put_counted(out, "22 ", *id),
        OpRefusal::BadValue(cause) => put_text(out, value_words(cause)),
        OpRefusal::IntoItself => put_text(out, "24"),
        OpRefusal::BadDescription(cause) => put_description_refusal(out, cause),
    }
}

/// Appends a conflict: its holder and the rule that it has.
fn put_conflict(out: &mut Vec<u8>, holder: u64, rule: &WsRule) -> Result<(), NoMemory>
    ensures { OnOk result (out.new.items ≡ out.old.items ++ codes "30 " ++ decimal holder ++ codes " " ++ rule_words rule.now) }
{
    put_counted(out, "30 ", holder)?;
    put_ruled(out, " ", rule)
}

/// Appends the number of the pass that has the services, if one has them.
fn put_holder(out: &mut Vec<u8>, holder: Option<u64>) -> Result<(), NoMemory>
    ensures { OnOk result (out.new.items ≡ out.old.items ++ holder_text holder) }
{
    match holder {
        None => put_text(out, "none"),
        Some(pass) => put_number(out, pass),
    }
}

fn put_not_services(out: &mut Vec<u8>, holder: Option<u64>) -> Result<(), NoMemory>
    ensures { OnOk result (out.new.items ≡ out.old.items ++ codes "33 " ++ holder_text holder) }
{
    put_text(out, "33 ")?;
    put_holder(out, holder)
}

fn put_refusal(out: &mut Vec<u8>, refusal: &Refusal) -> Result<(), NoMemory>
    ensures { OnOk result (out.new.items ≡ out.old.items ++ refusal_text refusal.now) }
{
    match refusal {
        Refusal::Operation(refusal) => put_operation_refusal(out, refusal),
        Refusal::NotContained(outer) => put_ruled(out, "15 ", outer),
        Refusal::NumbersUsed => put_text(out, "18"),
        Refusal::NotLast(held) => put_counted(out, "19 ", *held),
        Refusal::HoldsNothing => put_text(out, "20"),
        Refusal::Conflict(holder, rule) => put_conflict(out, *holder, rule),
        Refusal::TargetHolds => put_text(out, "31"),
        Refusal::ServicesOut(holder) => put_counted(out, "32 ", *holder),
        Refusal::NotServices(holder) => put_not_services(out, *holder),
        Refusal::BadEdits(path) => put_path(out, "34 ", path),
        Refusal::NoBuilder(name) => put_named(out, "35 ", name.text().as_bytes()),
        Refusal::NoCommand(count) => put_counted(out, "36 ", *count),
        Refusal::NoBuild => put_text(out, "37"),
        Refusal::UnknownJob => put_text(out, "40"),
        Refusal::WrongState(state) => put_counted(out, "41 ", u64::from(state.number())),
        Refusal::PassBusy => put_text(out, "42"),
        Refusal::NoPass => put_text(out, "43"),
        Refusal::NoBatch => put_text(out, "44"),
    }
}

/// Appends that an event is refused, and why.
pub(crate) fn put_refused(out: &mut Vec<u8>, refusal: &Refusal) -> Result<(), NoMemory>
    ensures { OnOk result (out.new.items ≡ out.old.items ++ codes "refused " ++ refusal_text refusal.now) }
{
    put_text(out, "refused ")?;
    put_refusal(out, refusal)
}
