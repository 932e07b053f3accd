//! Entries as rows tell them: the answer and what follows it, a comma between the lines. Of what is handed that is also the
//! kind and the files that are seen of the inputs and in the output, of a plan the projects with their builders and the
//! knots; and what is told. Of what participants keep the names and the bytes, with what changed since where one asks for it.
use crate::asserting::must;
use builder_api::{Handed, Knots, Plan, PlanOrder};
use core_event::{Answer, Entry, NoMemory, Refusal};
use delta_kind::Delta;
use op_kind::{Entries, OpRefusal};
use proj_desc::DescCause;
use report_text::{put_counted, put_named, put_node, put_path, put_rule, put_shown, put_text};
use save_round::KeptState;
use std::process::Abort;

fn put_delta(out: &mut Vec<u8>, delta: &Delta) -> Result<(), NoMemory> {
    for node in delta.nodes() {
        put_node(out, node)?;
    }
    Ok(())
}

/// The files that are seen, the inputs and the output.
fn put_places(out: &mut Vec<u8>, handed: &Handed) -> Result<(), NoMemory> {
    for (path, contents) in handed.view.as_slice() {
        put_path(out, " ", path)?;
        put_named(out, "=", contents.as_slice())?;
    }
    for input in handed.inputs.as_slice() {
        put_path(out, " of ", input)?;
    }
    put_path(out, " in ", &handed.output)
}

fn put_handed(out: &mut Vec<u8>, handed: &Handed) -> Result<(), NoMemory> {
    match &handed.delta {
        Some(delta) => {
            put_text(out, "delta\n")?;
            put_delta(out, delta)?;
        }
        None => put_text(out, "none\n")?,
    }
    put_text(out, if handed.last { "since" } else { "all" })?;
    put_counted(out, " ", u64::from(handed.kind.number()))?;
    put_places(out, handed)
}

fn put_order(out: &mut Vec<u8>, order: &PlanOrder) -> Result<(), NoMemory> {
    for (project, commands) in order.as_slice() {
        put_named(out, "\n/", project.text().as_bytes())?;
        for command in commands.as_slice() {
            put_named(out, " ", command.builder.text().as_bytes())?;
        }
    }
    Ok(())
}

fn put_knots(out: &mut Vec<u8>, knots: &Knots) -> Result<(), NoMemory> {
    for knot in knots.as_slice() {
        put_text(out, "\nknot")?;
        for project in knot.as_slice() {
            put_named(out, " /", project.text().as_bytes())?;
        }
    }
    Ok(())
}

fn put_plan(out: &mut Vec<u8>, plan: &Plan) -> Result<(), NoMemory> {
    put_text(out, "ok")?;
    put_order(out, &plan.order)?;
    put_knots(out, &plan.knots)
}

fn put_seen(out: &mut Vec<u8>, entries: &Entries) -> Result<(), NoMemory> {
    for (_, element) in entries.as_slice() {
        put_shown(out, element, &[])?;
    }
    Ok(())
}

/// What an operation's refusal names.
fn put_cause(out: &mut Vec<u8>, refusal: &OpRefusal) -> Result<(), NoMemory> {
    match refusal {
        OpRefusal::NotFound(path) | OpRefusal::ProjectClosed(path) => put_path(out, " ", path),
        OpRefusal::BadDescription(DescCause::NotJson) => put_text(out, " not-json"),
        _ => Ok(()),
    }
}

fn put_holder(out: &mut Vec<u8>, holder: Option<u64>) -> Result<(), NoMemory> {
    match holder {
        Some(pass) => put_counted(out, " ", pass),
        None => put_text(out, " none"),
    }
}

/// A refusal's number, and what it names.
fn put_refused(out: &mut Vec<u8>, refusal: &Refusal) -> Result<(), NoMemory> {
    put_counted(out, "refused ", u64::from(refusal.number()))?;
    match refusal {
        Refusal::Operation(refusal) => put_cause(out, refusal),
        Refusal::NotContained(outer) => {
            put_text(out, " ")?;
            put_rule(out, outer)
        }
        Refusal::ServicesOut(holder) => put_counted(out, " ", *holder),
        Refusal::NotServices(holder) => put_holder(out, *holder),
        Refusal::BadEdits(path) => put_path(out, " ", path),
        Refusal::NoBuilder(name) => put_named(out, " ", name.text().as_bytes()),
        Refusal::NoCommand(count) => put_counted(out, " ", *count),
        _ => Ok(()),
    }
}

fn put_committed(out: &mut Vec<u8>, touched: u64, problems: u64) -> Result<(), NoMemory> {
    put_counted(out, "touched ", touched)?;
    put_counted(out, " problems ", problems)
}

fn put_answer(out: &mut Vec<u8>, answer: &Answer) -> Result<(), NoMemory> {
    match answer {
        Answer::Done => put_text(out, "ok"),
        Answer::Id(id) => put_counted(out, "id ", *id),
        Answer::Seen(seen) => put_seen(out, &seen.value().0),
        Answer::Plan(plan) => put_plan(out, plan.value()),
        Answer::Handed(handed) => put_handed(out, handed.value()),
        Answer::Committed { touched, problems } => put_committed(out, *touched, *problems),
        Answer::Refused(refusal) => put_refused(out, refusal.value()),
        Answer::Count(_) | Answer::None | Answer::Job(_) => Ok(()),
    }
}

fn put_entry(out: &mut Vec<u8>, entry: &Entry) -> Result<(), NoMemory> {
    put_answer(out, &entry.reply.answer)?;
    match entry.reply.notice.delta() {
        Some(delta) => {
            put_text(out, "\nnotice\n")?;
            put_delta(out, delta)
        }
        None => Ok(()),
    }
}

/// The lines, a comma between.
fn joined(rt: &(impl Abort + AllocGlobal), lines: &str) -> String {
    let mut out = String::new(rt.alloc());
    for line in lines.lines() {
        if !out.is_empty() {
            must(rt, out.push_str(", "));
        }
        must(rt, out.push_str(line.trim()));
    }
    out
}

fn put_kept(out: &mut Vec<u8>, kept: &[KeptState]) -> Result<(), NoMemory> {
    for state in kept {
        put_named(out, "", state.name.text().as_bytes())?;
        put_named(out, "=", state.bytes.as_slice())?;
        if let Some(delta) = &state.delta {
            put_text(out, " since")?;
            put_text(out, "\n")?;
            put_delta(out, delta)?;
        } else {
            put_text(out, "\n")?;
        }
    }
    Ok(())
}

pub fn told_kept(rt: &(impl Abort + AllocGlobal), kept: &[KeptState]) -> String {
    let mut lines = Vec::new(rt.alloc());
    must(rt, put_kept(&mut lines, kept));
    joined(rt, must(rt, str::from_utf8(lines.as_slice())))
}

pub fn told(rt: &(impl Abort + AllocGlobal), entry: &Entry) -> String {
    let mut lines = Vec::new(rt.alloc());
    must(rt, put_entry(&mut lines, entry));
    joined(rt, must(rt, str::from_utf8(lines.as_slice())))
}
