//! The text of a script.
ghost use Rattle.std.specs.Prelude.{◌≡◌, ◌++◌, [], ◌∷◌, true, IfOk, OnOk};
ghost use Rattle.script_lang.specs.declared.line.Line.TheVariants.{BeginJob, InJob};
ghost use Rattle.script_lang.specs.declared.script.Command.TheVariants.{Build};
ghost use Rattle.script_words.specs.Words.{Grows, is_bare};
ghost use Rattle.script_lang.specs.Commands.{asleep_parts, command_parts, command_read, kind_word, priority_word, save_word};
ghost use Rattle.script_lang.specs.Scripts.{IsScript, script_text, command_text, line_text, phase_lines, job_lines, HasOwnNames, ended};
ghost use Rattle.script_parts.specs.Parts.{keyword, parts_text, rule_parts, rule_read};
ghost use Rattle.script_lang.specs.Inside.Printed.{AreLines, IsLine};
ghost use Rattle.script_parts.specs.Inside.Printed.{AreParts, spaced};

use crate::script::{Command, Job, Phase, Priority, Script};
use crate::{NoMemory, ScriptRule};
use builder_api::BuildKind;
use res_path::Name;
use save_kind::SaveKind;
use script_ops::put_doing;
use script_parts::{name_word, put_next, put_rule, put_scope, put_three, put_two};
use script_words::{put_bytes, put_word};
use std::alloc::Global;

/// The script's text, each line ended by LF. `parse` reads it as this script.
pub fn print(alloc: Global, script: &Script) -> Result<Vec<u8>, NoMemory>
    ensures text { IfOk result (λ bytes. bytes.items ≡ script_text script.now) }
    ensures back { IfOk result (λ bytes. IsScript bytes.items script.now) }
{
    let mut out = Vec::new(alloc);
    for phase in script.phases.as_slice() {
        put_phase(&mut out, phase)?;
    }
    Ok(out)
}

fn put_phase(out: &mut Vec<u8>, phase: &Phase) -> Result<(), NoMemory>
    ensures text { OnOk result (out.new.items ≡ out.old.items ++ ended (phase_lines phase.now)) }
    ensures parts { OnOk result (AreLines (phase_lines phase.now)) }
    ensures names { OnOk result (HasOwnNames phase.now) }
{
    put_bytes(out, b"phase\n")?;
    for job in phase.jobs.as_slice() {
        put_job(out, job)?;
    }
    put_bytes(out, b"endphase\n")?;
    Ok(())
}

fn put_job(out: &mut Vec<u8>, job: &Job) -> Result<(), NoMemory>
    ensures text { OnOk result (out.new.items ≡ out.old.items ++ ended (job_lines job.now)) }
    ensures parts { OnOk result (AreLines (job_lines job.now)) }
{
    put_head(out, job)?;
    for command in job.commands.as_slice() {
        put_line(out, command)?;
    }
    put_bytes(out, b"endjob\n")?;
    Ok(())
}

/// Appends the first line of a job.
fn put_head(out: &mut Vec<u8>, job: &Job) -> Result<(), NoMemory>
    ensures text { OnOk result (out.new.items ≡ out.old.items ++ (line_text (BeginJob job.now.name job.now.priority job.now.asleep job.now.rule) ++ 10 ∷ [])) }
    ensures parts { OnOk result (IsLine (BeginJob job.now.name job.now.priority job.now.asleep job.now.rule)) }
{
    put_three(
        out,
        b"job",
        name_word(&job.name),
        priority_word(job.priority),
    )?;
    put_start(out, job.asleep, &job.rule)?;
    put_bytes(out, b"\n")?;
    Ok(())
}

/// Appends whether a job is scheduled asleep, and its rule, with a space in front of each word.
fn put_start(out: &mut Vec<u8>, asleep: bool, rule: &ScriptRule) -> Result<(), NoMemory>
    ensures text { OnOk result (out.new.items ≡ out.old.items ++ spaced (asleep_parts asleep ++ rule_parts rule.now)) }
    ensures parts { OnOk result (AreParts (asleep_parts asleep ++ rule_parts rule.now)) }
    ensures same { OnOk result (rule_read rule.now ≡ rule.now) }
{
    put_asleep(out, asleep)?;
    put_rule(out, rule)
}

fn put_asleep(out: &mut Vec<u8>, asleep: bool) -> Result<(), NoMemory>
    ensures text { OnOk result (out.new.items ≡ out.old.items ++ spaced (asleep_parts asleep)) }
    ensures parts { AreParts (asleep_parts asleep) }
{
    if asleep {
        put_next(out, b"asleep")
    } else {
        Ok(())
    }
}

/// Appends a command's line.
fn put_line(out: &mut Vec<u8>, command: &Command) -> Result<(), NoMemory>
    ensures text { OnOk result (out.new.items ≡ out.old.items ++ (line_text (InJob command.now) ++ 10 ∷ [])) }
    ensures parts { OnOk result (IsLine (InJob command.now)) }
{
    put_commanding(out, command)?;
    put_bytes(out, b"\n")
}

/// Appends a command as a script has it, without an end of line. After want of memory a part of it may have been
/// appended, and what stood there before stays in front.
pub fn put_command(out: &mut Vec<u8>, command: &Command) -> Result<(), NoMemory>
    ensures text { OnOk result (out.new.items ≡ out.old.items ++ command_text command.now) }
    ensures kept { Grows out.old.items out.new.items }
{
    put_commanding(out, command)
}

fn put_commanding(out: &mut Vec<u8>, command: &Command) -> Result<(), NoMemory>
    ensures text { OnOk result (out.new.items ≡ out.old.items ++ command_text command.now) }
    ensures kept { Grows out.old.items out.new.items }
    ensures parts { OnOk result (AreParts (command_parts command.now)) }
    ensures same { OnOk result (command_read command.now ≡ command.now) }
{
    match command {
        Command::Operation(op) => put_doing(out, op),
        Command::Batch => put_bytes(out, b"batch"),
        Command::EndBatch => put_bytes(out, b"endbatch"),
        Command::Checkpoint => put_bytes(out, b"checkpoint"),
        Command::Begin(rule) => put_ruled(out, b"begin", rule),
        Command::TryBegin(rule) => put_ruled(out, b"trybegin", rule),
        Command::End(rule) => put_ruled(out, b"end", rule),
        Command::Sleep(name) => put_two(out, b"sleep", name_word(name)),
        Command::Wake(name) => put_two(out, b"wake", name_word(name)),
        Command::Cancel(name) => put_two(out, b"cancel", name_word(name)),
        Command::Build(kind, project) => put_build(out, *kind, project),
        Command::Save(kind) => put_two(out, b"save", save_word(*kind)),
    }
}

/// Appends a verb and a rule.
fn put_ruled(out: &mut Vec<u8>, verb: &[u8], rule: &ScriptRule) -> Result<(), NoMemory>
    ensures text { OnOk result (out.new.items ≡ out.old.items ++ parts_text (keyword verb.now ∷ rule_parts rule.now)) }
    ensures kept { Grows out.old.items out.new.items }
    ensures parts { OnOk result (AreParts (rule_parts rule.now)) }
    ensures same { OnOk result (rule_read rule.now ≡ rule.now) }
{
    put_word(out, verb)?;
    put_rule(out, rule)?;
    Ok(())
}

/// Appends the line of a build, without its end.
fn put_build(out: &mut Vec<u8>, kind: BuildKind, project: &Option<Name>) -> Result<(), NoMemory>
    ensures text { OnOk result (out.new.items ≡ out.old.items ++ command_text (Build kind project.now)) }
    ensures kept { Grows out.old.items out.new.items }
    ensures parts { OnOk result (AreParts (command_parts (Build kind project.now))) }
{
    put_two(out, b"build", kind_word(kind))?;
    put_scope(out, project)?;
    Ok(())
}

fn kind_word(kind: BuildKind) -> &'static [u8]
    ensures word { result.now ≡ kind_word kind }
    ensures bare { is_bare result.now ≡ true }
{
    match kind {
        BuildKind::Full => b"full",
        BuildKind::Auto => b"auto",
        BuildKind::Incremental => b"incr",
        BuildKind::Clean => b"clean",
    }
}

fn save_word(kind: SaveKind) -> &'static [u8]
    ensures word { result.now ≡ save_word kind }
    ensures bare { is_bare result.now ≡ true }
{
    match kind {
        SaveKind::Full => b"full",
        SaveKind::Snapshot => b"snapshot",
    }
}

fn priority_word(priority: Priority) -> &'static [u8]
    ensures { result.now ≡ priority_word priority }
{
    match priority {
        Priority::Interactive => b"10",
        Priority::Short => b"20",
        Priority::Long => b"30",
        Priority::Build => b"40",
        Priority::Decorate => b"50",
    }
}
