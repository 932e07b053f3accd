//! Which line of a script the words of a line are.
ghost use Rattle.std.specs.Prelude.{◌≡◌, ◌≢◌, [], ◌∷◌, true, IfOk, MatchOption};
ghost use Rattle.script_lang.specs.declared.line.Line.TheVariants.{InJob};
ghost use Rattle.script_lang.specs.declared.script.Command.TheVariants.{Operation};
ghost use Rattle.script_lang.specs.Inside.Reading.{IsLineOf, IsStartFound, IsSleepFound};
ghost use Rattle.script_lang.specs.Commands.{kind_word, priority_word, save_word};
ghost use Rattle.script_parts.specs.Parts.{keyword, scope_parts};
ghost use Rattle.script_parts.specs.Inside.Found.{IsFound, IsPairFound, IsPartFound};
ghost use Rattle.script_ops.specs.Inside.Verbs.{begun_with, stands_alone, begins_operation};

use crate::NoMemory;
use crate::line::Line;
use crate::script::{Command, Priority};
use builder_api::BuildKind;
use op_kind::Op;
use res_path::Name;
use save_kind::SaveKind;
use script_ops::{Verb, operation_with, verb_of};
use script_parts::{ScriptRule, is_key, name_alone, name_of, rule_of, scope_alone};
use script_words::Token;
use std::alloc::Global;

/// What a line of these words says, where a script may have it.
pub fn line_of(alloc: Global, tokens: &mut [Token]) -> Result<Option<Line>, NoMemory>
    ensures { IfOk result (IsLineOf tokens.old) }
{
    let [first, rest @ ..] = tokens else {
        return Ok(None);
    };
    match verb_of(first) {
        None => Ok(None),
        Some(verb) => line_with(alloc, verb, rest),
    }
}

/// The line that begins with the verb and goes on with these tokens.
fn line_with(alloc: Global, verb: Verb, rest: &mut [Token]) -> Result<Option<Line>, NoMemory>
    ensures { IfOk result (IsLineOf (begun_with verb rest.old)) }
{
    match verb {
        Verb::Job => job_line(alloc, rest),
        Verb::Begin => begin_line(alloc, rest),
        Verb::TryBegin => try_begin_line(alloc, rest),
        Verb::End => end_line(alloc, rest),
        Verb::Sleep => Ok(sleep_line(rest)),
        Verb::Wake => Ok(wake_line(rest)),
        Verb::Cancel => Ok(cancel_line(rest)),
        Verb::Build => Ok(build_line(rest)),
        Verb::Save => Ok(save_line(rest)),
        Verb::Phase
        | Verb::EndPhase
        | Verb::EndJob
        | Verb::Batch
        | Verb::EndBatch
        | Verb::Checkpoint => Ok(lone_line(verb, rest)),
        _ => operation_line(alloc, verb, rest),
    }
}

/// The line of an operation that begins with the verb and goes on with these tokens.
fn operation_line(alloc: Global, verb: Verb, rest: &mut [Token]) -> Result<Option<Line>, NoMemory>
    requires { begins_operation verb ≡ true }
    ensures { IfOk result (IsLineOf (begun_with verb rest.old)) }
{
    match operation_with(alloc, verb, rest)? {
        None => Ok(None),
        Some(op) => Ok(Some(doing(op))),
    }
}

/// The line that is its verb alone.
fn lone_line(verb: Verb, rest: &[Token]) -> Option<Line>
    requires { stands_alone verb ≡ true }
    ensures { IsLineOf (begun_with verb rest.now) result }
{
    match verb {
        Verb::Phase => alone(rest, Line::BeginPhase),
        Verb::EndPhase => alone(rest, Line::EndPhase),
        Verb::EndJob => alone(rest, Line::EndJob),
        Verb::Batch => alone(rest, Line::InJob(Command::Batch)),
        Verb::EndBatch => alone(rest, Line::InJob(Command::EndBatch)),
        Verb::Checkpoint => alone(rest, Line::InJob(Command::Checkpoint)),
        _ => None,
    }
}

/// The line, where it has no more words than its verb.
fn alone(rest: &[Token], line: Line) -> Option<Line>
    ensures { MatchOption result (rest.now ≢ []) (λ found. (found ≡ line) × (rest.now ≡ [])) }
{
    if rest.is_empty() {
        return Some(line);
    }
    drop(line);
    None
}

fn job_line(alloc: Global, rest: &[Token]) -> Result<Option<Line>, NoMemory>
    ensures { IfOk result (IsLineOf (begun_with Verb.Job rest.now)) }
{
    let [name, priority, start @ ..] = rest else {
        return Ok(None);
    };
    let Some(priority) = priority_of(priority) else {
        return Ok(None);
    };
    let Some(name) = name_of(name)? else {
        return Ok(None);
    };
    match start_of(alloc, start)? {
        None => Ok(None),
        Some((asleep, rule)) => Ok(Some(Line::BeginJob(name, priority, asleep, rule))),
    }
}

/// Whether a job is scheduled asleep, and its rule.
fn start_of(alloc: Global, tokens: &[Token]) -> Result<Option<(bool, ScriptRule)>, NoMemory>
    ensures { IfOk result (IsStartFound tokens.now) }
{
    let (asleep, rest) = sleep_of(tokens);
    match rule_of(alloc, rest)? {
        None => Ok(None),
        Some(rule) => Ok(Some((asleep, rule))),
    }
}

/// Whether the tokens begin with `asleep`, and those behind it.
fn sleep_of(tokens: &[Token]) -> (bool, &[Token])
    ensures { IsSleepFound tokens.now result.0 result.1.now }
{
    let [first, rest @ ..] = tokens else {
        return (false, tokens);
    };
    if is_key(first, b"asleep") {
        (true, rest)
    } else {
        (false, tokens)
    }
}

fn begin_line(alloc: Global, rest: &[Token]) -> Result<Option<Line>, NoMemory>
    ensures { IfOk result (IsLineOf (begun_with Verb.Begin rest.now)) }
{
    match rule_of(alloc, rest)? {
        None => Ok(None),
        Some(rule) => Ok(Some(Line::InJob(Command::Begin(rule)))),
    }
}

fn try_begin_line(alloc: Global, rest: &[Token]) -> Result<Option<Line>, NoMemory>
    ensures { IfOk result (IsLineOf (begun_with Verb.TryBegin rest.now)) }
{
    match rule_of(alloc, rest)? {
        None => Ok(None),
        Some(rule) => Ok(Some(Line::InJob(Command::TryBegin(rule)))),
    }
}

fn end_line(alloc: Global, rest: &[Token]) -> Result<Option<Line>, NoMemory>
    ensures { IfOk result (IsLineOf (begun_with Verb.End rest.now)) }
{
    match rule_of(alloc, rest)? {
        None => Ok(None),
        Some(rule) => Ok(Some(Line::InJob(Command::End(rule)))),
    }
}

fn sleep_line(rest: &mut [Token]) -> Option<Line>
    ensures { IsLineOf (begun_with Verb.Sleep rest.old) result }
{
    match name_alone(rest) {
        None => None,
        Some(name) => Some(Line::InJob(Command::Sleep(name))),
    }
}

fn wake_line(rest: &mut [Token]) -> Option<Line>
    ensures { IsLineOf (begun_with Verb.Wake rest.old) result }
{
    match name_alone(rest) {
        None => None,
        Some(name) => Some(Line::InJob(Command::Wake(name))),
    }
}

fn cancel_line(rest: &mut [Token]) -> Option<Line>
    ensures { IsLineOf (begun_with Verb.Cancel rest.old) result }
{
    match name_alone(rest) {
        None => None,
        Some(name) => Some(Line::InJob(Command::Cancel(name))),
    }
}

fn build_line(rest: &mut [Token]) -> Option<Line>
    ensures { IsLineOf (begun_with Verb.Build rest.old) result }
{
    match kind_and_scope(rest) {
        None => None,
        Some((kind, project)) => Some(Line::InJob(Command::Build(kind, project))),
    }
}

/// The kind of a build, and the one project that is built, if it is one.
#[tactic(auto, using(script_parts::proofs::Fitting::fit_size))]
fn kind_and_scope(tokens: &mut [Token]) -> Option<(BuildKind, Option<Name>)>
    ensures { IsPairFound (λ kind project. keyword (kind_word kind) ∷ scope_parts project) tokens.old result }
{
    let [kind, scope @ ..] = tokens else {
        return None;
    };
    let Some(kind) = kind_of(kind) else {
        return None;
    };
    match scope_alone(scope) {
        None => None,
        Some(project) => Some((kind, project)),
    }
}

fn save_line(rest: &[Token]) -> Option<Line>
    ensures { IsLineOf (begun_with Verb.Save rest.now) result }
{
    match saved_alone(rest) {
        None => None,
        Some(kind) => Some(Line::InJob(Command::Save(kind))),
    }
}

/// The kind of a save, and nothing else.
#[tactic(auto, using(script_parts::proofs::Fitting::fit_size))]
fn saved_alone(tokens: &[Token]) -> Option<SaveKind>
    ensures { IsFound (λ kind. keyword (save_word kind) ∷ []) tokens.now result }
{
    match tokens {
        [kind] => saved_of(kind),
        _ => None,
    }
}

/// The line of an operation.
fn doing(op: Op) -> Line
    ensures { result ≡ InJob (Operation op) }
{
    Line::InJob(Command::Operation(op))
}

/// The priority that the token is.
fn priority_of(token: &Token) -> Option<Priority>
    ensures { IsPartFound (λ priority. keyword (priority_word priority)) token.now result }
{
    if is_key(token, b"10") {
        return Some(Priority::Interactive);
    }
    if is_key(token, b"20") {
        return Some(Priority::Short);
    }
    if is_key(token, b"30") {
        return Some(Priority::Long);
    }
    if is_key(token, b"40") {
        return Some(Priority::Build);
    }
    if is_key(token, b"50") {
        return Some(Priority::Decorate);
    }
    None
}

/// The kind of a build that the token is.
fn kind_of(token: &Token) -> Option<BuildKind>
    ensures { IsPartFound (λ kind. keyword (kind_word kind)) token.now result }
{
    if is_key(token, b"full") {
        return Some(BuildKind::Full);
    }
    if is_key(token, b"auto") {
        return Some(BuildKind::Auto);
    }
    if is_key(token, b"incr") {
        return Some(BuildKind::Incremental);
    }
    if is_key(token, b"clean") {
        return Some(BuildKind::Clean);
    }
    None
}

/// The kind of a save that the token is.
fn saved_of(token: &Token) -> Option<SaveKind>
    ensures { IsPartFound (λ kind. keyword (save_word kind)) token.now result }
{
    if is_key(token, b"full") {
        return Some(SaveKind::Full);
    }
    if is_key(token, b"snapshot") {
        return Some(SaveKind::Snapshot);
    }
    None
}
