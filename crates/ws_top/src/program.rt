//! The one call of the program.
ghost use Rattle.std.specs.Prelude.{◌≡◌, ◌↔◌, ◌⊎◌, ◌≢◌, ℕ, [], map, string_bytes, Some, None, IfOk, IfErr, IfSome};
ghost use Rattle.builder_api.specs.Told.{HaveMeanings};
ghost use Rattle.phase_run.specs.Calm.{IsCalm};
ghost use Rattle.save_history.specs.Steps.{steps_of};
ghost use Rattle.ws_outside.specs.Faults.{Rose};
ghost use Rattle.ws_opening.specs.Opened.{opened_state};
ghost use Rattle.ws_top.specs.Areas.{FindsDamage, LeavesAreasOf, TellsDiskFault};
ghost use Rattle.ws_top.specs.Builds.{MakesBuilds};
ghost use Rattle.run_words.specs.Forms.{form_of, IsRun, IsCheck, Works, Touches, help_text, version_text};
ghost use Rattle.ws_top.specs.Inside.Opening.{OpensAreas};
ghost use Rattle.ws_top.specs.Inside.Parts.{unread_status, EndsRun};
ghost use Rattle.ws_top.specs.Outcomes.{IsStatus, TellsReadFault, TellsWriteFault, TellsState, TellsUnopened, WasStoppedAs, Completes, ReadsNoMore, ReadsNothing, IsOneThread, HaveTakenPart, HearsNotices, RunsScript, LoadsScript, WasUnread, WasIdle, Checks, Writes, Tells, TellsScript, EndsProgram};
ghost use Rattle.ws_top.specs.Texts.{status_line};

use crate::NoMemory;
use crate::checking::check;
use crate::generating::tell_script;
use crate::kit::{Areas, Kit};
use crate::loading::load;
use crate::reading::{Unread, read_all};
use crate::response::{Outcome, respond, stop, tell, want};
use builder_api::{Builder, Meanings};
use run_words::{Form, form_of};
use save_parts::Listener;
use save_round::Participant;
use std::alloc::Global;
use ws_outside::{Disk, Sink, Source};

const HELP: &str =
    "wsrun run A B\n\nRuns the script on standard input, on the workspace that the area files A and B hold, and prints what was done. A save goes into these files.\n\nwsrun check A B\n\nPrints what the area files A and B hold.\n\nwsrun gen N\n\nPrints the script that the number N gives, which has at most nine digits.\n\nwsrun load N A B\n\nRuns that script on the workspace that A and B hold, as run does, and prints how many jobs were finished, how many builds settled, how many elements the workspace has then, and the digest of its tree.\n";

const VERSION: &str = "wsrun 0.1.0\n";

/// Runs the program: reads the script from the source, opens the areas, gives the kit's participants back what they kept,
/// runs the script on the workspace that the areas hold by one worker, whose builds call the kit's builders and whose saves
/// go into the areas, tells the listeners after each phase what it changed, and writes to the sink what was given back,
/// asked, answered and told. Or does the same with the script that a number gives, of which it writes a summary. Or tells what
/// the areas hold, or that script itself.
///
/// The one condition: of the kit's builders, the first of each name for which `M` has a meaning has that meaning. A caller
/// that claims nothing of its builders picks `Silent`.
pub fn top<S: Source, K: Sink, D: Disk, L: Listener, B: Builder, P: Participant, M: Meanings>(
    alloc: Global,
    words: &[String],
    source: &mut S,
    sink: &mut K,
    areas: Areas<D>,
    kit: Kit<L, B, P>,
) -> Outcome<D, L, B, P>
    requires means { HaveMeanings M.meaning (map (λ b. B.tells b) kit.builders) }
    // which status it is
    ensures status { IsStatus result.status }
    ensures usage { (result.status ≡ 2) ↔ (form_of (map string_bytes words.now) ≡ None) }
    ensures read_fault { TellsReadFault (S.faults source.old) (S.faults source.new) result.status }
    ensures disk_fault { TellsDiskFault (D.faults areas.disk) (D.faults result.areas.disk) result.status }
    ensures unfailed { result.kept ≡ None → result.status ≢ 5 → D.faults result.areas.disk ≡ D.faults areas.disk }
    ensures write_fault { TellsWriteFault result.kept (K.faults sink.old) (K.faults sink.new) result.status (WasStoppedAs (form_of (map string_bytes words.now)) M.meaning (opened_state result.kept (map (λ b. B.tells b) kit.builders)) (S.left source.old) (S.left source.new) result.history) }
    ensures damaged { Touches (form_of (map string_bytes words.now)) → IfSome (D.seen areas.disk) (λ both. FindsDamage both result.status) }
    ensures complete { IsRun (form_of (map string_bytes words.now)) → Completes (S.left source.old) (D.seen areas.disk) (Rose (S.faults source.old) (S.faults source.new)) (Rose (K.faults sink.old) (K.faults sink.new)) (Rose (D.faults areas.disk) (D.faults result.areas.disk)) result.status }
    // what is read, and what is opened
    ensures reads { ReadsNoMore (S.left source.old) (S.left source.new) (S.reads source.old) (S.reads source.new) result.status }
    ensures opens { Works (form_of (map string_bytes words.now)) → TellsState result.kept (D.seen areas.disk) result.status result.history }
    ensures none { (Works (form_of (map string_bytes words.now)) → ⊥) → result.kept ≡ None }
    // what is done, and what of it is written
    ensures thread { IsOneThread (opened_state result.kept (map (λ b. B.tells b) kit.builders)) result.history }
    ensures runs { IsRun (form_of (map string_bytes words.now)) → RunsScript M.meaning result.kept (map (λ p. P.tells p) kit.participants) (opened_state result.kept (map (λ b. B.tells b) kit.builders)) (S.left source.old) (S.left source.new) (K.written sink.old) (K.written sink.new) (K.faults sink.old) (K.faults sink.new) result.status result.history }
    ensures calm { result.status ≢ 8 → IsCalm result.history }
    ensures heard { HearsNotices (opened_state result.kept (map (λ b. B.tells b) kit.builders)) result.status result.history (map (λ l. L.heard l) kit.listeners) (map (λ l. L.heard l) result.kit.listeners) }
    ensures builds { MakesBuilds M.meaning (opened_state result.kept (map (λ b. B.tells b) kit.builders)) result.history (map (λ b. B.tells b) kit.builders) (map (λ b. B.tells b) result.kit.builders) }
    ensures participants { HaveTakenPart result.kept (opened_state result.kept (map (λ b. B.tells b) kit.builders)) result.status result.history (map (λ p. P.tells p) kit.participants) (map (λ p. P.tells p) result.kit.participants) }
    ensures line { WasUnread result.status → Writes (K.written sink.old) (K.written sink.new) (K.faults sink.old) (K.faults sink.new) (status_line result.status) }
    ensures unopened { TellsUnopened result.kept (D.seen areas.disk) (K.written sink.old) (K.written sink.new) (K.faults sink.old) (K.faults sink.new) result.status result.history }
    // what becomes of the areas
    ensures leaves { LeavesAreasOf D.moment D.left_since D.may_leave D.seen D.faults areas.disk result.areas.disk result.kept (opened_state result.kept (map (λ b. B.tells b) kit.builders)) result.history }
    ensures unsaved { steps_of result.history ≡ [] → D.seen result.areas.disk ≡ D.seen areas.disk }
    ensures untouched { (Touches (form_of (map string_bytes words.now)) → ⊥) ⊎ WasIdle result.status → result.areas.disk ≡ areas.disk }
    ensures loads { (number : ℕ) → form_of (map string_bytes words.now) ≡ Some (Form.Load number) → LoadsScript M.meaning number result.kept (opened_state result.kept (map (λ b. B.tells b) kit.builders)) (D.seen areas.disk) (D.faults areas.disk) (D.faults result.areas.disk) (K.written sink.old) (K.written sink.new) (K.faults sink.old) (K.faults sink.new) result.status result.history }
    // the other forms write their text and do nothing else
    ensures checks { IsCheck (form_of (map string_bytes words.now)) → Checks (D.seen areas.disk) (D.faults areas.disk) (D.faults result.areas.disk) (K.written sink.old) (K.written sink.new) (K.faults sink.old) (K.faults sink.new) result.status }
    ensures generates { (number : ℕ) → form_of (map string_bytes words.now) ≡ Some (Form.Generate number) → TellsScript number (K.written sink.old) (K.written sink.new) (K.faults sink.old) (K.faults sink.new) result.status }
    ensures help { form_of (map string_bytes words.now) ≡ Some Form.Help → Tells help_text (K.written sink.old) (K.written sink.new) (K.faults sink.old) (K.faults sink.new) result.status }
    ensures version { form_of (map string_bytes words.now) ≡ Some Form.Version → Tells version_text (K.written sink.old) (K.written sink.new) (K.faults sink.old) (K.faults sink.new) result.status }
    ensures unread { (IsRun (form_of (map string_bytes words.now)) → ⊥) → ReadsNothing (S.left source.old) (S.left source.new) (S.reads source.old) (S.reads source.new) (S.faults source.old) (S.faults source.new) }
    ensures undone { (Works (form_of (map string_bytes words.now)) → ⊥) → result.history ≡ [] }
    ensures uncalled { (Works (form_of (map string_bytes words.now)) → ⊥) → result.kit ≡ kit }
{
    match form_of(words) {
        None => stop(alloc, sink, areas, kit, 2, b"status 2\n"),
        Some(Form::Help) => tell(alloc, sink, areas, kit, HELP.as_bytes()),
        Some(Form::Version) => tell(alloc, sink, areas, kit, VERSION.as_bytes()),
        Some(Form::Check) => check(alloc, sink, areas, kit),
        Some(Form::Generate(number)) => tell_script(alloc, sink, areas, kit, number),
        Some(Form::Load(number)) => load::<K, D, L, B, P, M>(alloc, sink, areas, kit, number),
        Some(Form::Run) => run::<S, K, D, L, B, P, M>(alloc, source, sink, areas, kit),
    }
}

/// Runs the program as `top` does, on the words with which it was called. Where memory wanted for these, the status is 8,
/// nothing is read and the areas aren't touched.
pub fn answer<S: Source, K: Sink, D: Disk, L: Listener, B: Builder, P: Participant, M: Meanings>(
    alloc: Global,
    words: Result<Vec<String>, NoMemory>,
    source: &mut S,
    sink: &mut K,
    areas: Areas<D>,
    kit: Kit<L, B, P>,
) -> Outcome<D, L, B, P>
    requires means { HaveMeanings M.meaning (map (λ b. B.tells b) kit.builders) }
    ensures ends { IfOk words (λ given. EndsProgram M.meaning result.kept (map (λ b. B.tells b) kit.builders) (map (λ p. P.tells p) kit.participants) (form_of (map string_bytes given.items)) (S.left source.old) (S.left source.new) (S.reads source.old) (S.reads source.new) (S.faults source.old) (S.faults source.new)
        (D.seen areas.disk) (D.faults areas.disk) (D.faults result.areas.disk) (K.written sink.old) (K.written sink.new) (K.faults sink.old) (K.faults sink.new) result.status result.history) }
    ensures heard { HearsNotices (opened_state result.kept (map (λ b. B.tells b) kit.builders)) result.status result.history (map (λ l. L.heard l) kit.listeners) (map (λ l. L.heard l) result.kit.listeners) }
    ensures builds { MakesBuilds M.meaning (opened_state result.kept (map (λ b. B.tells b) kit.builders)) result.history (map (λ b. B.tells b) kit.builders) (map (λ b. B.tells b) result.kit.builders) }
    ensures participants { HaveTakenPart result.kept (opened_state result.kept (map (λ b. B.tells b) kit.builders)) result.status result.history (map (λ p. P.tells p) kit.participants) (map (λ p. P.tells p) result.kit.participants) }
    ensures leaves { LeavesAreasOf D.moment D.left_since D.may_leave D.seen D.faults areas.disk result.areas.disk result.kept (opened_state result.kept (map (λ b. B.tells b) kit.builders)) result.history }
    ensures unsaved { steps_of result.history ≡ [] → D.seen result.areas.disk ≡ D.seen areas.disk }
    ensures unfailed { result.kept ≡ None → result.status ≢ 5 → D.faults result.areas.disk ≡ D.faults areas.disk }
    ensures untouched { IfOk words (λ given. (Touches (form_of (map string_bytes given.items)) → ⊥) ⊎ WasIdle result.status → result.areas.disk ≡ areas.disk) }
    ensures uncalled { IfOk words (λ given. (Works (form_of (map string_bytes given.items)) → ⊥) → result.kit ≡ kit) }
    // where memory wanted for the words
    ensures memory { IfErr words (λ _. result.status ≡ 8) }
    ensures unread { IfErr words (λ _. ReadsNothing (S.left source.old) (S.left source.new) (S.reads source.old) (S.reads source.new) (S.faults source.old) (S.faults source.new)) }
    ensures nothing { IfErr words (λ _. result.history ≡ []) }
    ensures line { IfErr words (λ _. Writes (K.written sink.old) (K.written sink.new) (K.faults sink.old) (K.faults sink.new) (status_line 8)) }
    ensures areas { IfErr words (λ _. result.areas.disk ≡ areas.disk) }
    ensures kit { IfErr words (λ _. result.kit ≡ kit) }
    ensures none { IfErr words (λ _. result.kept ≡ None) }
{
    match words {
        Ok(words) => top::<S, K, D, L, B, P, M>(alloc, words.as_slice(), source, sink, areas, kit),
        Err(_) => want(alloc, sink, areas, kit),
    }
}

/// Reads the script and runs it.
fn run<S: Source, K: Sink, D: Disk, L: Listener, B: Builder, P: Participant, M: Meanings>(
    alloc: Global,
    source: &mut S,
    sink: &mut K,
    areas: Areas<D>,
    kit: Kit<L, B, P>,
) -> Outcome<D, L, B, P>
    requires means { HaveMeanings M.meaning (map (λ b. B.tells b) kit.builders) }
    ensures ends { EndsRun M.meaning result.kept (map (λ p. P.tells p) kit.participants) (opened_state result.kept (map (λ b. B.tells b) kit.builders)) (S.left source.old) (S.left source.new) (S.reads source.old) (S.reads source.new) (S.faults source.old) (S.faults source.new)
        (D.seen areas.disk) (D.faults areas.disk) (D.faults result.areas.disk) (K.written sink.old) (K.written sink.new) (K.faults sink.old) (K.faults sink.new) result.status result.history }
    ensures areas { OpensAreas D.moment D.left_since D.may_leave D.seen D.faults areas.disk result.areas.disk (K.written sink.old) (K.written sink.new) (K.faults sink.old) (K.faults sink.new) result.kept (opened_state result.kept (map (λ b. B.tells b) kit.builders)) result.status result.history }
    ensures heard { HearsNotices (opened_state result.kept (map (λ b. B.tells b) kit.builders)) result.status result.history (map (λ l. L.heard l) kit.listeners) (map (λ l. L.heard l) result.kit.listeners) }
    ensures builds { MakesBuilds M.meaning (opened_state result.kept (map (λ b. B.tells b) kit.builders)) result.history (map (λ b. B.tells b) kit.builders) (map (λ b. B.tells b) result.kit.builders) }
    ensures participants { HaveTakenPart result.kept (opened_state result.kept (map (λ b. B.tells b) kit.builders)) result.status result.history (map (λ p. P.tells p) kit.participants) (map (λ p. P.tells p) result.kit.participants) }
{
    match read_all(alloc, source) {
        Ok(bytes) => respond::<K, D, L, B, P, M>(alloc, sink, areas, kit, bytes),
        Err(error) => stop_unread(alloc, sink, areas, kit, error),
    }
}

/// Tells why the source was not read to its end.
fn stop_unread<K: Sink, D: Disk, L: Listener, B: Builder, P: Participant>(
    alloc: Global,
    sink: &mut K,
    areas: Areas<D>,
    kit: Kit<L, B, P>,
    error: Unread,
) -> Outcome<D, L, B, P>
    ensures status { result.status ≡ unread_status error }
    ensures line { Writes (K.written sink.old) (K.written sink.new) (K.faults sink.old) (K.faults sink.new) (status_line (unread_status error)) }
    ensures nothing { result.history ≡ [] }
    ensures none { result.kept ≡ None }
    ensures areas { result.areas ≡ areas }
    ensures kit { result.kit ≡ kit }
{
    match error {
        Unread::Fault => stop(alloc, sink, areas, kit, 3, b"status 3\n"),
        Unread::TooLong => stop(alloc, sink, areas, kit, 9, b"status 9\n"),
        Unread::Memory => want(alloc, sink, areas, kit),
    }
}
