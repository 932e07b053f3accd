//! The script that a number gives is run.
ghost use Rattle.std.specs.Prelude.{◌⊎◌, map};
ghost use Rattle.builder_api.specs.Told.{HaveMeanings};
ghost use Rattle.script_gen.specs.Generated.{generated};
ghost use Rattle.ws_opening.specs.Opened.{opened_state};
ghost use Rattle.ws_top.specs.Builds.{MakesBuilds};
ghost use Rattle.ws_top.specs.Inside.Opening.{OpensAreas};
ghost use Rattle.ws_top.specs.Inside.Parts.{Performs, IsRefused};
ghost use Rattle.ws_top.specs.Outcomes.{Shuffle, CutShuffle, StoppedShuffle, HaveTakenPart, HearsNotices};
ghost use Rattle.ws_top.specs.Texts.{report_of};

use crate::kit::{Areas, Kit};
use crate::report::Telling;
use crate::response::{Outcome, perform, want};
use builder_api::{Builder, Meanings};
use save_parts::Listener;
use save_round::Participant;
use script_gen::generate;
use std::alloc::Global;
use ws_outside::{Disk, Sink};

/// Opens the areas, and runs the script that the number gives on the workspace that they hold. A summary of what was done is
/// told.
pub fn load<K: Sink, D: Disk, L: Listener, B: Builder, P: Participant, M: Meanings>(
    alloc: Global,
    sink: &mut K,
    areas: Areas<D>,
    kit: Kit<L, B, P>,
    number: u32,
) -> Outcome<D, L, B, P>
    requires means { HaveMeanings M.meaning (map (λ b. B.tells b) kit.builders) }
    ensures performs { Performs (Shuffle M.meaning (opened_state result.kept (map (λ b. B.tells b) kit.builders)) (generated number)) (CutShuffle M.meaning (opened_state result.kept (map (λ b. B.tells b) kit.builders)) (generated number)) (StoppedShuffle M.meaning (opened_state result.kept (map (λ b. B.tells b) kit.builders)) (generated number)) result.kept (report_of Telling.Summary (map (λ p. P.tells p) kit.participants)) (opened_state result.kept (map (λ b. B.tells b) kit.builders)) (K.written sink.old) (K.written sink.new) (K.faults sink.old) (K.faults sink.new) result.status result.history ⊎ IsRefused result.kept result.status result.history }
    ensures areas { OpensAreas D.moment D.left_since D.may_leave D.seen D.faults areas.disk result.areas.disk (K.written sink.old) (K.written sink.new) (K.faults sink.old) (K.faults sink.new) result.kept (opened_state result.kept (map (λ b. B.tells b) kit.builders)) result.status result.history }
    ensures heard { HearsNotices (opened_state result.kept (map (λ b. B.tells b) kit.builders)) result.status result.history (map (λ l. L.heard l) kit.listeners) (map (λ l. L.heard l) result.kit.listeners) }
    ensures builds { MakesBuilds M.meaning (opened_state result.kept (map (λ b. B.tells b) kit.builders)) result.history (map (λ b. B.tells b) kit.builders) (map (λ b. B.tells b) result.kit.builders) }
    ensures participants { HaveTakenPart result.kept (opened_state result.kept (map (λ b. B.tells b) kit.builders)) result.status result.history (map (λ p. P.tells p) kit.participants) (map (λ p. P.tells p) result.kit.participants) }
{
    match generate(alloc, number) {
        Ok(script) => {
            perform::<K, D, L, B, P, M>(alloc, sink, areas, kit, script, Telling::Summary)
        }
        Err(_) => want(alloc, sink, areas, kit),
    }
}
