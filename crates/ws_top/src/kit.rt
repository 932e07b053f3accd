//! What a caller brings to a run.

use builder_api::{Builder, Builders};
use save_parts::{Listener, Listeners};
use save_round::{Participant, Participants};
use ws_outside::Disk;

/// The two areas that hold what a workspace keeps.
#[derive(Drop)]
pub struct Areas<D: Disk> {
    pub disk: D,
}

/// What the caller of a run brings beside its areas, and gets back with its outcome.
#[derive(Drop)]
pub struct Kit<L: Listener, B: Builder, P: Participant> {
    /// They are called by the builds of commands. Of those of one name the first counts.
    pub builders: Builders<B>,
    /// They are told after each phase what it changed.
    pub listeners: Listeners<L>,
    /// They take part in saves, and get back what they kept in the state that is opened. Of those of one name the first
    /// counts.
    pub participants: Participants<P>,
}
