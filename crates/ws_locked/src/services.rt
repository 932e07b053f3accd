//! What one pass at a time has.
use builder_api::{Builder, Builders};
use elem_tree::LayerTree;
use save_host::Keeper;
use save_round::{Participant, Participants};
use std::snapshot::Snapshot;
use ws_core::Core;
use ws_outside::Disk;

/// What a pass has while it builds or saves: the store that the workspace is saved in, its builders and who takes part in
/// its saves.
#[derive(Drop)]
pub struct Services<D: Disk, B: Builder, P: Participant> {
    pub keeper: Keeper<D>,
    pub builders: Builders<B>,
    pub participants: Participants<P>,
}

/// With what a workspace was opened: its core, in which nothing was done, and the services. It has no bytes.
#[derive(Drop)]
pub struct Opening<D: Disk, B: Builder, P: Participant> {
    pub core: Snapshot<Core<LayerTree>>,
    pub keeper: Snapshot<Keeper<D>>,
    pub builders: Snapshot<Builders<B>>,
    pub participants: Snapshot<Participants<P>>,
}
