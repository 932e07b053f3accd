//! What one participant keeps.
use bytes::Bytes;
use res_path::Name;

/// What one participant keeps, as of a save. `M` is what stands for a remembered tree.
#[derive(Drop)]
pub struct State<M> {
    pub participant: Name,
    pub bytes: Bytes,
    /// The tree as it was then, where the participant asked for what changes.
    pub tree: Option<M>,
}

/// What a participant kept before its state was set in a save.
#[derive(Drop)]
pub struct Replaced<M> {
    pub participant: Name,
    /// The state that was replaced, where it kept one.
    pub before: Option<State<M>>,
}
