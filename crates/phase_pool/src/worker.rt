//! A worker.

/// A worker: its pass, and whether it has stopped.
#[derive(Drop)]
pub struct Worker<P> {
    pub pass: P,
    /// Memory wanted, for this worker or for another one, and it takes no job any more.
    pub stopped: bool,
}
