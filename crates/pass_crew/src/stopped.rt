//! Runs that stopped early.

/// Why a pass that was to leave is still there.
#[derive(Clone, Copy, Debug, PartialEq, Eq)]
pub enum Stays {
    /// It has something that it must give back first.
    Busy,
    Memory,
}

/// A run that stopped early.
#[derive(Drop)]
pub struct Stopped<P> {
    /// What it stopped for; `Busy` only where a pass that had done all its work was to leave.
    pub why: Stays,
    /// The passes that are still there, but for pass 0.
    pub left: Vec<P>,
}
