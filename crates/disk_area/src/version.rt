// The versions of an area.

/// The version that is written.
pub(crate) const WRITTEN: u16 = 1;

/// The version that is read.
pub(crate) const READ: u16 = 1;
