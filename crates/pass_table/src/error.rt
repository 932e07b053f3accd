//! Why a transfer of rules is refused.

/// Why a pass's rules aren't handed to another.
#[derive(Clone, Copy, Debug, PartialEq, Eq)]
pub enum TransferError {
    /// There is no such pass.
    NoPass,
    /// The pass has no rule.
    HoldsNothing,
    /// The other has a rule.
    TargetHolds,
}
