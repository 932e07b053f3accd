//! What every operation keeps that isn't refused: whole trees, and equal contents under equal stamps.
//!
//! There is no code here: the lemmas stand in proofs/. `SoundKept` has them for every operation, and `SoundFresh` has the
//! fresh workspace's resources.
#![tactic(auto)]
