//! What a build of one pass is among others' entries, by the pass's own entries alone.
//!
//! There is no code here. specs/ has the relation, `Among`; proofs/ has how a build of a pass comes to it, `Built`, and how the
//! first entries of one that was stopped are the first of a whole one, `Cutting`.
#![tactic(auto)]
