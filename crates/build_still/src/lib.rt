//! While a command of a build is under way its inputs and its output stand still, whatever other passes do.
//! `specs/Still.antt` has the definitions; the laws stand in proofs/.
#![tactic(auto)]
