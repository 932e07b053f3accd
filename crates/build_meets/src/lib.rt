//! A commit and a cleaning of an output are what builds owe: they leave what `IsCommitted` and `IsCleaned` say.
//!
//! There is no code here: the lemmas stand in proofs/. `Meets` has them for both calls, and `Counted` tells that the files
//! that a commit counts as touched are those that differ.
#![tactic(auto)]
