//! What the steps of the workspace's core are in the words of builds: what is handed is what is due, what a commit and a
//! cleaning leave is what builds owe, and all else leaves what builds see as it was.
//!
//! There is no code here. specs/ has `States`, what builds see of a moment of the core, and `Histories`, what a pass has
//! done of a build as a history tells it. The lemmas stand in proofs/: `Leaves` has what is told and what leaves all as it
//! was, `Handings`, `Commits` and `Checkouts` those events, `Stamps` that what was built last agrees with what is there,
//! `Sites` the commands at their places, `Kept` records and descriptions, `Entered` books that grow, `Turning` their
//! entries, and `Holding` that a build's pass has the rule of the root and the services.
#![tactic(auto)]
