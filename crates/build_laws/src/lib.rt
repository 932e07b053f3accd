//! What an incremental build is, and what follows of one that came through: each output is what its command makes of its
//! inputs, and without knots all files are those of a build from scratch.
//!
//! There is no code here. specs/ has the definitions: `States` what builds see of a workspace and what is due, `Commits`
//! what a commit and a cleaning leave, `Records` what is owed of what was built last, `Plans` commands in order and a build
//! from scratch, `Turns` what became of each command, `Builds` the rounds and groups of a build, `Planned` plans of valid
//! projects.
//!
//! proofs/ has the laws: `Commits` (what is fresh after a commit and what stays fresh), `Sounds` (a right commit leaves its
//! command fresh and the records sound), `Walks` (so after all turns of a build), `Scratches` (fresh files are those of a build
//! from scratch), `Ordered` (plans of valid projects are in order).
#![tactic(auto)]
