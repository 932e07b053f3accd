//! Builds of a pass of a shared workspace, beside what other passes do: what such a build is, and what carries over the
//! entries that others put between.
//!
//! There is no code here. specs/ has `Turns`, what a pass does in one turn of its own, `Beside`, the build of a pass in what
//! it has seen, and `Called`, for what the services entries of a build call builders. The lemmas stand in proofs/: `Below` and
//! `Batches` have what others leave of the table of passes, `Others` that they change markers alone for a pass that may build,
//! `Books` that so a build's book goes on, `Turns` what a turn is of a session, `Begins`, `Serves` and `Ends` the entries of a
//! build, and `Calls` that builders were called for what the services entries ask.
#![tactic(auto)]
