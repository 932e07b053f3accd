//! Tests of the core with several passes: each list of events over a tree with layers, and over one that is copied; and of
//! the script that a number gives.
//!
//! - `asserting`: the assertions, and what is cut from rows.
//! - `events`: events as texts of runs have them.
//! - `generated`: the script that a number gives.
//! - `playing`: events done on both cores.
//! - `rows`: lists of events, whose answers were worked by hand.
//! - `lists`: lists drawn at random.
#![tactic(auto)]

#[cfg(test)]
mod asserting;
#[cfg(test)]
mod events;
#[cfg(test)]
mod generated;
#[cfg(test)]
mod lists;
#[cfg(test)]
mod playing;
#[cfg(test)]
mod rows;
