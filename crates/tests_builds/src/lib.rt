//! Tests of the order of projects, of the queue of jobs, and of passes.
//!
//! - `asserting`: the assertions, and what tests make names of.
//! - `orders`: small workspaces, whose orders were worked by hand, row by row.
//! - `many`: workspaces of 10,000 projects, whose orders are told by arithmetic.
//! - `jobs`: calls of a queue, row by row.
//! - `passes`: calls of passes, row by row.
//! - `many_jobs`: 10,000 jobs, whose turns are told by arithmetic.
#![tactic(auto)]

#[cfg(test)]
mod asserting;
#[cfg(test)]
mod jobs;
#[cfg(test)]
mod many;
#[cfg(test)]
mod many_jobs;
#[cfg(test)]
mod orders;
#[cfg(test)]
mod passes;
