//! Tests of the core with what concerns the services: builds by one pass at a time.
//!
//! - `asserting`: the assertion, and what rows are taken apart by.
//! - `events`: events as they are written in rows.
//! - `services`: of these what concerns the services.
//! - `telling`: entries as rows tell them.
//! - `playing`: rows played on a core.
//! - `rows`: rows, whose replies were worked by hand.
#![tactic(auto)]

#[cfg(test)]
mod asserting;
#[cfg(test)]
mod events;
#[cfg(test)]
mod playing;
#[cfg(test)]
mod rows;
#[cfg(test)]
mod services;
#[cfg(test)]
mod telling;
