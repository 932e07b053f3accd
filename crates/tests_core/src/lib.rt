//! Tests of the operations, scripts, texts and the program, of what no script can show. What their rows give
//! was worked by hand.
//!
//! - `asserting`: the assertions.
//! - `rows`: rows of tables, each of a command and what it gives.
//! - `running`: runs of the program in memory.
//! - `builders`: builders of a caller's own.
//! - `copies`: copies of what was done.
//! - `listening`: listeners of the program.
//! - `operations`: operations over a tree, and the way back before each.
//! - `scripts`: scripts read, copied and printed.
//! - `runs`: the program over sources and sinks that fail at each call.
//! - `areas`: the program over disks that fail at each call.
//! - `saves`: saves over such disks, and with participants that fail.
//! - `stops`: the program over what a crash leaves of a run that saves.
#![tactic(auto)]

#[cfg(test)]
mod areas;
#[cfg(test)]
mod asserting;
#[cfg(test)]
mod builders;
#[cfg(test)]
mod copies;
#[cfg(test)]
mod listening;
#[cfg(test)]
mod operations;
#[cfg(test)]
mod rows;
#[cfg(test)]
mod running;
#[cfg(test)]
mod runs;
#[cfg(test)]
mod saves;
#[cfg(test)]
mod scripts;
#[cfg(test)]
mod stops;
