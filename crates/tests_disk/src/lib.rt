//! Tests of ws_outside, ws_wire and disk_area, over what these crates offer.
//!
//! - `asserting`: the assertions.
//! - `rows`: tables.
//! - `fields`: known bytes, and edge lengths.
//! - `streams`: sources and sinks.
//! - `disks`: a disk in memory, by a table of calls and of what a crash leaves of them.
//! - `files`: a disk over two files of the system.
//! - `areas`: an area's known bytes, and what is read of it changed and cut at every byte.
//! - `crashes`: a save and its records, stopped or failed at every call.
#![tactic(auto)]

#[cfg(test)]
mod areas;
#[cfg(test)]
mod asserting;
#[cfg(test)]
mod crashes;
#[cfg(test)]
mod disks;
#[cfg(test)]
mod fields;
#[cfg(test)]
mod files;
#[cfg(test)]
mod rows;
#[cfg(test)]
mod streams;
