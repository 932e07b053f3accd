//! Tests of area_pair and area_store, over what they offer.
//!
//! - `asserting`: the assertions.
//! - `opened`: opening two areas, as one text.
//! - `areas`: a save's known bytes, and what is opened of areas that are changed.
//! - `stops`: saves, stopped or failed at every call.
//! - `looks`: what both areas hold.
//! - `files`: a store over two files of the system.
#![tactic(auto)]

#[cfg(test)]
mod areas;
#[cfg(test)]
mod asserting;
#[cfg(test)]
mod files;
#[cfg(test)]
mod looks;
#[cfg(test)]
mod opened;
#[cfg(test)]
mod stops;
