//! Tests of builders, of the standard ones, and of what these share. What their rows give was worked by hand.
//!
//! - `asserting`: the assertions.
//! - `rows`: a table of rows, and how a row is told.
//! - `views`: files and what is handed, as they are written in rows.
//! - `deltas`: deltas, as they are written in rows.
//! - `edits`: edits and problems as they are told.
//! - `building`: builders in order, called by name.
//! - `copying`: `copy`, and what the builders share.
//! - `joining`: `concat`.
//! - `expanding`: `expand`.
//! - `lines`: lines that include files.
//! - `texts`: texts as these are written in rows.
#![tactic(auto)]

#[cfg(test)]
mod asserting;
#[cfg(test)]
mod building;
#[cfg(test)]
mod copying;
#[cfg(test)]
mod deltas;
#[cfg(test)]
mod edits;
#[cfg(test)]
mod expanding;
#[cfg(test)]
mod joining;
#[cfg(test)]
mod lines;
#[cfg(test)]
mod rows;
#[cfg(test)]
mod texts;
#[cfg(test)]
mod views;
