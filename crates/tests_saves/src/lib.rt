//! Tests of the store of what a workspace keeps.
//!
//! - `asserting`: the assertions.
//! - `states`: known states, by their images.
//! - `areas`: areas with an image and records, and with bytes that are changed.
//! - `opened`: opening two areas, as one text.
//! - `damages`: what areas are opened to, or their first damage.
//! - `places`: areas in which one byte is changed, at each place in turn.
//! - `looks`: what areas are told to hold.
//! - `saves`: what saves write, by its bytes, and when they are refused.
//! - `stops`: saves, stopped or failed at every call.
#![tactic(auto)]

#[cfg(test)]
mod areas;
#[cfg(test)]
mod asserting;
#[cfg(test)]
mod damages;
#[cfg(test)]
mod looks;
#[cfg(test)]
mod opened;
#[cfg(test)]
mod places;
#[cfg(test)]
mod saves;
#[cfg(test)]
mod states;
#[cfg(test)]
mod stops;
