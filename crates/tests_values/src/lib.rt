//! Tests of the values that a workspace is made of: markers, synchronisation bytes, elements, trees and deltas.
//!
//! What a row gives was worked by hand.
#![tactic(auto)]

#[cfg(test)]
mod asserting;
#[cfg(test)]
mod deltas;
#[cfg(test)]
mod elements;
#[cfg(test)]
mod marks;
#[cfg(test)]
mod rows;
#[cfg(test)]
mod syncs;
#[cfg(test)]
mod trees;
