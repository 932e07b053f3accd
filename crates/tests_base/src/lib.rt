//! Tests of res_path, sched_rules, rule_table, proj_desc, ws_turn and job_pool, over what these crates offer.
//!
//! - `asserting`: the assertions.
//! - `rows`: a table of rows, each of a word and its parts, and how a row is taken apart.
//! - `paths`, `atoms`, `tables`, `descriptions`: the words of the table.
//! - `intervals`: held rules over another kind of atom.
//! - `made_by_hand`: a description that is made by hand.
//! - `notebook`, `turns`: a lock round a small value, with threads.
//! - `pool`: workers that take numbers from a board, with threads.
#![tactic(auto)]

#[cfg(test)]
mod asserting;
#[cfg(test)]
mod atoms;
#[cfg(test)]
mod descriptions;
#[cfg(test)]
mod intervals;
#[cfg(test)]
mod made_by_hand;
#[cfg(test)]
mod notebook;
#[cfg(test)]
mod paths;
#[cfg(test)]
mod pool;
#[cfg(test)]
mod rows;
#[cfg(test)]
mod tables;
#[cfg(test)]
mod turns;
