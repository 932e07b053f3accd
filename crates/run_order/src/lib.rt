//! The order of a run: which histories N workers may make of some phases of jobs, however the entries of their passes lie
//! between one another.
//!
//! There is no code here. specs/ has the relation: `Plans` what a run is to make, `Lists` what lists of entries are made of,
//! `Parts` what a worker's pass makes, `Orders` the whole history; `Fronts` what is known where all passes meet, `Alone` what
//! holds of the jobs and passes of one worker, `Counts` how often jobs were scheduled and taken.
//!
//! proofs/ has how a run comes to it. For any number of workers: `Lists` and `Parts` for lists of entries and parts of jobs,
//! `Counted` for loops that have done so many, `Cancelling` for the jobs that sleep, `Whole` for phases and whole histories.
//! For one worker: `Idle` and `Waiting` for what its pass may take and do, `Written` for what the core adds to the history,
//! `Alone` for a phase. For N workers: `Meetings`, by what each pass made from one meeting of all to the next. `Taken` and
//! `Once` say that a phase takes its own jobs, each at most as often as it names it.
#![tactic(auto)]
