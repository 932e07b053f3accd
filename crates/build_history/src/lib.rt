//! What a history of the core tells of builds: for what builders were called, whether what was committed is right, whether
//! builders failed as outcomes tell, what builds that settled left, and which events keep what was built last sound.
//!
//! There is no code here. specs/ has `Events`, which events are those of builds, `Calls`, for what the entries of a history
//! call builders, `Handings`, what was handed last at each of them, what is right for it and what outcomes tell of it, and
//! `Settled`, what holds where a build settled. The lemmas stand in proofs/: `Called`, `Answered` and `Settling` have that
//! this holds of the entries of a build that was answered or that memory stopped, and `Handings` and `Settling` how it goes
//! on over histories; `Sounds` has that each event that commits nothing keeps records sound. Below these, `Calls`,
//! `Handings`, `Settled` and `Keeping` go along a history and its entries as builds read them, `Went` and `Parts` have of
//! what the entries of a build are made, `Others` which events and entries ask nothing of the services for a build, `Counts`
//! how failure counts rise, `Names` that the builders' names stay, and `Lists` what holds of all lists.
#![tactic(auto)]
