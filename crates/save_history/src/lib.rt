//! What a history of the core tells of saves, and the store of a run against it.
//!
//! There is no code here. specs/ has `Steps`, the steps of saves that entries make, `Points`, the states as which what the
//! areas hold may be read back, `Causes`, why a save ended as it did, `Kept`, what holds of a store for the points at
//! every moment and now, `Rounds`, the saves of a history and what participants tell of them, `Saves`, the entries of a
//! save command, and `Stages`, what each step of a save leaves, and a whole one. The lemmas stand in proofs/: `Safe` has
//! that what holds of a store goes on over entries, and `Stages` and `Saved` that the core's steps leave what they are
//! said to leave, one by one and of a whole save; `Rounds` has what participants tell of histories that go on. Below
//! these, `Walks` goes along histories, `Points` has what holds of points, `Backed` of a store and points, and `Stepped`
//! what the core answers to the steps of a save.
#![tactic(auto)]
