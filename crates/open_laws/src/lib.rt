//! What may be kept is fit to be opened: `Opens` has it that `IsOpenable` follows from `Valid`, by way of `Joined`, which has
//! the tree with every closed project opened, `Unshelved`, in which that tree is whole, and `Known`, by which its numbers are
//! drawn and equal stamps mean equal contents. There is no code here: the lemmas stand in proofs/.
#![tactic(auto)]
