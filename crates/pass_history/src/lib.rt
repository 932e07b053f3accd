//! What a workspace's history tells of its passes: who is there, which numbers were given, and who has the services.
//! `specs/There.antt` and `specs/Served.antt` are definitions; the laws stand in proofs/.
#![tactic(auto)]
