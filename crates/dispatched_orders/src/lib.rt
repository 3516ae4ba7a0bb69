// Demand 3 of a host that makes requests and lets the dispatcher take turns, in proofs/: this crate has no code.
#![tactic(auto)]
