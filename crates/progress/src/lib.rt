// The limits on moves, and that no table stands still, in proofs/: this crate has no code.
#![tactic(auto)]
