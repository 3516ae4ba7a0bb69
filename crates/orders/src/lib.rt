// The theorem of demand 3, in proofs/EveryOrder.antt: this crate has no code.
#![tactic(auto)]
