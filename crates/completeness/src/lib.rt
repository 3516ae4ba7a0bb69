// The theorem of completeness, in proofs/Completeness.antt: this crate has no code.
#![tactic(auto)]
