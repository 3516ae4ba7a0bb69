// Theorems about the run of a script, in proofs/: this crate has no code.
#![tactic(auto)]
