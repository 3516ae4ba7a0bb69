// The theorems of 02 §4 on how long a plan will be, in proofs/: this crate has no code.
#![tactic(auto)]
