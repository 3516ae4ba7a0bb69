// The theorems of 02 §3 on scripts written out and read, in proofs/: this crate has no code.
#![tactic(auto)]
