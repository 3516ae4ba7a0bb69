// What the proofs of the functions over a lent record share: this crate has no code.
#![tactic(auto)]
