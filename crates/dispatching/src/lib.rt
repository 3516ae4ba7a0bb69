// Laws and theorems of the dispatcher's choice, in proofs/: this crate has no code.
#![tactic(auto)]
