// That every arrow of Figure 1 can be taken where its condition holds, in proofs/EveryArrow.antt: this crate has no code.
#![tactic(auto)]
