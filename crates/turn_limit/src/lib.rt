// The limit on the dispatcher's turns, in proofs/TurnLimit.antt and proofs/TurnLimitReached.antt: this crate has no code.
#![tactic(auto)]
