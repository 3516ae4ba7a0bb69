// Theorems on the watcher alone: proofs/EveryEvent.antt has the statements.
#![tactic(auto)]
