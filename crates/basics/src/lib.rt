// Laws that are not about the protocol, in proofs/: tests, all, some and many threads, lists, columns and sums, texts and
// numbers, replies, outputs. This crate has no code.
#![tactic(auto)]
