// The request that the dispatcher makes of a sound table (02 §8), by two plain searches over the threads: the lowest that is ready,
// and the target of its move, the lowest with a forbidden.
#![tactic(auto)]

mod counted;
mod request;

pub use request::{Chosen, choose};
