// The byte table: the tests of the refusals 1 and 2, and a fresh table.
// The soundness test is one pass over the threads, whose rules by value stand in the crates tallies and soundness.
#![tactic(auto)]

mod fresh_table;
mod tests;

pub use fresh_table::fresh;
pub use layout::MOST_SIZE;
pub use tests::{Examined, examine};
