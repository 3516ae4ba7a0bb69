// The move over the byte table: the table is tested once, then the request, then the request is applied.
#![tactic(auto)]

mod moves;
mod request;

pub use moves::{make_move, try_move};
pub use moving::Made;
