// The dispatcher (02 §8): the table is tested once, a request is chosen, and the move makes it.
#![tactic(auto)]

mod turn;

pub use turn::dispatch;
