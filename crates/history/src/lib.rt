// The check of a history: its N and its form, and then its pairs.
#![tactic(auto)]

ghost use Rattle.std.specs.Prelude.{◌≡◌};
ghost use Rattle.definitions.specs.Answers.{answer_reply};
ghost use Rattle.definitions.specs.PlainLock.{check_reply};

use codes::count_fits;
use definitions::{MOST_HISTORY, Refusal, Refused};
use pairs::check_pairs;

// Refusals 1 and 8; then pair by pair 9, 10, 11, with the index of the first bad pair. An accepted history answers its number
// of events.
#[tactic(auto, unfolding(definitions::specs::PlainLock::check_reply, definitions::specs::Answers::answered))]
pub fn check(threads: u16, history: &[u8]) -> Result<usize, Refused>
    ensures { answer_reply result ≡ check_reply threads history.now }
{
    let count = threads as usize;
    if !count_fits(count) {
        return Err(Refusal::BadSize.into());
    }
    let formed = (history.len() % 2 == 0) & (history.len() <= MOST_HISTORY);
    if !formed {
        return Err(Refusal::BadForm.into());
    }
    check_pairs(threads, history)
}
