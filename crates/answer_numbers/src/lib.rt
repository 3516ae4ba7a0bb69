// An answer of the part as one number: its low byte is the refusal's number, 0 where the request is accepted, and the rest is
// the refusal's place, or the value of what is answered (specs/Encoding.antt).
#![tactic(auto)]

mod values;

ghost use Rattle.std.specs.Prelude.{◌<◌, ◌≡◌};
ghost use Rattle.definitions.specs.Answers.{answer_reply};
ghost use Rattle.answer_numbers.specs.Encoding.{encoded, reply_of, reply_of_0, value_of, value_bound, held};

use definitions::{Refusal, Refused};
pub use values::{Bounded, Valued};

// Retries stand above the other value of a move and of a run, in units of this.
pub const RETRY_UNIT: u64 = 4_294_967_296;

// The largest place that stands beside a refusal's number.
const MOST_PLACE: usize = 36_028_797_018_963_967;

// The number of an answer, whose value is small.
#[tactic(auto, unfolding(crate::specs::Encoding::encoded))]
pub fn answer_number<A: Valued>(answer: Result<A, Refused>) -> u64
    requires { value_of A.worth (reply_of answer) < value_bound }
    ensures { result ≡ encoded A.worth (reply_of answer) }
{
    match answer {
        Ok(answered) => 256 * answered.value(),
        Err(refused) => 256 * refused.place as u64 + u8::from(refused.refusal) as u64,
    }
}

// The same of an answer whose refusals have no place.
pub fn placeless_number<A: Bounded>(answer: Result<A, Refusal>) -> u64
    ensures { result ≡ encoded A.worth (reply_of_0 answer) }
{
    answer_number(answer.map_err(Refused::from))
}

// The same answer, with a place that a number holds. No memory holds a list of triples that has a larger one.
pub fn hold_place(answer: Result<usize, Refused>) -> Result<usize, Refused>
    ensures { answer_reply result ≡ held (answer_reply answer) }
{
    answer.map_err(|refused| refused.refusal.at(refused.place.min(MOST_PLACE)))
}
