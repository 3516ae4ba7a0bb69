// The number of a turn of the dispatcher, by the rule of the crate answer_numbers, which has that of a move.
#![tactic(auto)]

ghost use Rattle.std.specs.Prelude.{◌+◌, ◌*◌, ◌≡◌};
ghost use Rattle.answer_numbers.specs.Encoding.{turn_number, made_mark, seen_value};
ghost use Rattle.definitions.specs.Answers.{event_seen, number_of_move};
ghost use Rattle.definitions.specs.Dispatch.{dispatched_reply};

use definitions::{Dispatched, Event, Move};

// What a turn of the dispatcher that made a move has in its lowest byte besides the event's code.
const MADE_MARK: u64 = 128;

// The code of the event that a move showed, 0 for none.
fn event_code(event: Option<Event>) -> u8
    ensures { result ≡ seen_value (event_seen event) }
{
    event.map_or(0, u8::from)
}

// The value of a turn that made a move: what is seen of the move, then the thread, the move and the target, a byte each.
fn made_value(event: Option<Event>, thread: u8, mv: Move, target: u8) -> u64
    ensures { result ≡ made_mark + seen_value (event_seen event) + 256 * thread + 65_536 * number_of_move mv + 16_777_216 * target }
{
    let seen = MADE_MARK + event_code(event) as u64;
    let low = seen + 256 * (thread as u64);
    let high = 65_536 * (u8::from(mv) as u64) + 16_777_216 * (target as u64);
    low + high
}

// The number of the dispatcher's answer.
#[tactic(auto, unfolding(answer_numbers::specs::Encoding::encoded))]
pub fn dispatched_number(answer: Dispatched) -> u64
    ensures { result ≡ turn_number (dispatched_reply answer) }
{
    match answer {
        Dispatched::Moved {
            thread,
            mv,
            target,
            event,
        } => 256 * made_value(event, thread, mv, target),
        Dispatched::Waiting => 0,
        Dispatched::Refused(refusal) => u8::from(refusal) as u64,
    }
}
