// The triples that the plan makes for one event.
#![tactic(auto)]

ghost use Rattle.definitions.specs.Plan.{plan_of, bytes_of};
ghost use Rattle.text.specs.Cursors.{HasRoom, Puts};

use definitions::{Event, Move};
use repeats::{clear_each, go_times, set_each};
use text::Output;
use triples::put_triple;

// The triples of one pair.
#[tactic(auto, unfolding(definitions::specs::Plan::plan_of, definitions::specs::Plan::bytes_of, definitions::specs::Threads::gather, definitions::specs::Answers::event_of, definitions::specs::Answers::events))]
pub fn write_pair(out: &mut Output, threads: u8, thread: u8, code: u8)
    requires { HasRoom out.old (bytes_of (plan_of threads (record { thread = thread; event = code }))) }
    ensures { Puts out.old (bytes_of (plan_of threads (record { thread = thread; event = code }))) out.new }
{
    let Some(event) = Event::from_code(code) else {
        return;
    };
    match event {
        Event::EnterSharedCall => put_triple(out, thread, Move::CallShared as u8, 0),
        Event::EnterSharedReturn => go_times(out, thread, 3),
        Event::LeaveSharedCall => go_times(out, thread, 2),
        Event::LeaveSharedReturn | Event::LeaveExclusiveReturn => go_times(out, thread, 1),
        Event::EnterExclusiveCall => put_triple(out, thread, Move::CallExclusive as u8, 0),
        Event::EnterExclusiveReturn => {
            put_triple(out, thread, Move::Go as u8, 0);
            set_each(out, thread, threads);
            put_triple(out, thread, Move::Go as u8, 0);
        }
        Event::LeaveExclusiveCall => {
            put_triple(out, thread, Move::Go as u8, 0);
            clear_each(out, thread, threads);
            put_triple(out, thread, Move::Go as u8, 0);
        }
    }
}
