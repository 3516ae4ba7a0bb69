// The triples that the plan repeats: go a number of times, set t and go for each t, clear each t. They are three loops of one or
// two lines: one loop with the turn as a closure would be no plainer, since it would be told the room and the text of its turns.
#![tactic(auto)]

ghost use Rattle.definitions.specs.Plan.{bytes_of};
ghost use Rattle.text.specs.Cursors.{HasRoom, Puts};
ghost use Rattle.repeats.specs.Requests.{go_times, set_each, clear_each};

use definitions::Move;
use text::Output;
use triples::put_triple;

// Go, `count` times.
pub fn go_times(out: &mut Output, thread: u8, count: u8)
    requires { HasRoom out.old (bytes_of (go_times thread count)) }
    ensures { Puts out.old (bytes_of (go_times thread count)) out.new }
{
    for _ in 0..count {
        put_triple(out, thread, Move::Go as u8, 0);
    }
}

// Set t and go, for each t.
#[tactic(auto, unfolding(definitions::specs::Plan::bytes_of))]
pub fn set_each(out: &mut Output, thread: u8, threads: u8)
    requires { HasRoom out.old (bytes_of (set_each thread threads)) }
    ensures { Puts out.old (bytes_of (set_each thread threads)) out.new }
{
    for t in 0..threads {
        put_triple(out, thread, Move::Set as u8, t);
        put_triple(out, thread, Move::Go as u8, 0); // busy of t is read
    }
}

// Clear t, for each t.
pub fn clear_each(out: &mut Output, thread: u8, threads: u8)
    requires { HasRoom out.old (bytes_of (clear_each thread threads)) }
    ensures { Puts out.old (bytes_of (clear_each thread threads)) out.new }
{
    for t in 0..threads {
        put_triple(out, thread, Move::Clear as u8, t);
    }
}
