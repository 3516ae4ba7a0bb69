// The lines of a run's events, from the history that it showed: byte pairs, thread then event. They are measured before they are put.
#![tactic(auto)]

ghost use Rattle.std.specs.Prelude.{◌≤◌, ◌≡◌, length};
ghost use Rattle.definitions.specs.Answers.{shown};
ghost use Rattle.definitions.specs.Bounds.{enough_output};
ghost use Rattle.definitions.specs.PlainLock.{pairs_of};
ghost use Rattle.definitions.specs.Run.{event_line, event_lines};
ghost use Rattle.text.specs.Cursors.{HasRoom, Puts};

use decimals::decimal_length;
use event_names::{event_name, put_name};
use text::Output;

// The bytes of `(event `, of ` (`, and of `))` with its line feed.
const AROUND_EVENT: usize = 12;

// The length of an event's line.
fn event_length(thread: u8, code: u8) -> usize
    ensures { result ≡ length (event_line thread (shown code)) }
{
    AROUND_EVENT + decimal_length(thread as usize) + event_name(code).len()
}

// The length of the lines of a history.
pub fn events_length(history: &[u8]) -> usize
    requires { length (event_lines (pairs_of history.now)) ≤ enough_output }
    ensures { result ≡ length (event_lines (pairs_of history.now)) }
{
    let mut total = 0;
    for pair in history.chunks_exact(2) {
        total += event_length(pair[0], pair[1]);
    }
    total
}

// `(event T (name))`
#[tactic(auto, unfolding(definitions::specs::Texts::bytes, definitions::specs::Run::event_line))]
fn put_event(out: &mut Output, thread: u8, code: u8)
    requires { HasRoom out.old (event_line thread (shown code)) }
    ensures { Puts out.old (event_line thread (shown code)) out.new }
{
    out.put(b"(event ");
    out.put_decimal(thread as usize);
    out.put(b" (");
    put_name(out, code);
    out.put(b"))\n");
}

// The lines of a history.
pub fn put_events(out: &mut Output, history: &[u8])
    requires { HasRoom out.old (event_lines (pairs_of history.now)) }
    ensures { Puts out.old (event_lines (pairs_of history.now)) out.new }
{
    for pair in history.chunks_exact(2) {
        put_event(out, pair[0], pair[1]);
    }
}
