// The name of an event, and of a code: a byte of a history may be any code. The name as a text, by which it is measured, and the
// same put into an output.
#![tactic(auto)]

ghost use Rattle.std.specs.Prelude.{◌≡◌};
ghost use Rattle.definitions.specs.Answers.{code_of};
ghost use Rattle.definitions.specs.Run.{event_name};
ghost use Rattle.text.specs.Cursors.{HasRoom, Puts};

use definitions::Event;
use text::Output;

const ENTER_SHARED_CALL: &[u8] = b"enter shared call";

const ENTER_SHARED_RETURN: &[u8] = b"enter shared return";

const LEAVE_SHARED_CALL: &[u8] = b"leave shared call";

const LEAVE_SHARED_RETURN: &[u8] = b"leave shared return";

const ENTER_EXCLUSIVE_CALL: &[u8] = b"enter exclusive call";

const ENTER_EXCLUSIVE_RETURN: &[u8] = b"enter exclusive return";

const LEAVE_EXCLUSIVE_CALL: &[u8] = b"leave exclusive call";

const LEAVE_EXCLUSIVE_RETURN: &[u8] = b"leave exclusive return";

#[tactic(auto, unfolding(definitions::specs::Texts::bytes, definitions::specs::Run::event_name))]
fn name(event: Event) -> &'static [u8]
    ensures { result.now ≡ event_name (code_of event) }
{
    match event {
        Event::EnterSharedCall => ENTER_SHARED_CALL,
        Event::EnterSharedReturn => ENTER_SHARED_RETURN,
        Event::LeaveSharedCall => LEAVE_SHARED_CALL,
        Event::LeaveSharedReturn => LEAVE_SHARED_RETURN,
        Event::EnterExclusiveCall => ENTER_EXCLUSIVE_CALL,
        Event::EnterExclusiveReturn => ENTER_EXCLUSIVE_RETURN,
        Event::LeaveExclusiveCall => LEAVE_EXCLUSIVE_CALL,
        Event::LeaveExclusiveReturn => LEAVE_EXCLUSIVE_RETURN,
    }
}

// The event's name, by its code; a code that is no event's has none.
#[tactic(auto, using(crate::proofs::Names::name_of))]
pub fn event_name(code: u8) -> &'static [u8]
    ensures { result.now ≡ event_name code }
{
    match Event::from_code(code) {
        Some(event) => name(event),
        None => b"",
    }
}

// Each name has a call of its own: one call, given the name as a slice, is compiled to a table of addresses, which the archive
// doesn't have.
#[tactic(auto, unfolding(definitions::specs::Texts::bytes, definitions::specs::Run::event_name))]
fn put_event_name(out: &mut Output, event: Event)
    requires { HasRoom out.old (event_name (code_of event)) }
    ensures { Puts out.old (event_name (code_of event)) out.new }
{
    match event {
        Event::EnterSharedCall => out.put(ENTER_SHARED_CALL),
        Event::EnterSharedReturn => out.put(ENTER_SHARED_RETURN),
        Event::LeaveSharedCall => out.put(LEAVE_SHARED_CALL),
        Event::LeaveSharedReturn => out.put(LEAVE_SHARED_RETURN),
        Event::EnterExclusiveCall => out.put(ENTER_EXCLUSIVE_CALL),
        Event::EnterExclusiveReturn => out.put(ENTER_EXCLUSIVE_RETURN),
        Event::LeaveExclusiveCall => out.put(LEAVE_EXCLUSIVE_CALL),
        Event::LeaveExclusiveReturn => out.put(LEAVE_EXCLUSIVE_RETURN),
    }
}

// The name of a code, put.
#[tactic(auto, using(crate::proofs::Names::name_of, text::proofs::Cursors::puts_none))]
pub fn put_name(out: &mut Output, code: u8)
    requires { HasRoom out.old (event_name code) }
    ensures { Puts out.old (event_name code) out.new }
{
    if let Some(event) = Event::from_code(code) {
        put_event_name(out, event);
    }
}
