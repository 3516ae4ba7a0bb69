// The plain lock's verdict on one event: `judge` decides it from the place of the event's thread and the total of the threads inside
// alone, and answers what they are after it, or why the event is turned down.
#![tactic(auto)]

ghost use Rattle.std.specs.Prelude.{◌≡◌, ℕ, if◌then◌else◌};
ghost use Rattle.definitions.specs.Answers.{number_of, answered};
ghost use Rattle.plain_lock.specs.Counts.{Counted, count_tests, standing_after, verdict_reply};
ghost use Rattle.plain_lock.specs.Rows.{event_row, moved_by};

use definitions::{Event, Refusal};

// In a total of those inside, a thread in shared is 1 and one in exclusive this, more than there are threads.
pub const WRITER: u32 = 256;

// Where a thread stands: the total of those inside, and its place in its round.
#[derive(Clone, Copy)]
pub struct Standing {
    pub inside: u32,
    pub place: u8,
}

// What an event asks and does, in one number, by hexadecimal digits from the lowest: two for the place that it follows, two for
// the place after it, four for the largest total that meets its need, and eight for what it adds to the total, modulo 2^32. 0 is
// no event: its row follows place 4, at which no thread ever is. Codes stand by number, since a byte of a history may be any
// code. The rows are constants, and are compiled to a table, where comparisons are compiled to branches that are often
// mispredicted: the check's speed rests on it.
#[tactic(auto, unfolding(crate::specs::Rows::event_row))]
fn event_row(code: usize) -> u64
    ensures { result ≡ event_row code }
{
    match code {
        0 => 0x0000_0000_ffff_00_04,
        1 => 0x0000_0000_ffff_01_00,
        2 => 0x0000_0001_00ff_02_01,
        3 => 0xffff_ffff_ffff_03_02,
        4 => 0x0000_0000_ffff_00_03,
        5 => 0x0000_0000_ffff_05_00,
        6 => 0x0000_0100_0000_06_05,
        7 => 0xffff_ff00_ffff_07_06,
        8 => 0x0000_0000_ffff_00_07,
        _ => 0x0000_0000_ffff_00_04,
    }
}

// What an event does to where its thread stands.
fn moved(before: Standing, row: u64) -> Standing
    ensures { result ≡ moved_by before row }
{
    let place = (row / 256 % 256) as u8;
    let change = (row / 4_294_967_296) as u32;
    let inside = before.inside.wrapping_add(change);
    Standing { place, inside }
}

// Why an event that doesn't fit is turned down.
fn reason(known: bool, next: bool) -> Refusal
    ensures { number_of result ≡ (if known then (if next then 11 else 10) else 9) }
{
    if !known {
        return Refusal::UnknownPair;
    }
    if !next {
        return Refusal::NotNext;
    }
    Refusal::Occupied
}

// The refusals 9, 10 and 11 of one event, from where its thread stands; no other function knows the rules of events. A code
// above the last event's is turned down before its row is looked up, so that the compiled look-up has no test of its own.
#[tactic(auto, unfolding(definitions::specs::Answers::answered))]
pub fn judge(threads: u16, thread: u16, code: u16, before: Standing) -> Result<Standing, Refusal>
    requires { Counted threads thread before }
    ensures { (k : ℕ) → verdict_reply k result ≡ answered (count_tests threads before k (record { thread = thread; event = code })) (standing_after before code) }
{
    let last = Event::LAST as u16;
    if last < code {
        return Err(Refusal::UnknownPair);
    }
    let row = event_row(code as usize);
    let below = thread < threads;
    let next = before.place as u64 == row % 256;
    let met = before.inside <= (row / 65_536 % 65_536) as u32;
    if below & (next & met) {
        return Ok(moved(before, row));
    }
    let known = below & (Event::FIRST as u16 <= code);
    Err(reason(known, next))
}
