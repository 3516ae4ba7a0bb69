// What an event changes of a watcher's record that passed its tests, by value. `plain_lock::judge` judges the event from its
// thread's place and the total of the record's two, as it does for the check, and `carried_out` takes the total after it apart
// again.
#![tactic(auto)]

ghost use Rattle.std.specs.Prelude.{◌≡◌, T};
ghost use Rattle.definitions.specs.Answers.{passes_all};
ghost use Rattle.definitions.specs.Watch.{record_tests};
ghost use Rattle.updates.specs.Updates.{standing_in, changed, kept, Judged};

use definitions::{Refusal, Watcher};
use plain_lock::{Standing, WRITER, judge};

// What an event changes of a record, one entry and the two totals, and what is answered.
#[derive(Clone, Copy)]
pub struct Update {
    pub at: usize,
    pub place: u8,
    pub shared: u8,
    pub exclusive: u8,
    pub answer: Result<(), Refusal>,
}

// Where a thread stands: its place, 0 for one that no record has an entry for; and the two totals of a record make one of those
// inside.
fn standing(watcher: &Watcher, thread: u16) -> Standing
    ensures { result ≡ standing_in watcher.now thread }
{
    let place = watcher.places.get(thread as usize).copied();
    Standing {
        inside: watcher.shared as u32 + WRITER * watcher.exclusive as u32,
        place: place.unwrap_or(0),
    }
}

// What an event that fits changes.
fn carried_out(at: usize, after: Standing) -> Update
    ensures { result ≡ changed at after }
{
    Update {
        at,
        place: after.place,
        shared: (after.inside % WRITER) as u8,
        exclusive: (after.inside / WRITER % WRITER) as u8,
        answer: Ok(()),
    }
}

// The update of an event that is turned down: what stands in the record already, at the first entry.
pub fn turned_down(watcher: &Watcher, refusal: Refusal) -> Update
    ensures { result ≡ kept watcher.now refusal }
{
    Update {
        at: 0,
        place: watcher.places[0],
        shared: watcher.shared,
        exclusive: watcher.exclusive,
        answer: Err(refusal),
    }
}

// Refusals 9, 10 and 11 of an event, put to a record that passed its tests; else what it changes.
pub fn judged(watcher: &Watcher, thread: u16, event: u16) -> Result<Update, Refusal>
    requires { T (passes_all (record_tests watcher.now)) }
    ensures { Judged watcher.now (record { thread = thread; event = event }) result }
{
    let verdict = judge(
        watcher.threads as u16,
        thread,
        event,
        standing(watcher, thread),
    );
    verdict.map(|after| carried_out(thread as usize, after))
}
