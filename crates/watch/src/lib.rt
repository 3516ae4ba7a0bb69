// The watcher of 02 §2: a start and an event take the record by value, and what an event changes of it goes out as a value, the
// update that the scope paper names; a question takes the record by reference. A record is tested (crate consistency), and then
// the event is judged (crate updates) or the question answered.
#![tactic(auto)]

ghost use Rattle.std.specs.Prelude.{◌≡◌};
ghost use Rattle.definitions.specs.Watch.{watched_reply, inside_reply, start_reply, start_record, question_reply};
ghost use Rattle.updates.specs.Updates.{Updates, Judged};

use codes::count_fits;
use consistency::test_record;
use definitions::{MOST_THREADS, Refusal, Watcher};
use updates::{Update, judged, turned_down};

// The record that a start leaves, and what is answered.
#[derive(Clone, Copy)]
pub struct Begun {
    pub watcher: Watcher,
    pub answer: Result<(), Refusal>,
}

// Refusals 1 and 13 of the record, then 9, 10 and 11 of the event; else what it changes.
#[tactic(auto, unfolding(definitions::specs::Watch::event_reply, definitions::specs::Answers::answered, definitions::specs::Answers::passes_all))]
fn tested_and_judged(watcher: &Watcher, thread: u16, event: u16) -> Result<Update, Refusal>
    ensures { Judged watcher.now (record { thread = thread; event = event }) result }
{
    test_record(watcher)?;
    judged(watcher, thread, event)
}

// One event, put to a record.
#[tactic(auto, using(updates::proofs::EventLaws::refuses))]
pub fn watch_event(watcher: Watcher, thread: u16, event: u16) -> Update
    ensures { Updates watcher (record { thread = thread; event = event }) result }
{
    let update = tested_and_judged(&watcher, thread, event);
    update.unwrap_or_else(|refusal| turned_down(&watcher, refusal))
}

// A start: refusal 1.
#[tactic(auto, unfolding(definitions::specs::Watch::start_reply, definitions::specs::Watch::start_record, definitions::specs::Answers::answered))]
pub fn start(count: u16, watcher: Watcher) -> Begun
    ensures answer_value { watched_reply result.answer ≡ start_reply count }
    ensures watcher_value { result.watcher ≡ start_record count watcher }
{
    if !count_fits(count as usize) {
        return Begun {
            watcher,
            answer: Err(Refusal::BadSize),
        };
    }
    let started = Watcher {
        threads: count as u8,
        shared: 0,
        exclusive: 0,
        places: [0; MOST_THREADS as usize],
    };
    Begun {
        watcher: started,
        answer: Ok(()),
    }
}

// "Is anybody inside?", put to a record: refusals 1 and 13, then whether a total isn't 0.
#[tactic(auto, unfolding(definitions::specs::Watch::question_reply, definitions::specs::Answers::answered))]
pub fn anybody_inside(watcher: &Watcher) -> Result<bool, Refusal>
    ensures { inside_reply result ≡ question_reply watcher.now }
{
    test_record(watcher)?;
    Ok((watcher.shared != 0) | (watcher.exclusive != 0))
}
