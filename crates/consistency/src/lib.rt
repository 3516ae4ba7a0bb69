// The consistency test of a watcher's record (02 §2), which is lent: one pass over its 200 entries, and refusals 1 and 13.
#![tactic(auto)]

ghost use Rattle.std.specs.Prelude.{◌≡◌, ◌≤◌, length};
ghost use Rattle.definitions.specs.Answers.{answered};
ghost use Rattle.definitions.specs.Bounds.{most_threads};
ghost use Rattle.definitions.specs.Watch.{consistent, watched_reply, record_tests};
ghost use Rattle.consistency.specs.Pass.{Room, with_place, found_in, all_zero, found_fits};

use codes::count_fits;
use definitions::{Refusal, Watcher};

// What a pass finds of the threads: how many are at 2 and at 6, and whether every place is one of a round.
#[derive(Clone, Copy)]
struct Found {
    shared: u8,
    exclusive: u8,
    rounds: bool,
}

// With one more thread. Places stand by number, since an entry of a record may be any byte.
fn with_place(found: Found, place: u8) -> Found
    requires { Room found }
    ensures { result ≡ with_place found place }
{
    Found {
        shared: found.shared + (place == 2) as u8,
        exclusive: found.exclusive + (place == 6) as u8,
        rounds: found.rounds & ((place <= 7) & (place != 4)),
    }
}

// The pass over the threads' entries.
#[tactic(auto, unfolding(definitions::specs::Threads::how_many, definitions::specs::Threads::every))]
fn find(places: &[u8]) -> Found
    requires { length places.now ≤ most_threads }
    ensures { result ≡ found_in places.now (length places.now) }
{
    let mut found = Found {
        shared: 0,
        exclusive: 0,
        rounds: true,
    };
    for &place in places {
        found = with_place(found, place);
    }
    found
}

// It goes on over the entries from N upward: whether all are 0. It has no early exit, as `all` has, so that it is compiled to
// many entries a step.
#[tactic(auto, unfolding(definitions::specs::Threads::every))]
fn is_empty(places: &[u8]) -> bool
    ensures { result ≡ all_zero places.now (length places.now) }
{
    let mut empty = true;
    for &place in places {
        empty &= place == 0;
    }
    empty
}

// Whether a record's totals are what the pass found, and nobody is inside beside a thread in exclusive.
fn found_fits(watcher: &Watcher, found: Found, empty: bool) -> bool
    ensures { result ≡ found_fits watcher.now found empty }
{
    let same = (watcher.shared == found.shared) & (watcher.exclusive == found.exclusive);
    let apart = (found.exclusive <= 1) & ((found.exclusive == 0) | (found.shared == 0));
    same & (empty & (found.rounds & apart))
}

// One pass over the 200 entries.
fn is_consistent(watcher: &Watcher) -> bool
    requires { watcher.now.threads ≤ most_threads }
    ensures { result ≡ consistent watcher.now }
{
    let (taken, rest) = watcher.places.split_at(watcher.threads as usize);
    found_fits(watcher, find(taken), is_empty(rest))
}

// Refusals 1 and 13.
#[tactic(auto, unfolding(definitions::specs::Answers::answered))]
pub fn test_record(watcher: &Watcher) -> Result<(), Refusal>
    ensures { watched_reply result ≡ answered (record_tests watcher.now) tt }
{
    if !count_fits(watcher.threads as usize) {
        return Err(Refusal::BadSize);
    }
    if !is_consistent(watcher) {
        return Err(Refusal::Inconsistent);
    }
    Ok(())
}
