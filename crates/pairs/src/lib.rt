// The pairs of a history, judged in one pass. It keeps each thread's place in its round and one total of the threads inside, by
// which the crate plain_lock judges an event.
#![tactic(auto)]

ghost use Rattle.std.specs.Prelude.{◌≤◌, ◌≡◌, length};
ghost use Rattle.definitions.specs.Answers.{answered, answer_reply};
ghost use Rattle.definitions.specs.Bounds.{most_threads};
ghost use Rattle.definitions.specs.PlainLock.{pairs_of, pairs_tests};

use definitions::Refused;
use plain_lock::{Standing, judge};

// One pass over the pairs. Any byte is an index of the 256 places, so a thread's place is looked up before the thread is judged;
// those below N are the only ones written. A function of its own: as a part of three entries its loop took up to 1.8 times
// the time, by the place of the code.
#[inline(never)]
pub fn check_pairs(threads: u16, history: &[u8]) -> Result<usize, Refused>
    requires { threads ≤ most_threads }
    ensures { answer_reply result ≡ answered (pairs_tests threads history.now) (length (pairs_of history.now)) }
{
    let mut places = [0u8; 256];
    let mut inside: u32 = 0;
    for (k, pair) in history.chunks_exact(2).enumerate() {
        let thread = pair[0] as usize;
        let before = Standing {
            place: places[thread],
            inside,
        };
        let judged = judge(threads, pair[0] as u16, pair[1] as u16, before);
        let after = judged.map_err(|refusal| refusal.at(k))?;
        places[thread] = after.place;
        inside = after.inside;
    }
    Ok(history.len() / 2)
}
