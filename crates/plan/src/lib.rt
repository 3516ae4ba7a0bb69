// The plan for a history: checked, then its moves counted, then the triples written event by event.
#![tactic(auto)]

ghost use Rattle.definitions.specs.Answers.{answer_reply};
ghost use Rattle.definitions.specs.PlainLock.{pairs_of};
ghost use Rattle.definitions.specs.Plan.{plan, bytes_of, plan_entry};
ghost use Rattle.basics.specs.Outputs.{Delivered};
ghost use Rattle.text.specs.Cursors.{HasRoom, Puts};

use definitions::{Refusal, Refused};
use event_plans::write_pair;
use shares::count_moves;
use text::Output;

// The triples of all pairs.
fn write_pairs(out: &mut Output, threads: u8, history: &[u8])
    requires { HasRoom out.old (bytes_of (plan threads (pairs_of history.now))) }
    ensures { Puts out.old (bytes_of (plan threads (pairs_of history.now))) out.new }
{
    for pair in history.chunks_exact(2) {
        write_pair(out, threads, pair[0], pair[1]);
    }
}

// The check's refusal, number and place; then 12, before anything is written. An accepted plan answers its number of moves,
// three bytes each. The check's answer is taken apart by `let .. else`, the form that the scope paper names.
pub fn plan(threads: u16, history: &[u8], out: &mut [u8]) -> Result<usize, Refused>
    ensures { Delivered (plan_entry threads history.now) out.old out.new (answer_reply result) }
{
    let checked = history::check(threads, history);
    let Ok(_) = checked else {
        return checked;
    };
    let moves = count_moves(threads, history);
    if out.len() / 3 < moves {
        return Err(Refusal::NoRoom.into());
    }
    write_pairs(&mut Output::new(out), threads as u8, history);
    Ok(moves)
}
