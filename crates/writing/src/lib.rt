// Scripts written out: N and a list of moves, byte triples of thread, move and target, become the lines that a run reads.
#![tactic(auto)]

ghost use Rattle.definitions.specs.Answers.{answer_reply};
ghost use Rattle.definitions.specs.Scripts.{write_entry};
ghost use Rattle.basics.specs.Outputs.{Delivered};

use codes::count_fits;
use definitions::{MOST_MOVES, MOST_SCRIPT, Refusal, Refused};
use script_text::{put_script, script_length};
use text::Output;
use triple_tests::test_triples;

// The entry. Everything is tested and measured before a byte is written.
pub fn write(threads: u16, triples: &[u8], out: &mut [u8]) -> Result<usize, Refused>
    ensures { Delivered (write_entry threads triples.now) out.old out.new (answer_reply result) }
{
    if !count_fits(threads as usize) {
        return Err(Refusal::BadSize.into());
    }
    if triples.len() % 3 != 0 {
        return Err(Refusal::BadForm.into());
    }
    let moves = test_triples(threads, triples)?;
    if MOST_MOVES < moves {
        return Err(Refusal::BadForm.into());
    }
    let length = script_length(threads, triples);
    if MOST_SCRIPT < length {
        return Err(Refusal::BadForm.into());
    }
    if out.len() < length {
        return Err(Refusal::NoRoom.into());
    }
    put_script(&mut Output::new(out), threads, triples);
    Ok(length)
}
