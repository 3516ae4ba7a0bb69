// Scripts read: the moves that a script states, as byte triples, and its N. The lines are read by the functions that the run uses.
#![tactic(auto)]

ghost use Rattle.definitions.specs.Scripts.{reading_reply, read_entry};
ghost use Rattle.basics.specs.Outputs.{Delivered};

use codes::count_fits;
use definitions::{MOST_SCRIPT, Reading, Refusal, Refused};
use opening::first_line;
use script_moves::take_lines;
use text::Output;
use triples::put_triples;

// The triples of a script are three bytes for every nine of it at most.
const MOST_TRIPLES: usize = MOST_SCRIPT / 3;

// The entry. Nothing is written before every line has passed.
pub fn read(script: &[u8], out: &mut [u8]) -> Result<Reading, Refused>
    ensures { Delivered (read_entry script.now) out.old out.new (reading_reply result) }
{
    if MOST_SCRIPT < script.len() {
        return Err(Refusal::BadForm.into());
    }
    let first = first_line(script).ok_or(Refusal::BadForm.at(1))?;
    if !count_fits(first.count as usize) {
        return Err(Refusal::BadSize.at(1));
    }
    let threads = first.count as u8;
    let mut moves = [0u8; MOST_TRIPLES];
    let bytes = take_lines(first.rest, threads, &mut moves)?;
    if out.len() < bytes {
        return Err(Refusal::NoRoom.into());
    }
    put_triples(&mut Output::new(out), &moves[..bytes]);
    Ok(Reading { threads, bytes })
}
