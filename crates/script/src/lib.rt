// The run of a script: it keeps the history that its moves show, and the output is printed from that.
#![tactic(auto)]

ghost use Rattle.definitions.specs.Run.{running_reply, run_entry};
ghost use Rattle.basics.specs.Outputs.{Delivered};

use definitions::{MOST_MOVES, MOST_SCRIPT, Refusal, Refused, Running};
use fresh_runs::run_script;
use printing::print;

// A history of so many bytes has room for an event of every move that a script can make.
const MOST_SHOWN: usize = 2 * MOST_MOVES;

// The entry. The moves are made once, and nothing is written before the output is known to have room.
pub fn run(script: &[u8], out: &mut [u8]) -> Result<Running, Refused>
    ensures { Delivered (run_entry script.now) out.old out.new (running_reply result) }
{
    if MOST_SCRIPT < script.len() {
        return Err(Refusal::BadForm.into());
    }
    let mut history = [0u8; MOST_SHOWN];
    let ran = run_script(script, &mut history);
    let bytes = print(&history[..ran.shown], ran.ending, out)?;
    Ok(Running {
        bytes,
        retries: ran.retries,
    })
}
