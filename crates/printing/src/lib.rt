// The output of a run, from the history that it showed and the way it ended. It is measured before a byte of it is written.
#![tactic(auto)]

ghost use Rattle.std.specs.Prelude.{[]};
ghost use Rattle.definitions.specs.Answers.{answer_reply, counted};
ghost use Rattle.basics.specs.Outputs.{Delivered};
ghost use Rattle.printing.specs.Output.{output_of, Measurable};

use definitions::{Refusal, Refused};
use endings::{ending_length, put_ending};
use event_lines::{events_length, put_events};
use text::Output;

// A whole output, if it has room. It is no part of its caller, whose loop over the lines so keeps the registers.
#[inline(never)]
pub fn print(
    history: &[u8],
    ending: Result<usize, Refused>,
    out: &mut [u8],
) -> Result<usize, Refused>
    requires { Measurable history.now ending }
    ensures { Delivered (counted [] (output_of history.now ending)) out.old out.new (answer_reply result) }
{
    let lines = events_length(history);
    let last = ending_length(ending);
    let needed = lines + last;
    if out.len() < needed {
        return Err(Refusal::NoRoom.into());
    }
    let mut output = Output::new(out);
    put_events(&mut output, history);
    put_ending(&mut output, ending);
    Ok(needed)
}
