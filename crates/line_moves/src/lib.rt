// The move that a line of a script states, as a byte triple. The line is read by the function that the run uses.
#![tactic(auto)]

ghost use Rattle.definitions.specs.Forms.{line_form};
ghost use Rattle.lines.specs.Lines.{line_read};
ghost use Rattle.line_moves.specs.Moves.{TripleTested, LineTaken};

use act_forms::Form;
use definitions::{Refusal, Request};
use forms::read_line;
use lines::Line;
use requests::test_numbers;

// A request's triple. Its numbers have passed, so that they fit bytes.
fn tested_triple(threads: u8, request: Request) -> Result<[u8; 3], Refusal>
    ensures { TripleTested threads request result }
{
    let mv = test_numbers(threads as usize, request)?;
    Ok([request.thread as u8, u8::from(mv), request.target as u8])
}

// A line behind the first: the triple of its move, where it states one.
#[tactic(auto, unfolding(definitions::specs::Answers::answered, definitions::specs::Answers::passes_all, definitions::specs::Plan::bytes_of))]
pub fn take_line(threads: u8, line: Line<'_>) -> Result<Option<[u8; 3]>, Refusal>
    ensures { LineTaken threads (line_form (line_read line.entry)) result }
{
    match read_line(line) {
        Some(Form::Request(request)) => {
            let triple = tested_triple(threads, request)?;
            Ok(Some(triple))
        }
        Some(Form::Note) => Ok(None),
        Some(Form::Threads(_)) | None => Err(Refusal::BadForm),
    }
}
