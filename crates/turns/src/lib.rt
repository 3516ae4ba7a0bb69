// A line's turn in a run: its form is read, its move made, and the event that this shows is put behind the history, byte pairs,
// thread then event.
#![tactic(auto)]

ghost use Rattle.std.specs.Prelude.{[], ◌∷◌};
ghost use Rattle.definitions.specs.Forms.{line_form};
ghost use Rattle.definitions.specs.Moves.{move_reply};
ghost use Rattle.definitions.specs.Run.{turn_for, turn_of};
ghost use Rattle.apply.specs.MoveMade.{TestedTable};
ghost use Rattle.lines.specs.Lines.{line_read};
ghost use Rattle.text.specs.Cursors.{HasRoom, Puts};
ghost use Rattle.turns.specs.Steps.{added, Stepped};

use act_forms::Form;
use definitions::{Outcome, Refusal, Request};
use forms::read_line;
use lines::Line;
use lock::try_move;
use text::Output;

// What a line that lets the run go on did to it: the moves that it made and how many of them were retries, and how many forbidden are
// 1 then.
#[derive(Clone, Copy)]
pub struct Passed {
    pub moves: usize,
    pub retries: usize,
    pub forbidden: usize,
}

// A pair behind the history.
fn put_pair(history: &mut Output, thread: u8, code: u8)
    requires { HasRoom history.old (thread ∷ code ∷ []) }
    ensures { Puts history.old (thread ∷ code ∷ []) history.new }
{
    history.put_byte(thread);
    history.put_byte(code);
}

// A line's request: the move is made, and its event put behind the history.
fn make(
    table: &mut [u8],
    forbidden: usize,
    request: Request,
    history: &mut Output,
) -> Result<Passed, Refusal>
    requires { TestedTable table.old forbidden × HasRoom history.old (added (turn_for request (move_reply table.old request))) }
    ensures { Stepped (turn_for request (move_reply table.old request)) table.old history.old table.new history.new result }
{
    let made = try_move(table, forbidden, request)?;
    let forbidden = made.forbidden;
    match made.outcome {
        Outcome::Quiet => Ok(Passed {
            moves: 1,
            retries: 0,
            forbidden,
        }),
        Outcome::Retry => Ok(Passed {
            moves: 1,
            retries: 1,
            forbidden,
        }),
        Outcome::Shown(event) => {
            put_pair(history, request.thread as u8, u8::from(event));
            Ok(Passed {
                moves: 1,
                retries: 0,
                forbidden,
            })
        }
    }
}

// A line behind the first.
#[tactic(auto, unfolding(definitions::specs::Answers::answered))]
pub fn take_line(
    line: Line<'_>,
    table: &mut [u8],
    forbidden: usize,
    history: &mut Output,
) -> Result<Passed, Refusal>
    requires { TestedTable table.old forbidden × HasRoom history.old (added (turn_of table.old (line_form (line_read line)))) }
    ensures { Stepped (turn_of table.old (line_form (line_read line.entry))) table.old history.old table.new history.new result }
{
    match read_line(line) {
        Some(Form::Request(request)) => make(table, forbidden, request, history),
        Some(Form::Note) => Ok(Passed {
            moves: 0,
            retries: 0,
            forbidden,
        }),
        Some(Form::Threads(_)) | None => Err(Refusal::BadForm),
    }
}
