// The lines of a script run on a table. One pass over them makes the moves, counts the retries among them and keeps the history
// that they show, byte pairs, thread then event.
#![tactic(auto)]

ghost use Rattle.std.specs.Prelude.{◌≡◌};
ghost use Rattle.lines.specs.Lines.{lines_left};
ghost use Rattle.running.specs.Records.{Begun, RecordedIn, RecordedLines};

use definitions::Refused;
use lines::{Lines, SECOND};
use text::Output;
use turns::take_line;

// A run that has ended: how many bytes its history has, how many of its moves were retries, and how many moves it made, or the
// refusal of a line.
#[derive(Clone, Copy)]
pub struct Ran {
    pub shown: usize,
    pub retries: usize,
    pub ending: Result<usize, Refused>,
}

// The lines behind the first, their history put into an output; no forbidden is 1 yet.
fn pass_lines(lines: Lines<'_>, table: &mut [u8], history: &mut Output) -> Ran
    requires room { Begun (lines_left lines) table.old history.old.bytes.now }
    requires front { history.old.at ≡ 0 }
    ensures { RecordedIn table.old (lines_left lines.entry) history.old history.new result }
{
    let mut steps = 0;
    let mut retries = 0;
    let mut flags = 0;
    for (k, line) in lines.enumerate() {
        match take_line(line, table, flags, history) {
            Ok(passed) => {
                steps += passed.moves;
                retries += passed.retries;
                flags = passed.forbidden;
            }
            Err(refusal) => {
                return Ran {
                    shown: history.written(),
                    retries,
                    ending: Err(refusal.at(SECOND + k)),
                };
            }
        }
    }
    Ran {
        shown: history.written(),
        retries,
        ending: Ok(steps),
    }
}

// The same with the history put at the front of lent bytes.
pub fn run_lines(lines: Lines<'_>, table: &mut [u8], history: &mut [u8]) -> Ran
    requires { Begun (lines_left lines) table.old history.old }
    ensures { RecordedLines table.old (lines_left lines.entry) history.new result }
{
    pass_lines(lines, table, &mut Output::new(history))
}
