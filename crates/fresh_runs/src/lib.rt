// The run of a script from its first line on: the table is a fresh one for the N that this line says.
#![tactic(auto)]

ghost use Rattle.std.specs.Prelude.{◌≡◌};
ghost use Rattle.definitions.specs.Forms as forms;
ghost use Rattle.definitions.specs.Scripts.{move_lines};
ghost use Rattle.lines.specs.Lines.{lines_left};
ghost use Rattle.running.specs.Records.{Roomy};
ghost use Rattle.fresh_runs.specs.WholeRuns.{RecordedFirst, RecordedRun};

use definitions::{Refusal, Refused};
use lines::Lines;
use opening::first_line;
use running::{Ran, run_lines};
use table::{MOST_SIZE, fresh};

// A run that is stopped at the first line.
fn stopped_first(refusal: Refusal) -> Ran
    ensures { result ≡ record { shown = 0; retries = 0; ending = Err (record { refusal = refusal; place = 1 }) } }
{
    Ran {
        shown: 0,
        retries: 0,
        ending: Err(refusal.at(1)),
    }
}

// A run for a number of threads: the table is fresh, and these are the lines behind the first.
fn run_from(threads: u16, lines: Lines<'_>, history: &mut [u8]) -> Ran
    requires { Roomy (lines_left lines) history.old }
    ensures { RecordedFirst (forms.threads threads) (lines_left lines.entry) history.new result }
{
    let mut bytes = [0u8; MOST_SIZE];
    match fresh(threads, &mut bytes) {
        Ok(size) => run_lines(lines, &mut bytes[..size], history),
        Err(_) => stopped_first(Refusal::BadSize),
    }
}

// The whole run of a script that isn't too long.
pub fn run_script(script: &[u8], history: &mut [u8]) -> Ran
    requires { Roomy (move_lines script.now) history.old }
    ensures { RecordedRun script.now history.new result }
{
    match first_line(script) {
        Some(first) => run_from(first.count, first.rest, history),
        None => stopped_first(Refusal::BadForm),
    }
}
