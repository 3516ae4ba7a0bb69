// The moves that the lines of a script state, one line after the other, as byte triples.
#![tactic(auto)]

ghost use Rattle.std.specs.Prelude.{◌≤◌, length};
ghost use Rattle.definitions.specs.Bounds.{most_script};
ghost use Rattle.definitions.specs.Plan.{bytes_of};
ghost use Rattle.definitions.specs.Scripts.{requests_in};
ghost use Rattle.basics.specs.Outputs.{RoomAt};
ghost use Rattle.lines.specs.Lines.{lines_left};
ghost use Rattle.script_moves.specs.AllLines.{LinesTaken};

use definitions::Refused;
use line_moves::take_line;
use lines::{Lines, SECOND};

// The lines behind the first. They answer the number of bytes of their triples.
pub fn take_lines(lines: Lines<'_>, threads: u8, moves: &mut [u8]) -> Result<usize, Refused>
    requires few { length (lines_left lines) ≤ most_script }
    requires room { RoomAt moves.old 0 (bytes_of (requests_in (lines_left lines))) }
    ensures { LinesTaken (lines_left lines.entry) threads moves.old moves.new result }
{
    let mut at = 0;
    for (k, line) in lines.enumerate() {
        let taken = take_line(threads, line).map_err(|refusal| refusal.at(SECOND + k))?;
        if let Some(triple) = taken {
            moves[at..at + 3].copy_from_slice(&triple);
            at += 3;
        }
    }
    Ok(at)
}
